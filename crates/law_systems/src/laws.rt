//! What holds of servers, over whatever happens. No function here does anything: each is the law that it ensures.
ghost use Rattle.law_systems.specs.Servers.{ServersBegin, ServersHaveWorlds, ServersNeverDiffer};

/// **Servers never differ silently**: whatever turns, kills, starts and connections there are, nodes that show one replication id and one
/// offset hold one dataset, at any two moments.
pub fn servers_never_differ()
    ensures { ServersNeverDiffer }
{}

/// **Beside servers there is a run of Worlds**, in which their nodes are the nodes at each moment.
pub fn servers_have_worlds()
    ensures { ServersHaveWorlds }
{}

/// There are servers: one begins with nothing in its file, and shows the id that it drew, offset 0 and the empty dataset.
pub fn servers_begin()
    ensures { ServersBegin }
{}
