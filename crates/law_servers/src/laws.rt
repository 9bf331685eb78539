//! What holds of the node and of its file over turns. No function here does anything: each is the law that it ensures.
ghost use Rattle.law_servers.specs.Calling.{FaultsCall, TurnsCall};
ghost use Rattle.law_servers.specs.Worlds.{CallsAreEvents, ServersKeepWorlds, ServersNeverDiffer};
ghost use Rattle.law_servers.specs.Keeping.{FaultsTear, KeptFilesAreWhole, TurnsKeep, TurnsLeaveWhole, WholeFilesAreKept};

/// **Each call that a turn makes on its node is one of a World's events**: a client's link comes, bytes come at an end, a step, a tick, an end
/// closes, a dial. Each is by its row, in the order in which they are made; also where a turn ends for a fault, up to its last.
pub fn turns_call()
    ensures turns { TurnsCall }
    ensures faults { FaultsCall }
{}

/// **In each World in which a server's node is one of the nodes, each call on it is an event of that World**, taken as its row says, or refused for want
/// of memory where the call was; or one that nobody sees, at a link of which the node has no open end.
pub fn calls_are_events()
    ensures { CallsAreEvents }
{}

/// What a server does leaves a World, and is an event of histories there, or nothing that they see.
pub fn servers_keep_worlds()
    ensures { ServersKeepWorlds }
{}

/// **In one World, calls of servers never make nodes differ silently**: over Worlds that follow one another by events and by such calls, nodes that show the same
/// replication id and offset hold the same dataset, at any two moments. Which World stands beside several servers `law_systems` says.
pub fn servers_never_differ()
    ensures { ServersNeverDiffer }
{}

/// Where nothing waits for the file, as before and behind each turn, it is kept exactly where it is read whole, as the node's dataset.
pub fn whole_files_are_kept()
    ensures kept { WholeFilesAreKept }
    ensures whole { KeptFilesAreWhole }
{}

/// **The file of a node that isn't stopped is its node's dataset**: whatever happens in a turn that goes on, the file, with what no append
/// has taken yet, makes the dataset that the node has then.
pub fn turns_keep_files()
    ensures { TurnsKeep }
{}

/// Behind each turn that went well, and behind turns one after another, it is read whole as the node's dataset where it was before.
pub fn turns_leave_files_whole()
    ensures { TurnsLeaveWhole }
{}

/// Behind a fault the file makes a dataset, and behind that stands at most a beginning of texts of groups that lead on from there.
pub fn faults_tear_files()
    ensures { FaultsTear }
{}
