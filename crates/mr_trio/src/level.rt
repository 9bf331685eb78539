// Whether a replica has what its master has.
ghost use Rattle.std.specs.Prelude.{◌≡◌, IsTrue};
ghost use Rattle.mr_trio_script.specs.Naming.{host};
ghost use Rattle.mr_node_spec.specs.State.{shown};
ghost use Rattle.mr_trio.specs.Levels.{IsAt};

use crate::member::Member;
use mr_node_output::Address;
use mr_repl::ReplId;
use mr_trio_script::HOST;

/// Whether a replica was told to follow this node, and shows what it shows.
pub(crate) fn is_at(replica: &Member, master: &Member) -> bool
    ensures { IsTrue result →
        IsAt replica.now.node (record { node = master.now.node; port = master.now.port }) }
{
    let Some(address) = replica.upstream() else {
        return false;
    };
    if !is_of(address, master.port()) {
        return false;
    }
    same_shown(replica, master)
}

/// Whether it is the address of a node of the three that listens on this port.
fn is_of(address: &Address, port: u16) -> bool
    ensures { IsTrue result → address.now ≡ record { host = host; port = port } }
{
    address.is(HOST, port)
}

/// Whether both show the same id and offset.
fn same_shown(replica: &Member, master: &Member) -> bool
    ensures { IsTrue result → shown replica.now.node.core ≡ shown master.now.node.core }
{
    let Some((id, offset)) = replica.shows() else {
        return false;
    };
    let Some((other, there)) = master.shows() else {
        return false;
    };
    is_same(id, other) && offset == there
}

/// Whether two ids are the same.
fn is_same(id: ReplId, other: ReplId) -> bool
    ensures { IsTrue result → id ≡ other }
{
    id == other
}
