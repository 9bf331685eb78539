//! Whom a link of the wire leads to, by what the node says of it.
ghost use Rattle.std.specs.Prelude.{◌≡◌, ◌↔◌, IfSome, None};
ghost use Rattle.mr_node.specs.Calls.{IsClients};
ghost use Rattle.minired.specs.Leading.{link_at};

use crate::master_link::MasterLink;
use mr_links::LinkId;
use mr_loop::Links;
use mr_node::Node;
use mr_silence::Peer;

/// Whom the link of this socket leads to: a client, while the node has a client's end of it; else the master, where it is the link
/// that was dialled last, or a replica; and whoever it was, once the node has closed its end.
pub fn peer_of(node: &Node, own: &Links, master: &MasterLink, socket: LinkId) -> Peer
    ensures parting { (result ≡ Peer.Parting) ↔ (link_at own.now socket ≡ None) }
    ensures client { IfSome (link_at own.now socket) (λ link. (result ≡ Peer.Client) ↔
        IsClients node.now link) }
{
    let Some(connection) = own.connection(socket) else {
        return Peer::Parting;
    };
    let Some(link) = connection.link() else {
        return Peer::Parting;
    };
    if node.is_client(link) {
        return Peer::Client;
    }
    if master.is(socket) {
        Peer::Master
    } else {
        Peer::Replica
    }
}
