ghost use Rattle.std.specs.Prelude.{IfSome, IsNone};
ghost use Rattle.std.specs.declared.net.socket_addr.SocketAddrV4.{SocketAddrV4};
ghost use Rattle.mr_wire.specs.Peer.{Names};

use std::net::{Ipv4Addr, SocketAddrV4};

/// The one host that is a name.
const LOCALHOST: &[u8] = b"localhost";

/// The peer that a host and a port name. No name is looked up.
pub(crate) fn peer_named(host: &[u8], port: u16) -> Option<SocketAddrV4>
    ensures some { IfSome result (Names host.now port) }
    ensures none { IsNone result → (peer : SocketAddrV4) → ¬ (Names host.now port peer) }
{
    if host == LOCALHOST {
        return Some(SocketAddrV4::new(Ipv4Addr::LOCALHOST, port));
    }
    match Ipv4Addr::parse_ascii(host) {
        Ok(address) => Some(SocketAddrV4::new(address, port)),
        Err(_other) => None,
    }
}
