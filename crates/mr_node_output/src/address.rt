ghost use Rattle.std.specs.Prelude.{◌≡◌, ◌↔◌, IsTrue, IfOk};

use std::alloc::{AllocError, Global};
use std::marker::Model;

/// Where a node listens: the host as it was spelled, and the port.
#[derive(Drop)]
pub struct Address {
    host: Vec<u8>,
    port: u16,
}

impl Model for Address {
    ghost use Rattle.mr_node_output.specs.Address.{AddressState, address_code};

    ghost Value = { AddressState };

    ghost coded = { address_code };

    ghost view = { λ a. record { host = a.host.items; port = a.port } };
}

impl Address {
    /// This host, which is copied, and this port.
    pub fn copied(alloc: Global, host: &[u8], port: u16) -> Result<Address, AllocError>
        ensures { IfOk result (λ a. a ≡ record { host = host.now; port = port }) }
    {
        let mut copy = Vec::new(alloc);
        copy.extend_from_slice(host)?;
        Ok(Address { host: copy, port })
    }

    /// The host, as it was spelled.
    pub fn host(&self) -> &[u8]
        ensures { result.now ≡ self.now.host }
    {
        self.host.as_slice()
    }

    /// The port.
    pub fn port(&self) -> u16
        ensures { result ≡ self.now.port }
    {
        self.port
    }

    /// Whether it is this host, spelled the same, and this port.
    pub fn is(&self, host: &[u8], port: u16) -> bool
        ensures { IsTrue result ↔ (self.now ≡ record { host = host.now; port = port }) }
    {
        self.host.as_slice() == host && self.port == port
    }
}
