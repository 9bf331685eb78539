//! Wires over the system's sockets.
use crate::kind::Kind;
use crate::step::Step;
use crate::wires::on_wire;
use mr_wire::SocketWire;
use rehearse_shared::{RehearsalFault, port_of, tell, tell_shown};
use std::alloc::Global;
use std::net::{Ipv4Addr, SocketAddr};

/// A wire over sockets, once a step has one listen.
#[derive(Drop)]
pub struct Sockets {
    rt: HostRuntime,
    wire: Option<SocketWire>,
}

impl Sockets {
    /// No wire listens.
    pub fn new(rt: HostRuntime) -> Sockets {
        Sockets { rt, wire: None }
    }

    /// Listens on a port of this machine alone.
    fn listen(
        &mut self,
        alloc: Global,
        step: Step<'_>,
        out: &mut Vec<u8>,
    ) -> Result<(), RehearsalFault> {
        let address = SocketAddr::from((Ipv4Addr::LOCALHOST, port_of(step.first)?));
        let wire = SocketWire::listen(self.rt.clone()?, alloc, address)?;
        let bound = wire.address()?;
        self.wire = Some(wire);
        tell(out, "listens")?;
        tell_shown(alloc, bound.port(), out)
    }
}

impl Kind for Sockets {
    fn make(
        &mut self,
        alloc: Global,
        step: Step<'_>,
        out: &mut Vec<u8>,
    ) -> Result<(), RehearsalFault> {
        if step.name == "listen" {
            return self.listen(alloc, step, out);
        }
        match &mut self.wire {
            Some(wire) => on_wire(alloc, wire, step, out),
            None => Err(RehearsalFault::Line),
        }
    }
}
