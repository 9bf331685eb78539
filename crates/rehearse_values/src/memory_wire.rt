//! Wires in memory.
use crate::kind::Kind;
use crate::step::{Step, link_of};
use crate::wires::on_wire;
use mr_wire::{Accepting, Connecting, MemWire, Reading, Waiting, Writing};
use rehearse_shared::{RehearsalFault, bytes_of, count_of, tell, tell_bytes, tell_shown};
use std::alloc::Global;
use std::collections::VecDeque;
use std::mem;

/// What the calls on a wire are to come to, and the wire, once a step has begun one.
#[derive(Drop)]
pub struct MemoryWire {
    waits: VecDeque<Waiting>,
    accepts: VecDeque<Accepting>,
    connects: VecDeque<Connecting>,
    /// Of the link that is accepted or connected next.
    reads: VecDeque<Reading>,
    writes: VecDeque<Writing>,
    wire: Option<MemWire>,
}

impl MemoryWire {
    /// Nothing is listed, and no wire has begun.
    pub fn new(alloc: Global) -> MemoryWire {
        MemoryWire {
            waits: VecDeque::new(alloc),
            accepts: VecDeque::new(alloc),
            connects: VecDeque::new(alloc),
            reads: VecDeque::new(alloc),
            writes: VecDeque::new(alloc),
            wire: None,
        }
    }

    /// Begins a wire whose calls come to what was listed.
    fn begin(&mut self, alloc: Global, out: &mut Vec<u8>) -> Result<(), RehearsalFault> {
        let waits = mem::replace(&mut self.waits, VecDeque::new(alloc));
        let accepts = mem::replace(&mut self.accepts, VecDeque::new(alloc));
        let connects = mem::replace(&mut self.connects, VecDeque::new(alloc));
        self.wire = Some(MemWire::new(alloc, waits, accepts, connects));
        tell(out, "begun")
    }

    /// Lists what a wait is to come to. Fails where a step says none of it.
    fn list_wait(&mut self, step: Step<'_>, out: &mut Vec<u8>) -> Result<(), RehearsalFault> {
        let waiting = match step.first {
            "done" => Waiting::Done,
            "failed" => Waiting::Failed,
            _ => return Err(RehearsalFault::Line),
        };
        self.waits.push_back(waiting)?;
        tell(out, "listed")
    }

    /// Lists what a read is to come to, of the link that is accepted or connected next. Fails where a step says none of
    /// it.
    fn list_read(
        &mut self,
        alloc: Global,
        step: Step<'_>,
        out: &mut Vec<u8>,
    ) -> Result<(), RehearsalFault> {
        let reading = match step.first {
            "not-ready" => Reading::NotReady,
            "end" => Reading::End,
            "failed" => Reading::Failed,
            bytes => Reading::Bytes(bytes_of(alloc, bytes)?),
        };
        self.reads.push_back(reading)?;
        tell(out, "listed")
    }

    /// Lists what a write is to come to, of the link that is accepted or connected next. Fails where a step says none
    /// of it.
    fn list_write(&mut self, step: Step<'_>, out: &mut Vec<u8>) -> Result<(), RehearsalFault> {
        let writing = match step.first {
            "not-ready" => Writing::NotReady,
            "failed" => Writing::Failed,
            count => Writing::AtMost(count_of(count)? as usize),
        };
        self.writes.push_back(writing)?;
        tell(out, "listed")
    }

    /// Lists what an accept is to come to: a link has the reads and writes that were listed for it. Fails where a step
    /// says none of it.
    fn list_accept(
        &mut self,
        alloc: Global,
        step: Step<'_>,
        out: &mut Vec<u8>,
    ) -> Result<(), RehearsalFault> {
        match step.first {
            "link" => {
                let (reads, writes) = self.take_listed(alloc);
                self.accepts.push_back(Accepting::Link(reads, writes))?
            }
            "not-ready" => self.accepts.push_back(Accepting::NotReady)?,
            "failed" => self.accepts.push_back(Accepting::Failed)?,
            _ => return Err(RehearsalFault::Line),
        }
        tell(out, "listed")
    }

    /// Lists what a connect is to come to: a link has the reads and writes that were listed for it. Fails where a step
    /// says none of it.
    fn list_connect(
        &mut self,
        alloc: Global,
        step: Step<'_>,
        out: &mut Vec<u8>,
    ) -> Result<(), RehearsalFault> {
        match step.first {
            "link" => {
                let (reads, writes) = self.take_listed(alloc);
                self.connects.push_back(Connecting::Link(reads, writes))?
            }
            "failed" => self.connects.push_back(Connecting::Failed)?,
            _ => return Err(RehearsalFault::Line),
        }
        tell(out, "listed")
    }

    /// The reads and writes that were listed since the link before.
    fn take_listed(&mut self, alloc: Global) -> (VecDeque<Reading>, VecDeque<Writing>) {
        let reads = mem::replace(&mut self.reads, VecDeque::new(alloc));
        let writes = mem::replace(&mut self.writes, VecDeque::new(alloc));
        (reads, writes)
    }
}

impl Kind for MemoryWire {
    fn make(
        &mut self,
        alloc: Global,
        step: Step<'_>,
        out: &mut Vec<u8>,
    ) -> Result<(), RehearsalFault> {
        match step.name {
            "waits" => self.list_wait(step, out),
            "reads" => self.list_read(alloc, step, out),
            "writes" => self.list_write(step, out),
            "accepts" => self.list_accept(alloc, step, out),
            "connects" => self.list_connect(alloc, step, out),
            "begin" => self.begin(alloc, out),
            _ => match &mut self.wire {
                Some(wire) => on_memory(alloc, wire, step, out),
                None => Err(RehearsalFault::Line),
            },
        }
    }
}

/// Makes the call on a wire in memory that a step names.
fn on_memory(
    alloc: Global,
    wire: &mut MemWire,
    step: Step<'_>,
    out: &mut Vec<u8>,
) -> Result<(), RehearsalFault> {
    match step.name {
        "written" => tell_written(alloc, wire, step, out),
        "asked" => tell_asked(alloc, wire, step, out),
        _ => on_wire(alloc, wire, step, out),
    }
}

/// All bytes that were written on a link.
fn tell_written(
    alloc: Global,
    wire: &MemWire,
    step: Step<'_>,
    out: &mut Vec<u8>,
) -> Result<(), RehearsalFault> {
    let link = link_of(step)?;
    match wire.written(link) {
        Some(bytes) => {
            tell(out, "written")?;
            tell_bytes(alloc, bytes, out)
        }
        None => tell(out, "none"),
    }
}

/// The peer that a link was asked for.
fn tell_asked(
    alloc: Global,
    wire: &MemWire,
    step: Step<'_>,
    out: &mut Vec<u8>,
) -> Result<(), RehearsalFault> {
    let link = link_of(step)?;
    match wire.asked(link) {
        Some(peer) => {
            tell(out, "asked")?;
            tell_shown(alloc, *peer.ip(), out)?;
            tell_shown(alloc, peer.port(), out)
        }
        None => tell(out, "none"),
    }
}
