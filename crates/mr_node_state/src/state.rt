// What a node holds.
ghost use Rattle.std.specs.Prelude.{◌≡◌, ◌<◌, IfOk, IfSome, true, None};
ghost use Rattle.std.specs.FinMap as map;
ghost use Rattle.std.specs.Option.{option_copied};
ghost use Rattle.mr_replication.specs.State.{CountsUnread, IsCourse, name_of, phase_of};
ghost use Rattle.mr_repl.specs.ReplId.{IsId};
ghost use Rattle.mr_node_spec.specs.State.{IsNode, course_of};
ghost use Rattle.mr_node_spec.specs.Sound.{IsSound, ports};
ghost use Rattle.mr_node_state.specs.Copies.{IsCopy};
ghost use Rattle.mr_node_state.specs.Parts.{node_of};

mod linking;
mod roles;
mod streaming;
mod waiting;

use crate::held::Held;
use mr_data::Dataset;
use mr_follower::Phase;
use mr_links::LinkId;
use mr_node_links::Ends;
use mr_node_output::Address;
use mr_repl::{Lineage, ReplId};
use mr_replication::Course;
use std::alloc::{AllocError, Global};
use std::marker::Model;
use std::rc::Rc;

/// What a node holds: its course with its stream, its dataset, its ends of its links, whom it was told to follow, and the moment
/// from which its next heartbeat or acknowledgement is counted.
#[derive(Drop)]
pub struct State {
    alloc: Global,
    up: bool,
    port: u16,
    upstream: Option<Address>,
    mark: Option<i64>,
    course: Course,
    held: Held,
    ends: Ends,
}

impl Model for State {
    ghost use Rattle.mr_node_spec.specs.State.{NodeState, IsNode, node_code};
    ghost use Rattle.mr_node_state.specs.Parts.{node_of};

    ghost Value = { NodeState };

    ghost coded = { node_code };

    ghost view = { λ a. node_of a.up a.port a.upstream a.mark a.course a.held a.ends };

    ghost invariant = { λ a. IsNode (node_of a.up a.port a.upstream a.mark a.course a.held a.ends) };
}

impl State {
    /// A node on this course, which follows nobody, with this dataset, and without links.
    pub fn new(alloc: Global, port: u16, course: Course, held: Dataset) -> State
        requires { course.follow ≡ None }
        ensures { result ≡
            node_of true port None None course held
            (record { open_links = map.empty; opened = 0 }) }
    {
        State {
            alloc,
            up: true,
            port,
            upstream: None,
            mark: None,
            course,
            held: Held::of(alloc, held),
            ends: Ends::new(alloc),
        }
    }
}

// What is asked of it.
impl State {
    /// Whether the node isn't stopped.
    pub fn up(&self) -> bool
        ensures { result ≡ self.now.core.up }
    {
        self.up
    }

    /// Whether it is a master.
    pub fn master(&self) -> bool
        ensures { result ≡ self.now.core.master }
    {
        self.course.master()
    }

    /// Whether it has something to continue.
    pub fn offers(&self) -> bool
        ensures { result ≡ self.now.core.offers }
    {
        self.course.offers()
    }

    /// Its stream.
    pub fn lineage(&self) -> &Lineage
        ensures { result.now ≡ self.now.core.lineage }
    {
        self.course.lineage()
    }

    /// Its dataset.
    pub fn held(&self) -> &Dataset
        ensures { result.now ≡ self.now.core.held }
    {
        self.held.dataset()
    }

    /// The text of a whole copy of its dataset, at its id and its offset. It is made once for all that ask while the dataset and the
    /// stream stay as they are.
    pub fn copy(&mut self) -> Result<Rc<Vec<u8>>, AllocError>
        ensures text { IfOk result (λ t.
            IsCopy self.old.core.lineage.id self.old.core.lineage.stream.offset self.old.core.held
            t.value.items) }
        ensures same { self.new ≡ self.old }
    {
        let lineage = self.course.lineage();
        let id = lineage.id();
        let offset = lineage.stream().end();
        let text = self.held.copy(id, offset)?;
        Ok(text)
    }

    /// Whom it was told to follow, since it was started or promoted.
    pub fn upstream(&self) -> Option<&Address>
        ensures { option_copied result ≡ self.now.core.upstream }
    {
        self.upstream.as_ref()
    }

    /// The moment from which its next heartbeat or acknowledgement is counted.
    pub fn mark(&self) -> Option<i64>
        ensures { result ≡ self.now.core.mark }
    {
        self.mark
    }

    /// Its ends of its links.
    pub fn ends(&self) -> &Ends
        ensures ends { result.now ≡ self.now.ends }
        ensures node { IsNode self.now }
    {
        &self.ends
    }

    /// The link to its master, if there is one.
    pub fn followed(&self) -> Option<LinkId>
        ensures { result ≡ name_of self.now.follow }
    {
        self.course.name()
    }

    /// How many bytes of the master were fed and not used; 0 where none is followed.
    pub fn unread_len(&self) -> u64
        ensures count { CountsUnread self.now.follow result }
        ensures course { IsCourse (course_of self.now) }
    {
        // its clause says what is true of the course
        let _ = self.course.name();
        self.course.unread_len()
    }

    /// What the types of its parts keep: its ids are ids, and its stream and its ports have their bounds. It does nothing.
    pub fn sound(&self)
        ensures { IsSound self.now }
    {
        // each clause says a part of it
        let _ = self.course.name();
        let _ = self.course.port();
        let lineage = self.course.lineage();
        let _ = lineage.stream().end();
        let id = lineage.id();
        let _ = id.bytes();
        keeps_id(lineage.second());
        keeps_port(self.upstream.as_ref());
    }

    /// What is waited for there.
    pub fn phase(&self) -> Option<Phase>
        ensures { result ≡ phase_of self.now.follow }
    {
        self.course.phase()
    }
}

/// The id that a stream had before, if it had one, is an id.
fn keeps_id(second: Option<(ReplId, u64)>)
    ensures { IfSome second (λ s. IsId s.0) }
{
    match second {
        None => {}
        Some((id, _)) => {
            let _ = id.bytes();
        }
    }
}

/// The port of an address, if there is one, is a port.
fn keeps_port(address: Option<&Address>)
    ensures { IfSome (option_copied address.entry) (λ h. h.port < ports) }
{
    match address {
        None => {}
        Some(address) => {
            let _ = address.port();
        }
    }
}
