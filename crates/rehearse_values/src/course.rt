//! A node's course: its role, its stream, and what it reads of its master.
use crate::follower::name_of;
use crate::kind::Kind;
use crate::lineage::{MOST, tell_lineage};
use crate::step::{Step, link_of};
use crate::telling::tell_whether;
use mr_data::Dataset;
use mr_repl::{Lineage, MOST_BACKLOG};
use mr_replication::{Course, UpstreamStep};
use rehearse_shared::{RehearsalFault, bytes_of, count_of, id_of, tell, tell_bytes, tell_shown};
use std::alloc::Global;
use std::hash::RandomState;

/// A course, once a step has begun one, and the dataset that it changes.
#[derive(Drop)]
pub struct Node {
    seed: RandomState,
    course: Option<Course>,
    held: Dataset,
}

impl Node {
    /// No course has begun, and the dataset is empty.
    pub fn new(alloc: Global, seed: RandomState) -> Node {
        Node {
            seed,
            course: None,
            held: Dataset::new(alloc, seed),
        }
    }

    /// Begins a course under this id, with a backlog of this capacity, at this offset.
    fn begin(
        &mut self,
        alloc: Global,
        step: Step<'_>,
        master: bool,
        offers: bool,
        out: &mut Vec<u8>,
    ) -> Result<(), RehearsalFault> {
        let id = id_of(step.first)?;
        let capacity = count_of(step.second)? as usize;
        let offset = count_of(step.third)?;
        if capacity < 1 || capacity > MOST_BACKLOG || offset > MOST {
            return Err(RehearsalFault::Line);
        }
        let lineage = Lineage::new(alloc, id, capacity, offset)?;
        self.course = Some(Course::new(lineage, master, offers));
        tell(out, "begun")
    }

    /// The steps on what was begun.
    fn go_on(
        &mut self,
        alloc: Global,
        step: Step<'_>,
        out: &mut Vec<u8>,
    ) -> Result<(), RehearsalFault> {
        let Some(course) = &mut self.course else {
            return Err(RehearsalFault::Line);
        };
        match step.name {
            "dial" => dial(alloc, self.seed, course, step, out),
            "feed" => feed(alloc, course, step, out),
            "listen" => listen(alloc, course, &mut self.held, out),
            "grow" => grow(alloc, course, step, out),
            "shows" => tell_course(alloc, course, out),
            "commands" => {
                tell(out, "commands")?;
                let texts = self.held.rebuild(alloc)?;
                tell_bytes(alloc, texts.as_slice(), out)
            }
            _ => turn(course, step, out),
        }
    }
}

impl Kind for Node {
    fn make(
        &mut self,
        alloc: Global,
        step: Step<'_>,
        out: &mut Vec<u8>,
    ) -> Result<(), RehearsalFault> {
        match step.name {
            "master" => self.begin(alloc, step, true, true, out),
            "replica" => self.begin(alloc, step, false, false, out),
            "offering" => self.begin(alloc, step, false, true, out),
            _ => self.go_on(alloc, step, out),
        }
    }
}

/// Gives a replica a link of this name to the master, where it names this port. Fails where the course is a master's,
/// or the port is none.
fn dial(
    alloc: Global,
    seed: RandomState,
    course: &mut Course,
    step: Step<'_>,
    out: &mut Vec<u8>,
) -> Result<(), RehearsalFault> {
    let name = link_of(step)?;
    let port = count_of(step.third)?;
    if course.master() || port > 65_535 {
        return Err(RehearsalFault::Line);
    }
    course.dial(alloc, seed, name, port as u16);
    tell(out, "dialled")
}

/// Feeds bytes that the master sent.
fn feed(
    alloc: Global,
    course: &mut Course,
    step: Step<'_>,
    out: &mut Vec<u8>,
) -> Result<(), RehearsalFault> {
    let bytes = bytes_of(alloc, step.first)?;
    course.feed(bytes.as_slice())?;
    tell(out, "fed")
}

/// Puts bytes behind a master's stream. Fails where the course is a replica's, or outside the limits of offsets and of
/// bytes.
fn grow(
    alloc: Global,
    course: &mut Course,
    step: Step<'_>,
    out: &mut Vec<u8>,
) -> Result<(), RehearsalFault> {
    let bytes = bytes_of(alloc, step.first)?;
    let piece = bytes.as_slice();
    let end = course.lineage().stream().end();
    if !course.master() || end > MOST || piece.len() > MOST_BACKLOG {
        return Err(RehearsalFault::Line);
    }
    course.grow(piece);
    tell(out, "grown")
}

/// The changes of roles, and of what there is to continue.
fn turn(course: &mut Course, step: Step<'_>, out: &mut Vec<u8>) -> Result<(), RehearsalFault> {
    match step.name {
        "leave" => {
            course.leave();
            tell(out, "left")
        }
        "spoil" => {
            course.spoil();
            tell(out, "spoiled")
        }
        "promote" => {
            course.promote(id_of(step.first)?);
            tell(out, "promoted")
        }
        "obey" => {
            if !course.master() {
                return Err(RehearsalFault::Line);
            }
            course.obey();
            tell(out, "obeys")
        }
        _ => Err(RehearsalFault::Line),
    }
}

/// Makes a step at the link to the master.
fn listen(
    alloc: Global,
    course: &mut Course,
    held: &mut Dataset,
    out: &mut Vec<u8>,
) -> Result<(), RehearsalFault> {
    if course.name().is_none() {
        return Err(RehearsalFault::Line);
    }
    let mut said = Vec::new(alloc);
    match course.listen(alloc, held, &mut said) {
        Ok(heard) => {
            tell(out, heard_as(heard))?;
            tell_bytes(alloc, said.as_slice(), out)
        }
        Err(fault) => {
            tell(out, "refuses:")?;
            tell_shown(alloc, fault, out)
        }
    }
}

/// What a step came to, as it is shown.
fn heard_as(heard: UpstreamStep) -> &'static str {
    match heard {
        UpstreamStep::Idle => "idle",
        UpstreamStep::Said => "says",
        UpstreamStep::Announced => "announced",
        UpstreamStep::Continued => "continues",
        UpstreamStep::Loaded => "loads",
        UpstreamStep::Applied => "applies",
        UpstreamStep::Left => "left",
        UpstreamStep::Spoiled => "spoiled",
    }
}

/// The role, whether there is something to continue, the stream, and the link to the master: its name, what is waited for, and how
/// many bytes are unread.
fn tell_course(alloc: Global, course: &Course, out: &mut Vec<u8>) -> Result<(), RehearsalFault> {
    tell_whether(out, course.master(), "shows master", "shows replica")?;
    tell_whether(out, course.offers(), " offers", " bare")?;
    tell_lineage(alloc, course.lineage(), out)?;
    if let Some(name) = course.name() {
        tell(out, " at")?;
        tell_shown(alloc, name.index, out)?;
        tell_shown(alloc, name.generation, out)?;
    }
    if let Some(phase) = course.phase() {
        tell(out, " ")?;
        tell(out, name_of(phase))?;
    }
    tell_shown(alloc, course.unread_len(), out)
}
