//! Followers.
use crate::kind::Kind;
use crate::step::Step;
use mr_data::Dataset;
use mr_follower::{FollowFault, Follower, Heard, Phase};
use mr_repl::{OFFSET_LIMIT, ReplId};
use rehearse_shared::{RehearsalFault, bytes_of, count_of, id_of, tell, tell_bytes, tell_shown};
use std::alloc::Global;
use std::hash::RandomState;

/// A replica: its follower, once a step has begun one, and the dataset that it changes, with its offset.
#[derive(Drop)]
pub struct Replica {
    seed: RandomState,
    follower: Option<Follower>,
    held: Dataset,
    offset: u64,
    announced: u64,
}

impl Replica {
    /// No follower has begun, and the dataset is empty, at offset 0.
    pub fn new(alloc: Global, seed: RandomState) -> Replica {
        Replica {
            seed,
            follower: None,
            held: Dataset::new(alloc, seed),
            offset: 0,
            announced: 0,
        }
    }

    /// A follower that offers to go on from where the replica stands, under this id, or that wants all.
    fn begin(
        &mut self,
        alloc: Global,
        id: Option<ReplId>,
        port: &str,
        out: &mut Vec<u8>,
    ) -> Result<(), RehearsalFault> {
        let port = count_of(port)?;
        if port > 65_535 || self.offset > OFFSET_LIMIT {
            return Err(RehearsalFault::Line);
        }
        let offer = match id {
            Some(id) => Some((id, self.offset)),
            None => None,
        };
        self.follower = Some(Follower::new(alloc, self.seed, offer, port as u16));
        tell(out, "says")?;
        tell_bytes(alloc, Follower::first_line(), out)
    }

    /// The replica stands at this offset.
    fn stand(&mut self, step: Step<'_>, out: &mut Vec<u8>) -> Result<(), RehearsalFault> {
        self.offset = count_of(step.first)?;
        tell(out, "stands")
    }

    /// Feeds bytes that the master sent. Fails where no follower has begun.
    fn feed(
        &mut self,
        alloc: Global,
        step: Step<'_>,
        out: &mut Vec<u8>,
    ) -> Result<(), RehearsalFault> {
        let bytes = bytes_of(alloc, step.first)?;
        let Some(follower) = &mut self.follower else {
            return Err(RehearsalFault::Line);
        };
        follower.feed(bytes.as_slice())?;
        tell(out, "fed")
    }

    /// Makes a step of the follower, and does with what it heard as a node would.
    fn follow(&mut self, alloc: Global, out: &mut Vec<u8>) -> Result<(), RehearsalFault> {
        if self.offset > OFFSET_LIMIT {
            return Err(RehearsalFault::Line);
        }
        let Some(follower) = &mut self.follower else {
            return Err(RehearsalFault::Line);
        };
        let mut said = Vec::new(alloc);
        match follower.step(alloc, &mut self.held, self.offset, &mut said) {
            Ok(heard) => self.take(alloc, heard, said.as_slice(), out),
            Err(fault) => tell_fault(alloc, fault, out),
        }
    }

    /// Whether a step applies an effect. Its text is all that `said` holds then.
    fn applies(&mut self, alloc: Global, said: &mut Vec<u8>) -> Result<bool, RehearsalFault> {
        if self.offset > OFFSET_LIMIT {
            return Err(RehearsalFault::Line);
        }
        let Some(follower) = &mut self.follower else {
            return Err(RehearsalFault::Line);
        };
        said.clear();
        match follower.step(alloc, &mut self.held, self.offset, said) {
            Ok(heard) => Ok(is_applied(heard)),
            Err(_) => Ok(false),
        }
    }

    /// Makes steps as long as they apply effects.
    fn run(&mut self, alloc: Global, out: &mut Vec<u8>) -> Result<(), RehearsalFault> {
        let mut said = Vec::new(alloc);
        for count in 0..u64::MAX {
            if !self.applies(alloc, &mut said)? {
                return tell_count(alloc, count, out);
            }
            self.advance(said.as_slice())?;
        }
        tell_count(alloc, u64::MAX, out)
    }

    /// The offset behind these bytes.
    fn advance(&mut self, said: &[u8]) -> Result<(), RehearsalFault> {
        let Some(offset) = self.offset.checked_add(said.len() as u64) else {
            return Err(RehearsalFault::Line);
        };
        self.offset = offset;
        Ok(())
    }

    /// Does with what was heard as a node would.
    fn take(
        &mut self,
        alloc: Global,
        heard: Heard,
        said: &[u8],
        out: &mut Vec<u8>,
    ) -> Result<(), RehearsalFault> {
        match heard {
            Heard::Idle => tell(out, "idle"),
            Heard::Say => tell_said(alloc, "says", said, out),
            Heard::Full(id, offset) => self.announce(alloc, id, offset, out),
            Heard::Continue(id) => tell_place(alloc, "continues", id, self.offset, out),
            Heard::Snapshot(held) => self.install(held, out),
            Heard::Applied => self.count(alloc, said, out),
        }
    }

    /// Keeps the offset of the snapshot that is to come, and tells it with its id.
    fn announce(
        &mut self,
        alloc: Global,
        id: ReplId,
        offset: u64,
        out: &mut Vec<u8>,
    ) -> Result<(), RehearsalFault> {
        self.announced = offset;
        tell_place(alloc, "announces", id, offset, out)
    }

    /// The dataset of a snapshot takes the place of the one before, at the offset that was announced.
    fn install(&mut self, held: Dataset, out: &mut Vec<u8>) -> Result<(), RehearsalFault> {
        self.held = held;
        self.offset = self.announced;
        tell(out, "installs")
    }

    /// Goes on behind the text of an effect that was applied, and tells it.
    fn count(
        &mut self,
        alloc: Global,
        said: &[u8],
        out: &mut Vec<u8>,
    ) -> Result<(), RehearsalFault> {
        self.advance(said)?;
        tell_said(alloc, "applies", said, out)
    }

    /// What the follower waits for, the offset, the bytes that were fed and not used, and the commands that make the dataset.
    fn tell(&self, alloc: Global, out: &mut Vec<u8>) -> Result<(), RehearsalFault> {
        let Some(follower) = &self.follower else {
            return Err(RehearsalFault::Line);
        };
        tell(out, "shows ")?;
        tell(out, name_of(follower.phase()))?;
        tell_shown(alloc, self.offset, out)?;
        tell_bytes(alloc, follower.kept(), out)?;
        let texts = self.held.rebuild(alloc)?;
        tell_bytes(alloc, texts.as_slice(), out)
    }
}

impl Kind for Replica {
    fn make(
        &mut self,
        alloc: Global,
        step: Step<'_>,
        out: &mut Vec<u8>,
    ) -> Result<(), RehearsalFault> {
        match step.name {
            "begin" => self.begin(alloc, None, step.first, out),
            "offer" => {
                let id = id_of(step.first)?;
                self.begin(alloc, Some(id), step.second, out)
            }
            "at" => self.stand(step, out),
            "feed" => self.feed(alloc, step, out),
            "step" => self.follow(alloc, out),
            "run" => self.run(alloc, out),
            "shows" => self.tell(alloc, out),
            _ => Err(RehearsalFault::Line),
        }
    }
}

/// Whether an effect was applied.
fn is_applied(heard: Heard) -> bool {
    matches!(heard, Heard::Applied)
}

/// How many effects were applied.
fn tell_count(alloc: Global, count: u64, out: &mut Vec<u8>) -> Result<(), RehearsalFault> {
    tell(out, "applied")?;
    tell_shown(alloc, count, out)
}

/// The name of what is waited for.
pub fn name_of(phase: Phase) -> &'static str {
    match phase {
        Phase::Ping => "ping",
        Phase::Port => "port",
        Phase::Capabilities => "capabilities",
        Phase::Psync => "psync",
        Phase::Snapshot(_, _) => "snapshot",
        Phase::Stream => "stream",
    }
}

/// A name, and the bytes that were said.
fn tell_said(
    alloc: Global,
    name: &str,
    said: &[u8],
    out: &mut Vec<u8>,
) -> Result<(), RehearsalFault> {
    tell(out, name)?;
    tell_bytes(alloc, said, out)
}

/// A name, an id and an offset.
fn tell_place(
    alloc: Global,
    name: &str,
    id: ReplId,
    offset: u64,
    out: &mut Vec<u8>,
) -> Result<(), RehearsalFault> {
    tell(out, name)?;
    tell_shown(alloc, id, out)?;
    tell_shown(alloc, offset, out)
}

/// Why the follower goes no further, as it is shown.
fn tell_fault(alloc: Global, fault: FollowFault, out: &mut Vec<u8>) -> Result<(), RehearsalFault> {
    tell(out, "refuses:")?;
    tell_shown(alloc, fault, out)
}
