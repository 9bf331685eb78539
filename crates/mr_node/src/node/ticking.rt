// What a node does as time passes.
ghost use Rattle.std.specs.Prelude.{◌≡◌, ◌≢◌, ◌≤ℤ◌, ◌+◌, ◌++◌, pos, [], true, false, length, nat_le, if◌then◌else◌, All, IfErr, IfOk, IfSome, IfNone, OnOk};
ghost use Rattle.mr_effect.specs.Spelling.{size, text};
ghost use Rattle.mr_effect.specs.declared.effect.Effect.TheVariants as effect;
ghost use Rattle.mr_links.specs.declared.link_id.LinkId.{LinkId};
ghost use Rattle.mr_data.specs.Due.{HasWord, due};
ghost use Rattle.mr_data.specs.Given.{IsMoment};
ghost use Rattle.mr_node_output.specs.Outs.{no_outs};
ghost use Rattle.mr_node_spec.specs.TimeRows.{HasDue, IsStreaming};
ghost use Rattle.mr_node_spec.specs.Acknowledging.{acknowledgement};
ghost use Rattle.mr_node.specs.Calls.{TickStep};
ghost use Rattle.mr_node.specs.Ticking.{Doomed, Fitting, IsSince, PutsBeats, SinceBeat};

use crate::fault::NodeFault;
use crate::node::Node;
use itoa::Buffer;
use mr_bytes::Word;
use mr_data::{Dataset, DueKey, Effect, Given};
use mr_follower::Phase;
use mr_links::LinkId;
use mr_node_output::Outs;
use mr_repl::OFFSET_LIMIT;
use mr_resp::write_request;
use std::alloc::{AllocError, Global};

/// So many keys go in one tick at most.
const MOST_DELETED: usize = 64;

/// So many milliseconds pass between a master's heartbeats.
const BEAT_AFTER: i64 = 10_000;

/// So many milliseconds pass between a replica's acknowledgements.
const ACKNOWLEDGE_AFTER: i64 = 1_000;

/// How a moment stands to a mark.
#[derive(Clone, Copy)]
enum Since {
    /// There is no mark, or it lies ahead: the clock went back.
    Unmarked,
    /// So long hasn't passed yet.
    Waiting,
    /// So long has passed.
    Passed,
}

/// Whether so many milliseconds have passed at this moment since the mark.
fn since_mark(mark: Option<i64>, now: i64, millis: i64) -> Since
    requires moment { IsMoment now }
    requires short { (pos 0 ≤ℤ millis) × (millis ≤ℤ pos 10000) }
    ensures { IsSince mark now millis result }
{
    let Some(mark) = mark else {
        return Since::Unmarked;
    };
    if now < mark {
        Since::Unmarked
    } else if mark <= now - millis {
        Since::Passed
    } else {
        Since::Waiting
    }
}

/// What a master's tick writes into its stream, and whether its mark is set then.
#[derive(Drop)]
struct Beats {
    effects: Vec<Effect<'static>>,
    marks: bool,
}

/// The deletions of a tick, as far as there is room, and whether that is all of them.
#[derive(Drop)]
struct Deletions {
    effects: Vec<Effect<'static>>,
    whole: bool,
}

impl Node {
    /// Time passes. A master deletes the first keys that are expired, 64 at most, in order of deadline and then of bytes, and sends its
    /// replicas a heartbeat where it is time for one. It ends before the first text that would carry the offset past its limit. A replica
    /// deletes nothing: it acknowledges how far it holds its master's stream, where it is time to. It takes memory only for what is due.
    pub fn tick(&mut self, given: Given) -> Result<Outs, NodeFault>
        ensures { TickStep self.old given.now self.new result }
    {
        if !self.state.up() {
            return Err(NodeFault::Stopped);
        }
        if self.state.master() {
            self.beat(given.now())
        } else {
            self.rest(given.now())
        }
    }

    /// A master's tick. Where memory runs out, the node stays as it was.
    fn beat(&mut self, now: i64) -> Result<Outs, NodeFault>
        requires up { self.old.core.up ≡ true }
        requires master { self.old.core.master ≡ true }
        requires moment { IsMoment now }
        ensures { TickStep self.old now self.new result }
    {
        let mut outs = self.fresh_outs(None);
        let Ok(Beats { effects, marks }) = self.put_beats(now, &mut outs) else {
            return Err(NodeFault::Memory);
        };
        let Ok(()) = self.state.commit(effects, outs.grown()) else {
            unreachable!()
        };
        if marks {
            self.state.set_mark(now);
        }
        Ok(outs)
    }

    /// Writes what a master's tick gives out. It takes memory only for keys that are expired, and for a heartbeat that is due.
    fn put_beats(&self, now: i64, outs: &mut Outs) -> Result<Beats, AllocError>
        requires master { self.now.core.master ≡ true }
        requires empty { outs.old ≡ no_outs }
        requires moment { IsMoment now }
        ensures puts { IfOk result (λ beats. PutsBeats self.now now beats outs.new) }
        ensures lacks { IfErr result (λ lacks. HasDue self.now now) }
    {
        let room = OFFSET_LIMIT - self.state.lineage().stream().end();
        let Deletions { effects, whole } = doomed(self.alloc, self.state.held(), now, room, outs)?;
        let mut effects = effects;
        let marks = match self.since_beat(now, whole) {
            Since::Waiting => false,
            Since::Unmarked => true,
            Since::Passed => {
                if outs.beat(room)? {
                    effects.push(Effect::Ping)?;
                }
                true
            }
        };
        self.feed_replicas(outs)?;
        Ok(Beats { effects, marks })
    }

    /// Whether a heartbeat is due: not before all that is expired has room, nor where nobody would be sent it.
    fn since_beat(&self, now: i64, whole: bool) -> Since
        requires { IsMoment now }
        ensures { SinceBeat self.now now whole result }
    {
        if !whole {
            return Since::Waiting;
        }
        match since_mark(self.state.mark(), now, BEAT_AFTER) {
            Since::Passed => {
                if self.state.ends().replicas().is_empty() {
                    Since::Waiting
                } else {
                    Since::Passed
                }
            }
            other => other,
        }
    }

    /// A replica's tick: its acknowledgement, where it is time for one. Where memory runs out, the node stays as it
    /// was.
    fn rest(&mut self, now: i64) -> Result<Outs, NodeFault>
        requires up { self.old.core.up ≡ true }
        requires replica { self.old.core.master ≡ false }
        requires moment { IsMoment now }
        ensures { TickStep self.old now self.new result }
    {
        let mut outs = self.fresh_outs(None);
        match since_mark(self.state.mark(), now, ACKNOWLEDGE_AFTER) {
            Since::Waiting => {}
            Since::Unmarked => self.state.set_mark(now),
            Since::Passed => {
                let Some(link) = self.streaming() else {
                    return Ok(outs);
                };
                outs.bind(link);
                if self.put_acknowledgement(&mut outs).is_err() {
                    return Err(NodeFault::Memory);
                }
                self.state.set_mark(now);
            }
        }
        Ok(outs)
    }

    /// The link to the master, where it is in its stream.
    fn streaming(&self) -> Option<LinkId>
        ensures some { IfSome result (λ l. IsStreaming self.now l) }
        ensures none { IfNone result ((l : LinkId) → IsStreaming self.now l → ⊥) }
    {
        match self.state.phase() {
            Some(Phase::Stream) => self.state.followed(),
            _ => None,
        }
    }

    /// How far the node holds its master's stream.
    fn put_acknowledgement(&self, outs: &mut Outs) -> Result<(), AllocError>
        requires { outs.old.reply ≡ [] }
        ensures { OnOk result (outs.new ≡
            record outs.old { reply = acknowledgement self.now.core.lineage.stream.offset }) }
    {
        let mut buffer = Buffer::new();
        let offset = buffer
            .format(self.state.lineage().stream().end())
            .as_bytes();
        let mut line = Vec::new(self.alloc);
        write_request(&[b"REPLCONF", b"ACK", offset], &mut line)?;
        outs.say_bytes(line.as_slice())
    }
}

/// The deletions of a tick, as far as there is room. Their texts are put into the outs. Where no key is expired it takes no memory.
fn doomed(
    alloc: Global,
    held: &Dataset,
    now: i64,
    room: u64,
    outs: &mut Outs,
) -> Result<Deletions, AllocError>
    requires { outs.old ≡ no_outs }
    ensures deletions { IfOk result (λ d. Doomed held.now now room d outs.new) }
    ensures lacks { IfErr result (λ lacks. due now held.now ≢ []) }
{
    if held.due(now).is_none() {
        return Ok(Deletions {
            effects: Vec::new(alloc),
            whole: true,
        });
    }
    let dues = held.due_keys(alloc, now, MOST_DELETED)?;
    let count = dues.len();
    let effects = put_deletions(alloc, dues, room, outs)?;
    let whole = effects.len() == count;
    Ok(Deletions { effects, whole })
}

/// The deletions of these keys, as far as there is room. Their texts are put into the outs.
fn put_deletions(
    alloc: Global,
    dues: Vec<DueKey<'_>>,
    room: u64,
    outs: &mut Outs,
) -> Result<Vec<Effect<'static>>, AllocError>
    requires outs { outs.old ≡ no_outs }
    requires words { All HasWord dues.items }
    ensures { IfOk result (λ es. Fitting room dues.entry.items es.items outs.new) }
{
    let mut effects = Vec::new(alloc);
    for due in dues {
        if !tell(outs, due.key, room)? {
            return Ok(effects);
        }
        effects.push(deletion(alloc, due.key)?)?;
    }
    Ok(effects)
}

/// Puts the text of a deletion into the outs, if there is room.
fn tell(outs: &mut Outs, key: &[u8], room: u64) -> Result<bool, AllocError>
    requires { outs.old.appended ≡ outs.old.grown }
    ensures fits { IfOk result (λ fits.
        fits ≡ nat_le (length outs.old.grown + size (effect.Del key.now)) room) }
    ensures outs { IfOk result (λ fits. outs.new ≡ if fits
        then record outs.old {
          grown = outs.old.grown ++
              text (effect.Del key.now);
          appended = outs.old.appended ++ text (effect.Del key.now);
        }
        else outs.old) }
{
    let key = Word::borrowed(key);
    let fits = outs.grow_within(&Effect::Del { key }, room)?;
    Ok(fits)
}

/// The effect that deletes this key.
fn deletion(alloc: Global, key: &[u8]) -> Result<Effect<'static>, AllocError>
    ensures { IfOk result (λ e. e ≡ effect.Del key.now) }
{
    let key = Word::copied(alloc, key)?;
    Ok(Effect::Del { key })
}
