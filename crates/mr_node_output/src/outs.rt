// What a step gives out.
ghost use Rattle.std.specs.Prelude.{◌≡◌, ◌≤◌, ◌++◌, ◌∷◌, [], ◌+◌, true, false, drop, length, nat_le, take, if◌then◌else◌, IfOk, IfSome, IfNone, IsTrue, None, OnOk, Some};
ghost use Rattle.std.specs.Option.{option_map, option_copied};
ghost use Rattle.mr_resp.specs.Replies.{reply_text};
ghost use Rattle.mr_resp.specs.Spelling.{number_line};
ghost use Rattle.mr_resp.specs.ReplyView.{view};
ghost use Rattle.mr_effect.specs.Spelling.{size, text, texts};
ghost use Rattle.mr_effect.specs.declared.effect.Effect.TheVariants as effect;
ghost use Rattle.mr_node_output.specs.Replies.{said};
ghost use Rattle.mr_node_output.specs.Outs.{EndsWithReply, append, grown_outs, no_outs, outs_of, send};

use crate::address::Address;
use crate::buffers::{Buffers, spare};
use crate::out::OutsIter;
use mr_effect::{Effect, encode, encode_all};
use mr_links::LinkId;
use mr_repl::ReplId;
use mr_resp::{Reply, push_word_count, write_reply};
use std::alloc::{AllocError, Global};
use std::marker::Model;
use std::mem;
use std::rc::Rc;

/// What a step gives out. A node uses its buffers again.
pub struct Outs {
    alloc: Global,
    link: Option<LinkId>,
    /// The texts of effects: those that a master's stream grew by, or those that a replica applied.
    texts: Vec<u8>,
    /// How many of them go behind the append-only file: those in front.
    filed: usize,
    fed: Vec<LinkId>,
    reply: Vec<u8>,
    /// A text that is shared with other steps, in place of a reply of its own.
    shared: Option<Rc<Vec<u8>>>,
    closed: Vec<LinkId>,
    replaced: Option<Vec<u8>>,
    follows: Option<Address>,
    // the small ones side by side: each request moves all of it
    used: Option<ReplId>,
    /// Whether a master's stream grew by the texts.
    grows: bool,
    closes: bool,
    halts: bool,
}

// By hand, so that it is one call wherever a value goes (docs/PROVING.md).
impl Drop for Outs {
    fn drop(self) {
        let Outs {
            alloc: _,
            link: _,
            texts: _,
            filed: _,
            fed: _,
            reply: _,
            shared: _,
            closed: _,
            replaced: _,
            follows: _,
            used: _,
            grows: _,
            closes: _,
            halts: _,
        } = self;
    }
}

impl Model for Outs {
    ghost use Rattle.std.specs.Prelude.{◌≤◌, length, take, [], if◌then◌else◌};
    ghost use Rattle.std.specs.Option.{option_map};
    ghost use Rattle.mr_node_output.specs.Outs.{OutsState, outs_code};
    ghost use Rattle.mr_node_output.specs.Replies.{said};

    ghost Value = { OutsState };

    ghost coded = { outs_code };

    ghost view = { λ o. record {
      link = o.link;
      grown = if o.grows then o.texts.items else [];
      appended = take o.filed o.texts.items;
      replaced = option_map (λ bytes. bytes.items) o.replaced;
      fed = o.fed.items;
      reply = said (option_map (λ t. t.value.items) o.shared) o.reply.items;
      closes = o.closes;
      closed = o.closed.items;
      used = o.used;
      follows = o.follows;
      halts = o.halts;
    } };

    ghost invariant = { λ o. o.filed ≤ length o.texts.items };
}

// What it holds.
impl Outs {
    /// What the step gives out, in the order in which it is to be carried out.
    pub fn iter(&self) -> OutsIter<'_>
        ensures { result ≡ outs_of self.now }
    {
        OutsIter::new(self)
    }

    /// The link that the step was made on, none where it was a tick.
    pub fn link(&self) -> Option<LinkId>
        ensures { result ≡ self.now.link }
    {
        self.link
    }

    /// The texts of the effects that a master's stream grew by, in order.
    pub fn grown(&self) -> &[u8]
        ensures { result.now ≡ self.now.grown }
    {
        if self.grows {
            return self.texts.as_slice();
        }
        &[]
    }

    /// What goes behind the append-only file.
    pub fn appended(&self) -> &[u8]
        ensures { result.now ≡ self.now.appended }
    {
        &self.texts[..self.filed]
    }

    /// What the append-only file is replaced by.
    pub fn replaced(&self) -> Option<&[u8]>
        ensures { option_map (λ bytes. bytes.now) result ≡ self.now.replaced }
    {
        match &self.replaced {
            None => None,
            Some(bytes) => Some(bytes.as_slice()),
        }
    }

    /// The links of replicas, to each of which is sent what the stream grew by.
    pub fn fed(&self) -> &[LinkId]
        ensures { result.now ≡ self.now.fed }
    {
        self.fed.as_slice()
    }

    /// What is sent on the link.
    pub fn reply(&self) -> &[u8]
        ensures { result.now ≡ self.now.reply }
    {
        match &self.shared {
            None => self.reply.as_slice(),
            Some(text) => text.as_slice(),
        }
    }

    /// Whether the node closed the link.
    pub fn closes(&self) -> bool
        ensures { result ≡ self.now.closes }
    {
        self.closes
    }

    /// The links of replicas that the node closed.
    pub fn closed(&self) -> &[LinkId]
        ensures { result.now ≡ self.now.closed }
    {
        self.closed.as_slice()
    }

    /// The fresh id that the step took.
    pub fn used(&self) -> Option<ReplId>
        ensures { result ≡ self.now.used }
    {
        self.used
    }

    /// Whom the node follows from now on.
    pub fn follows(&self) -> Option<&Address>
        ensures { option_copied result ≡ self.now.follows }
    {
        self.follows.as_ref()
    }

    /// Whether a client asked that the program end.
    pub fn halts(&self) -> bool
        ensures { result ≡ self.now.halts }
    {
        self.halts
    }
}

/// Texts and replies of so many bytes and more are worth to be handed on with their memory.
const LONG: usize = 65_536;

// What is handed on with its memory.
impl Outs {
    /// Takes out the texts that stand in front, where they are long, all go behind the file and are sent to no replica: they are
    /// behind the file as the first thing that is carried out. What the stream grew by is told with them.
    pub fn take_first(&mut self) -> Option<Vec<u8>>
        ensures some { IfSome result (λ texts.
            outs_of self.old ≡
            grown_outs self.old.grown ++ append texts.items ∷ outs_of self.new) }
        ensures rest { IfSome result (λ _.
            self.new ≡ record self.old { grown = []; appended = [] }) }
        ensures none { IfNone result (self.new ≡ self.old) }
    {
        if self.texts.len() < LONG || self.filed < self.texts.len() || !self.fed.is_empty() {
            return None;
        }
        self.filed = 0;
        self.grows = false;
        Some(mem::replace(&mut self.texts, Vec::new(self.alloc)))
    }

    /// Takes out the reply, where it is long, the step's own, and nothing is carried out behind it.
    pub fn take_last(&mut self) -> Option<(LinkId, Vec<u8>)>
        ensures some { IfSome result (λ reply.
            outs_of self.old ≡ outs_of self.new ++ send reply.0 reply.1.items ∷ []) }
        ensures none { IfNone result (self.new ≡ self.old) }
    {
        if self.shared.is_some() || self.reply.len() < LONG || !self.ends_with_the_reply() {
            return None;
        }
        let link = self.link?;
        Some((link, mem::replace(&mut self.reply, Vec::new(self.alloc))))
    }

    /// Takes out the reply, where it is a long text that is shared with other steps and nothing is carried out behind it.
    pub fn take_shared(&mut self) -> Option<(LinkId, Rc<Vec<u8>>)>
        ensures some { IfSome result (λ reply.
            outs_of self.old ≡ outs_of self.new ++ send reply.0 reply.1.value.items ∷ []) }
        ensures none { IfNone result (self.new ≡ self.old) }
    {
        if self.reply().len() < LONG || !self.ends_with_the_reply() {
            return None;
        }
        let link = self.link?;
        let text = self.take_text()?;
        Some((link, text))
    }

    /// Takes out the text that is shared with other steps, if it is what is sent on the link.
    fn take_text(&mut self) -> Option<Rc<Vec<u8>>>
        ensures said { IfSome result (λ text. self.old.reply ≡ text.value.items) }
        ensures rest { IfSome result (λ _. self.new ≡ record self.old { reply = [] }) }
        ensures none { IfNone result (self.new ≡ self.old) }
    {
        let text = self.shared.take()?;
        self.reply.clear();
        Some(text)
    }

    /// Takes room for texts, in place of those that are here.
    pub fn keep_texts(&mut self, room: Vec<u8>)
        ensures { self.new ≡ record self.old { grown = []; appended = [] } }
    {
        self.filed = 0;
        self.grows = false;
        self.texts = room;
    }

    /// Takes room for a reply, in place of the one that is here.
    pub fn keep_reply(&mut self, mut room: Vec<u8>)
        ensures { self.new ≡ record self.old { reply = [] } }
    {
        room.clear();
        self.reply = room;
        self.shared = None;
    }

    /// Whether nothing is carried out behind the reply.
    fn ends_with_the_reply(&self) -> bool
        ensures { IsTrue result → EndsWithReply self.now }
    {
        !self.closes
            && self.closed.is_empty()
            && self.used.is_none()
            && self.follows.is_none()
            && !self.halts
    }
}

// Where it comes from, and what is left of it.
impl Outs {
    /// Outs of a step on this link, none where it is a tick, in these buffers. Nothing is put into them yet. It takes no memory.
    pub fn begin(buffers: Buffers, link: Option<LinkId>) -> Outs
        ensures { result ≡ record no_outs { link = link } }
    {
        let Buffers {
            alloc,
            mut texts,
            mut fed,
            mut reply,
        } = buffers;
        texts.clear();
        fed.clear();
        reply.clear();
        Outs {
            alloc,
            link,
            texts,
            filed: 0,
            fed,
            reply,
            shared: None,
            closed: Vec::new(alloc),
            replaced: None,
            follows: None,
            used: None,
            grows: false,
            closes: false,
            halts: false,
        }
    }

    /// Its buffers, for others.
    pub fn into_buffers(self) -> Buffers {
        let Outs {
            alloc,
            link: _,
            texts,
            filed: _,
            fed,
            reply,
            shared: _,
            closed: _,
            replaced: _,
            follows: _,
            used: _,
            grows: _,
            closes: _,
            halts: _,
        } = self;
        Buffers {
            alloc,
            texts: spare(alloc, texts),
            fed,
            reply: spare(alloc, reply),
        }
    }
}

// What is put into it. Where memory is lacking it may hold anything.
impl Outs {
    /// A master's stream grows by these effects, and so does the file.
    pub fn grow(&mut self, effects: &[Effect<'_>]) -> Result<(), AllocError>
        requires { (self.old.grown ≡ []) × (self.old.appended ≡ []) }
        ensures { OnOk result (self.new ≡
            record self.old { grown = texts effects.now; appended = texts effects.now }) }
    {
        self.filed = 0;
        self.texts.clear();
        encode_all(effects, &mut self.texts)?;
        self.filed = self.texts.len();
        self.grows = true;
        Ok(())
    }

    /// A master's stream grows by the text of an effect, and so does the file, if all of them together have no more bytes than this. It answers
    /// whether.
    pub fn grow_within(&mut self, effect: &Effect<'_>, room: u64) -> Result<bool, AllocError>
        requires { self.old.appended ≡ self.old.grown }
        ensures fits { IfOk result (λ fits.
            fits ≡ nat_le (length self.old.grown + size effect.now) room) }
        ensures outs { IfOk result (λ fits. self.new ≡ if fits
            then record self.old {
              grown = self.old.grown ++
                  text effect.now;
              appended = self.old.appended ++ text effect.now;
            } else self.old) }
    {
        if !self.grows {
            self.texts.clear();
            self.grows = true;
        }
        let start = self.texts.len();
        encode(effect, &mut self.texts)?;
        if self.texts.len() as u64 > room {
            self.texts.truncate(start);
            return Ok(false);
        }
        self.filed = self.texts.len();
        Ok(true)
    }

    /// A master's stream grows by these effects too, and so does the file, if all their texts together have no more bytes than this. It answers
    /// whether.
    pub fn grow_on(&mut self, effects: &[Effect<'_>], room: u64) -> Result<bool, AllocError>
        requires { self.old.appended ≡ self.old.grown }
        ensures fits { IfOk result (λ fits.
            fits ≡ nat_le (length self.old.grown + length (texts effects.now)) room) }
        ensures outs { IfOk result (λ fits. self.new ≡ if fits
            then record self.old {
              grown = self.old.grown ++
                  texts effects.now;
              appended = self.old.appended ++ texts effects.now;
            } else self.old) }
    {
        if !self.grows {
            self.filed = 0;
            self.texts.clear();
            self.grows = true;
        }
        let before = self.texts.len();
        encode_all(effects, &mut self.texts)?;
        if self.texts.len() as u64 > room {
            self.texts.truncate(before);
            return Ok(false);
        }
        self.filed = self.texts.len();
        Ok(true)
    }

    /// Both parts of a frame stand in front of the texts that are to come, first the one that ends it: so they take their room before any text.
    pub fn begin_frame(&mut self, front: &[u8], behind: &[u8]) -> Result<(), AllocError>
        requires { (self.old.grown ≡ []) × (self.old.appended ≡ []) }
        ensures { OnOk result (self.new ≡
            record self.old {
              grown = behind.now ++ front.now;
              appended = behind.now ++ front.now;
            }) }
    {
        self.filed = 0;
        self.texts.clear();
        self.texts.extend_from_slice(behind)?;
        self.texts.extend_from_slice(front)?;
        self.filed = self.texts.len();
        self.grows = true;
        Ok(())
    }

    /// So many bytes in front of what the stream grows by, and the file, stand behind all others from now on. It takes no memory.
    pub fn turn_front(&mut self, count: usize)
        requires few { count ≤ length self.old.grown }
        requires same { self.old.appended ≡ self.old.grown }
        ensures { self.new ≡
            record self.old {
              grown = drop count self.old.grown ++ take count self.old.grown;
              appended = drop count self.old.grown ++ take count self.old.grown;
            } }
    {
        if !self.grows {
            return;
        }
        self.texts.rotate_left(count);
        self.filed = self.texts.len();
    }

    /// So many bytes in front of what the stream grows by, and the file, are taken back. It takes no memory.
    pub fn drop_front(&mut self, count: usize)
        requires few { count ≤ length self.old.grown }
        requires same { self.old.appended ≡ self.old.grown }
        ensures { self.new ≡
            record self.old {
              grown = drop count self.old.grown;
              appended = drop count self.old.grown;
            } }
    {
        if !self.grows {
            return;
        }
        self.texts.drain(..count);
        self.filed = self.texts.len();
    }

    /// A master's stream grows by a heartbeat, and the file doesn't, if all of it together has no more bytes than this. It answers whether.
    pub fn beat(&mut self, room: u64) -> Result<bool, AllocError>
        requires { self.old.appended ≡ self.old.grown }
        ensures fits { IfOk result (λ fits.
            fits ≡ nat_le (length self.old.grown + size effect.Ping) room) }
        ensures outs { IfOk result (λ fits. self.new ≡ if fits
            then record self.old { grown = self.old.grown ++ text effect.Ping } else self.old) }
    {
        if !self.grows {
            self.filed = 0;
            self.texts.clear();
            self.grows = true;
        }
        let start = self.texts.len();
        encode(&Effect::Ping, &mut self.texts)?;
        if self.texts.len() as u64 > room {
            self.texts.truncate(start);
            return Ok(false);
        }
        Ok(true)
    }

    /// Takes back what the stream grows by.
    pub fn drop_grown(&mut self)
        ensures { self.new ≡ record self.old { grown = []; appended = [] } }
    {
        self.filed = 0;
        self.texts.clear();
        self.grows = false;
    }

    /// What the stream grows by is sent on these links.
    pub fn feed(&mut self, links: &[LinkId]) -> Result<(), AllocError>
        requires { self.old.fed ≡ [] }
        ensures { OnOk result (self.new ≡ record self.old { fed = links.now }) }
    {
        self.fed.extend_from_slice(links)?;
        Ok(())
    }

    /// What the stream grows by is sent to nobody.
    pub fn feed_nobody(&mut self)
        ensures { self.new ≡ record self.old { fed = [] } }
    {
        self.fed.clear();
    }

    /// Puts a reply behind what is sent on the link.
    pub fn say(&mut self, reply: &Reply) -> Result<(), AllocError>
        ensures { OnOk result (self.new ≡
            record self.old { reply = self.old.reply ++ reply_text (view reply.now) }) }
    {
        make_own(&mut self.reply, &mut self.shared)?;
        write_reply(reply, &mut self.reply)
    }

    /// So many replies are to come as one.
    pub fn say_count(&mut self, count: usize) -> Result<(), AllocError>
        ensures { OnOk result (self.new ≡
            record self.old { reply = self.old.reply ++ 42 ∷ number_line count }) }
    {
        make_own(&mut self.reply, &mut self.shared)?;
        push_word_count(&mut self.reply, count)
    }

    /// Puts bytes behind what is sent on the link.
    pub fn say_bytes(&mut self, bytes: &[u8]) -> Result<(), AllocError>
        ensures { OnOk result (self.new ≡
            record self.old { reply = self.old.reply ++ bytes.now }) }
    {
        make_own(&mut self.reply, &mut self.shared)?;
        self.reply.extend_from_slice(bytes)
    }

    /// A text that is shared with other steps is what is sent on the link.
    pub fn say_shared(&mut self, text: Rc<Vec<u8>>)
        ensures { self.new ≡ record self.old { reply = text.value.items } }
    {
        self.shared = Some(text);
    }

    /// The append-only file is replaced by these bytes.
    pub fn replace(&mut self, bytes: Vec<u8>)
        ensures { self.new ≡ record self.old { replaced = Some bytes.items } }
    {
        self.replaced = Some(bytes);
    }

    /// The link is closed.
    pub fn close(&mut self)
        ensures { self.new ≡ record self.old { closes = true } }
    {
        self.closes = true;
    }

    /// These links are closed.
    pub fn close_all(&mut self, links: &[LinkId]) -> Result<(), AllocError>
        requires { self.old.closed ≡ [] }
        ensures { OnOk result (self.new ≡ record self.old { closed = links.now }) }
    {
        self.closed.extend_from_slice(links)?;
        Ok(())
    }

    /// The fresh id was taken.
    pub fn take_id(&mut self, id: ReplId)
        ensures { self.new ≡ record self.old { used = Some id } }
    {
        self.used = Some(id);
    }

    /// The node follows another from now on.
    pub fn follow(&mut self, address: Address)
        ensures { self.new ≡ record self.old { follows = Some address } }
    {
        self.follows = Some(address);
    }

    /// It is of a step on this link.
    pub fn bind(&mut self, link: LinkId)
        ensures { self.new ≡ record self.old { link = Some link } }
    {
        self.link = Some(link);
    }

    /// A client asked that the program end.
    pub fn halt(&mut self)
        ensures { self.new ≡ record self.old { halts = true } }
    {
        self.halts = true;
    }
}

// What a replica does at the link to its master.
impl Outs {
    /// Gives its room away, for what comes of a step there. Of its own texts nothing is left.
    pub fn take_room(&mut self) -> Vec<u8>
        ensures room { result.items ≡ [] }
        ensures rest { self.new ≡ record self.old { grown = []; appended = [] } }
    {
        self.filed = 0;
        self.grows = false;
        let mut room = mem::replace(&mut self.texts, Vec::new(self.alloc));
        room.clear();
        room
    }

    /// A line is sent there.
    pub fn tell(&mut self, line: Vec<u8>)
        ensures { self.new ≡ record self.old { reply = line.items } }
    {
        self.reply = line;
        self.shared = None;
    }

    /// The text of an effect was applied, which goes behind the file, or doesn't.
    pub fn apply(&mut self, text: Vec<u8>, files: bool)
        ensures { self.new ≡
            record self.old { grown = []; appended = if files then text.items else [] } }
    {
        self.filed = if files { text.len() } else { 0 };
        self.texts = text;
        self.grows = false;
    }
}

/// A reply that is shared with other steps becomes the step's own: its text is copied.
fn make_own(reply: &mut Vec<u8>, shared: &mut Option<Rc<Vec<u8>>>) -> Result<(), AllocError>
    ensures none { OnOk result (shared.new ≡ None) }
    ensures same { OnOk result (reply.new.items ≡
        said (option_map (λ t. t.value.items) shared.old) reply.old.items) }
{
    let Some(text) = shared.take() else {
        return Ok(());
    };
    reply.clear();
    reply.extend_from_slice(text.as_slice())?;
    Ok(())
}
