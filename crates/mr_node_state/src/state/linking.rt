// Links that come, are fed and go.
ghost use Rattle.std.specs.Prelude.{◌≡◌, ◌+◌, ◌<◌, [], true, false, not, length, None, Some, IfOk, OnOk, OnErr};
ghost use Rattle.mr_links.specs.Links.{links_limit};
ghost use Rattle.mr_node_links.specs.State.{EndState, end_at, put_end, serves};
ghost use Rattle.mr_node_links.specs.State.EndState.{shut};
ghost use Rattle.mr_node_links.specs.Parts.{HasAhead, HasRoom, KeepsOn, IsClient, UsesAt, HearsAt, TurnsAt};
ghost use Rattle.mr_node_spec.specs.State.{Agrees, end_of};
ghost use Rattle.mr_node_spec.specs.LinkRows.{Opens, closed_at};
ghost use Rattle.mr_node_state.specs.Listening.{is_name};
ghost use Rattle.mr_node_state.specs.Parts.{OnlyEnds, with_ends, dialled_as, fed_as};

use crate::state::State;
use mr_links::LinkId;
use mr_node_links::Introduction;
use mr_resp::Progress;
use std::alloc::AllocError;
use std::hash::RandomState;

// They come.
impl State {
    /// Opens a client's end under a name that was never given before.
    pub fn open(&mut self) -> Result<LinkId, AllocError>
        requires few { self.old.ends.opened < links_limit }
        ensures ok { IfOk result (λ l. Opens self.old l self.new) }
        ensures err { OnErr result (self.new ≡ self.old) }
    {
        self.ends.open()
    }

    /// Undoes `open`: takes out a client's end that was opened last, and of which nothing is unread, as if it had never been opened.
    pub fn take_back(&mut self, link: LinkId)
        requires open { Agrees self.old link [] }
        requires last { self.old.ends.opened ≡ link.generation + 1 }
        ensures { Opens self.new link self.old }
    {
        self.ends.take_back(link);
    }

    /// Opens the end of a link to the master. The datasets of snapshots have this seed, which changes no answer.
    pub fn dial(&mut self, seed: RandomState) -> Result<LinkId, AllocError>
        requires few { self.old.ends.opened < links_limit }
        requires replica { self.old.core.master ≡ false }
        requires alone { self.old.follow ≡ None }
        ensures fresh { IfOk result (λ l. end_of self.old l ≡ None) }
        ensures generation { IfOk result (λ l. l.generation ≡ self.old.ends.opened) }
        ensures dials { IfOk result (λ l. self.new ≡ dialled_as l self.old) }
        ensures err { OnErr result (self.new ≡ self.old) }
    {
        let link = self.ends.dial()?;
        self.course.dial(self.alloc, seed, link, self.port);
        Ok(link)
    }
}

// They are fed, and what was fed is used.
impl State {
    /// Puts bytes behind the unread ones of a client or of a replica.
    pub fn hear(&mut self, link: LinkId, bytes: &[u8]) -> Result<(), AllocError>
        requires { HasRoom self.old.ends link (length bytes.now) }
        ensures ok { OnOk result (HearsAt self.old.ends link bytes.now self.new.ends) }
        ensures only { OnlyEnds self.old self.new }
        ensures err { OnErr result (self.new ≡ self.old) }
    {
        self.ends.hear(link, bytes)
    }

    /// Takes bytes that the master sent. Where none is followed, nothing changes.
    pub fn hear_master(&mut self, bytes: &[u8]) -> Result<(), AllocError>
        ensures ok { OnOk result (self.new ≡ fed_as bytes.now self.old) }
        ensures err { OnErr result (self.new ≡ self.old) }
    {
        self.course.feed(bytes)
    }

    /// Keeps how far the reader has gone over the unread bytes of a link.
    pub fn keep(&mut self, link: LinkId, progress: Progress)
        requires { KeepsOn self.old.ends link progress }
        ensures { self.new ≡ self.old }
    {
        self.ends.keep(link, progress);
    }

    /// Uses so many unread bytes of a link.
    pub fn take(&mut self, link: LinkId, count: usize)
        requires { HasAhead self.old.ends link count }
        ensures uses { UsesAt self.old.ends link count self.new.ends }
        ensures only { OnlyEnds self.old self.new }
    {
        self.ends.take(link, count);
    }

    /// A client said this of itself by REPLCONF, which no claim speaks of.
    pub fn introduce(&mut self, link: LinkId, introduction: Introduction)
        ensures { self.new ≡ self.old }
    {
        self.ends.introduce(link, introduction);
    }

    /// A replica acknowledged this offset, which no claim speaks of.
    pub fn acknowledge(&mut self, link: LinkId, offset: i64)
        ensures { self.new ≡ self.old }
    {
        self.ends.acknowledge(link, offset);
    }

    /// A client's end becomes a replica's, behind so many bytes that are used. Where memory is lacking nothing has changed.
    pub fn stream_to(&mut self, link: LinkId, count: usize) -> Result<(), AllocError>
        requires client { IsClient self.old.ends link count }
        requires master { self.old.core.master ≡ true }
        ensures ok { OnOk result (TurnsAt self.old.ends link count self.new.ends) }
        ensures only { OnlyEnds self.old self.new }
        ensures err { OnErr result (self.new ≡ self.old) }
    {
        self.ends.turn(link, count)
    }
}

// They go.
impl State {
    /// Closes the end of a client's or a replica's link. What is fed to it from now on is dropped.
    pub fn shut(&mut self, link: LinkId)
        requires { (end : EndState) × (end_at self.old.ends link ≡ Some end) ×
            (serves end ≡ true) }
        ensures { self.new ≡ with_ends self.old (put_end self.old.ends link shut) }
    {
        self.ends.shut(link);
    }

    /// The link is gone, and what was unread there. Where it isn't there nothing changes.
    pub fn close(&mut self, link: LinkId)
        ensures { self.new ≡ closed_at link self.old }
    {
        if is_name(self.course.name(), link) {
            self.course.leave();
        }
        self.ends.remove(link);
    }
}

/// Whether this link has the name, if there is one.
fn is_name(name: Option<LinkId>, link: LinkId) -> bool
    ensures { result ≡ is_name name link }
{
    match name {
        None => false,
        Some(name) => name.index == link.index && name.generation == link.generation,
    }
}
