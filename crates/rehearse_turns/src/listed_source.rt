//! What a node is given from outside, as it is listed.
ghost use Rattle.std.specs.Prelude.{◌≡◌, ◌≢◌};
ghost use Rattle.mr_repl.specs.ReplId.{zero_id};
ghost use Rattle.mr_data.specs.Given.{IsMoment};
ghost use Rattle.mr_source.specs.Drawn.{drawn_at};

use mr_data::LAST_MOMENT;
use mr_repl::ReplId;
use mr_source::Source;
use rehearse_shared::{RehearsalFault, count_of, id_of};
use std::alloc::Global;
use std::collections::VecDeque;
use std::mem;

/// A clock, words and ids that are listed: each call takes the next. The clock takes the next moment as a turn begins, and else the next
/// time that passes. At the end of a list, and at a moment before the last one, it stands still; behind theirs each word is 0, and an
/// id is that of the number of ids that were drawn, itself among them.
#[derive(Drop)]
pub struct ListedSource {
    alloc: Global,
    moments: VecDeque<u64>,
    passes: VecDeque<u64>,
    words: VecDeque<u64>,
    ids: VecDeque<ReplId>,
    /// What the clock said last.
    last: i64,
    /// It wasn't asked since a turn began.
    begins: bool,
    drawn: u64,
    ghost in_range: { IsMoment last },
}

impl ListedSource {
    /// Nothing is listed.
    pub fn new(alloc: Global) -> ListedSource {
        ListedSource {
            alloc,
            moments: VecDeque::new(alloc),
            passes: VecDeque::new(alloc),
            words: VecDeque::new(alloc),
            ids: VecDeque::new(alloc),
            last: 0,
            begins: false,
            drawn: 0,
        }
    }

    /// The source of what was listed.
    pub fn take(&mut self) -> ListedSource {
        let fresh = ListedSource::new(self.alloc);
        mem::replace(self, fresh)
    }

    /// Lists the moment that a word spells, in milliseconds.
    pub fn list_moment(&mut self, word: &str) -> Result<(), RehearsalFault> {
        self.moments.push_back(count_of(word)?)?;
        Ok(())
    }

    /// Lists the time that a word spells, in milliseconds, which passes before the clock is asked again in a turn.
    pub fn list_passing(&mut self, word: &str) -> Result<(), RehearsalFault> {
        self.passes.push_back(count_of(word)?)?;
        Ok(())
    }

    /// Lists the random word that a word spells.
    pub fn list_word(&mut self, word: &str) -> Result<(), RehearsalFault> {
        self.words.push_back(count_of(word)?)?;
        Ok(())
    }

    /// Lists the id that a word spells.
    pub fn list_id(&mut self, word: &str) -> Result<(), RehearsalFault> {
        self.ids.push_back(id_of(word)?)?;
        Ok(())
    }

    /// A turn begins, or many are made at once, of which this is the first.
    pub fn begin(&mut self) {
        self.begins = true;
    }

    /// What the clock says next, in milliseconds, if that is listed.
    fn next(&mut self) -> Option<u64>
        ensures { self.new.last ≡ self.old.last }
    {
        if self.begins {
            return self.moments.pop_front();
        }
        match self.passes.pop_front() {
            Some(millis) => Some(self.last.unsigned_abs().saturating_add(millis)),
            None => None,
        }
    }
}

/// So many milliseconds as a moment, the last one where they are more.
fn moment(millis: u64) -> i64
    ensures { IsMoment result }
{
    if millis < LAST_MOMENT as u64 {
        millis as i64
    } else {
        LAST_MOMENT
    }
}

/// The id, or another one in the place of that of zeros.
fn without_zeros(id: ReplId) -> ReplId
    ensures { result ≢ zero_id }
{
    if id.is_zeros() {
        return ReplId::new([1; 20]);
    }
    id
}

impl Source for ListedSource {
    ghost drawn = { λ s. drawn_at s.last };

    fn now(&mut self) -> i64 {
        let next = self.next();
        self.begins = false;
        if let Some(millis) = next {
            let listed = moment(millis);
            if self.last < listed {
                self.last = listed;
            }
        }
        self.last
    }

    fn word(&mut self) -> u64 {
        self.words.pop_front().unwrap_or(0)
    }

    fn id(&mut self) -> ReplId {
        self.drawn = self.drawn.saturating_add(1);
        let numbered = ReplId::numbered(self.drawn);
        without_zeros(self.ids.pop_front().unwrap_or(numbered))
    }
}
