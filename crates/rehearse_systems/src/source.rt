//! What a server is given from outside.
ghost use Rattle.std.specs.Prelude.{◌≢◌};
ghost use Rattle.mr_repl.specs.ReplId.{zero_id};
ghost use Rattle.mr_data.specs.Given.{IsMoment};
ghost use Rattle.mr_source.specs.Drawn.{drawn_at};

use mr_data::LAST_MOMENT;
use mr_repl::ReplId;
use mr_source::Source;

/// A clock that stands where it was set, words that are the numbers from 0 on, and ids that are the numbers from a first one on.
#[derive(Drop)]
pub struct NumberedSource {
    now: i64,
    word: u64,
    id: u64,
    ghost in_range: { IsMoment now },
}

impl NumberedSource {
    /// A clock at 0, no word was drawn, and the first id is this number.
    pub fn new(first: u64) -> NumberedSource {
        NumberedSource {
            now: 0,
            word: 0,
            id: first,
        }
    }

    /// Sets the clock to so many milliseconds, unless it is there or further.
    pub fn set(&mut self, millis: u64) {
        let moment = moment(millis);
        if self.now < moment {
            self.now = moment;
        }
    }
}

/// So many milliseconds as a moment, the last one where they are more.
fn moment(millis: u64) -> i64
    ensures { IsMoment result }
{
    if millis < LAST_MOMENT as u64 {
        millis as i64
    } else {
        LAST_MOMENT
    }
}

/// The id, or another one in the place of that of zeros.
fn without_zeros(id: ReplId) -> ReplId
    ensures { result ≢ zero_id }
{
    if id.is_zeros() {
        return ReplId::new([1; 20]);
    }
    id
}

impl Source for NumberedSource {
    ghost drawn = { λ s. drawn_at s.now };

    fn now(&mut self) -> i64 {
        self.now
    }

    fn word(&mut self) -> u64 {
        let word = self.word;
        self.word = word.saturating_add(1);
        word
    }

    fn id(&mut self) -> ReplId {
        let id = ReplId::numbered(self.id);
        self.id = self.id.saturating_add(1);
        without_zeros(id)
    }
}
