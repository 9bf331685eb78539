// What came of following a master.
ghost use Rattle.std.specs.Prelude.{◌≡◌, ◌==◌, length};
ghost use Rattle.mr_loop.specs.News.{answered_by, copied_in, elsewhere_if, news_before, news_in_stream, news_of, place_of};
ghost use Rattle.mr_loop.specs.Counting.{heard, no_news};

use mr_node::Role;
use mr_node_output::Outs;

/// Where a step is made.
#[derive(Clone, Copy)]
pub(crate) enum Place {
    /// Not at the link to a master.
    Elsewhere,
    /// At the link to a master, before its stream.
    BeforeStream,
    /// There, in its stream.
    InStream,
}

/// What a step came to between a replica and its master.
#[derive(Clone, Copy)]
pub(crate) enum News {
    /// A line of the handshake was answered, and the next is sent.
    Greeted,
    /// A whole copy was announced.
    Announced,
    /// A whole copy took the place of the dataset. So many bytes rebuild it.
    Copied(u64),
    /// The stream goes on where it was asked for.
    Continued,
    /// The master was left before its stream: it refused, or sent a line that it may not, or bytes that no snapshot has.
    Refused,
    /// It was left in its stream, for bytes that no group begins with that can be applied.
    Spoiled,
}

/// What came of following a master in a turn. Each count stays at 2^64 - 1.
#[derive(Clone, Copy, Debug, PartialEq, Eq)]
pub struct Followed {
    /// How many lines of the handshake were answered.
    pub greeted: u64,
    /// How many whole copies were announced.
    pub announced: u64,
    /// How many whole copies took the place of the dataset.
    pub copied: u64,
    /// How many bytes rebuild these copies.
    pub bytes: u64,
    /// How often the stream went on where it was asked for.
    pub continued: u64,
    /// How often the master was left before its stream, for what it sent.
    pub refused: u64,
    /// How often it was left in its stream, for what it sent.
    pub spoiled: u64,
}

impl Followed {
    /// Nothing came of it yet.
    pub(crate) fn none() -> Followed
        ensures { result ≡ no_news }
    {
        Followed {
            greeted: 0,
            announced: 0,
            copied: 0,
            bytes: 0,
            continued: 0,
            refused: 0,
            spoiled: 0,
        }
    }

    /// Counts what a step came to.
    pub(crate) fn hear(&mut self, news: News)
        ensures { self.new ≡ heard news self.old }
    {
        match news {
            News::Greeted => self.greeted = self.greeted.saturating_add(1),
            News::Announced => self.announced = self.announced.saturating_add(1),
            News::Copied(bytes) => {
                self.copied = self.copied.saturating_add(1);
                self.bytes = self.bytes.saturating_add(bytes);
            }
            News::Continued => self.continued = self.continued.saturating_add(1),
            News::Refused => self.refused = self.refused.saturating_add(1),
            News::Spoiled => self.spoiled = self.spoiled.saturating_add(1),
        }
    }
}

/// Where a step is made at the end of a link that may be a client's, by the node's role. A replica has no ends but clients', the one to
/// its master, and those that it closed.
pub(crate) fn place_of(role: Role, at_client: bool) -> Place
    ensures { result ≡ place_of role at_client }
{
    match role {
        Role::Master | Role::Connect => Place::Elsewhere,
        Role::Sync => elsewhere_if(at_client, Place::BeforeStream),
        Role::Connected => elsewhere_if(at_client, Place::InStream),
    }
}

/// That place, unless the end is a client's.
fn elsewhere_if(at_client: bool, place: Place) -> Place
    ensures { result ≡ elsewhere_if at_client place }
{
    if at_client { Place::Elsewhere } else { place }
}

/// What a step that was made there and gave these outs came to between the node and its master, by the node's role behind it.
pub(crate) fn news_of(place: Place, after: Role, outs: &Outs) -> Option<News>
    ensures { result ≡ news_of place after outs.now }
{
    match place {
        Place::Elsewhere => None,
        Place::BeforeStream => before_stream(after, outs),
        Place::InStream => in_stream(after),
    }
}

/// .. before the master's stream.
fn before_stream(after: Role, outs: &Outs) -> Option<News>
    ensures { result ≡ news_before after outs.now }
{
    match after {
        Role::Master => None,
        Role::Connect => Some(News::Refused),
        Role::Sync => Some(answered(outs)),
        Role::Connected => Some(came(outs)),
    }
}

/// .. in that stream.
fn in_stream(after: Role) -> Option<News>
    ensures { result ≡ news_in_stream after }
{
    match after {
        Role::Connect => Some(News::Spoiled),
        Role::Master | Role::Sync | Role::Connected => None,
    }
}

/// What the master answered before its stream: without a next line that is sent, that a whole copy comes.
fn answered(outs: &Outs) -> News
    ensures { result ≡ answered_by (length outs.now.reply == 0) }
{
    if outs.reply().is_empty() {
        News::Announced
    } else {
        News::Greeted
    }
}

/// How the replica came into the stream: by a whole copy, or since it goes on.
fn came(outs: &Outs) -> News
    ensures { result ≡ copied_in outs.now.replaced }
{
    match outs.replaced() {
        Some(bytes) => News::Copied(bytes.len() as u64),
        None => News::Continued,
    }
}
