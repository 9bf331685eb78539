// The first words of lines.
ghost use Rattle.std.specs.Prelude.{◌≡◌, find};
ghost use Rattle.mr_world_script.specs.Reading.{is_named, named, names, text_of};

/// What a line is about, by its first word alone.
#[derive(Clone, Copy)]
pub(crate) enum EventName {
    Start,
    Replica,
    Client,
    Send,
    Raw,
    Deliver,
    Step,
    Tick,
    Break,
    Dial,
    Connect,
    Accept,
    Restart,
    Show,
    Got,
}

impl EventName {
    /// The one that a word is.
    pub(crate) fn of(word: &[u8]) -> Option<EventName>
        ensures { result ≡ named word.now }
    {
        EventName::among(EventName::all(), word)
    }

    /// All of them.
    fn all() -> &'static [EventName]
        ensures { result.now ≡ names }
    {
        &[
            EventName::Start,
            EventName::Replica,
            EventName::Client,
            EventName::Send,
            EventName::Raw,
            EventName::Deliver,
            EventName::Step,
            EventName::Tick,
            EventName::Break,
            EventName::Dial,
            EventName::Connect,
            EventName::Accept,
            EventName::Restart,
            EventName::Show,
            EventName::Got,
        ]
    }

    /// The first of these that a word is.
    fn among(names: &[EventName], word: &[u8]) -> Option<EventName>
        ensures { result ≡ find (is_named word.now) names.now }
    {
        names.iter().copied().find(|name| name.is(word))
    }

    /// Whether a word is this one.
    fn is(self, word: &[u8]) -> bool
        ensures { result ≡ is_named word.now self }
    {
        self.text() == word
    }

    /// The word.
    fn text(self) -> &'static [u8]
        ensures { result.now ≡ text_of self }
    {
        match self {
            EventName::Start => b"start",
            EventName::Replica => b"replica",
            EventName::Client => b"client",
            EventName::Send => b"send",
            EventName::Raw => b"raw",
            EventName::Deliver => b"deliver",
            EventName::Step => b"step",
            EventName::Tick => b"tick",
            EventName::Break => b"break",
            EventName::Dial => b"dial",
            EventName::Connect => b"connect",
            EventName::Accept => b"accept",
            EventName::Restart => b"restart",
            EventName::Show => b"show",
            EventName::Got => b"got",
        }
    }
}
