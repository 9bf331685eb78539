// What memory was asked for in vain.
ghost use Rattle.std.specs.Prelude.{◌≡◌, Some};
ghost use Rattle.mr_loop.specs.Lacking.{asked_at, lacked_since, lost, no_lack, lacked_once, told_or_none, told_with};

use crate::followed::Place;

/// What memory was asked for, where a link was closed for want of it, or none came about.
#[derive(Clone, Copy, Debug, PartialEq, Eq)]
pub enum Asked {
    /// A link that a peer opened.
    Accept,
    /// The link to the master.
    Dial,
    /// Bytes that came: so many are unread on the link with them.
    Bytes(u64),
    /// A step where a client, or a replica, asks something: so many bytes are unread there.
    Request(u64),
    /// A step at the link to the master before its stream, as a copy is taken: so many bytes are unread there.
    Copy(u64),
    /// .. in its stream.
    Stream(u64),
}

/// How often memory ran out. Each count stays at 2^64 - 1.
#[derive(Clone, Copy, Debug, PartialEq, Eq)]
pub struct Lacked {
    /// How often it did, whether a link was closed for it or not.
    pub times: u64,
    /// How many links were closed for it, or didn't come about.
    pub links: u64,
    /// What was asked for as the last of these was.
    pub last: Option<Asked>,
}

impl Lacked {
    /// Memory never ran out.
    pub(crate) fn none() -> Lacked
        ensures { result ≡ no_lack }
    {
        Lacked {
            times: 0,
            links: 0,
            last: None,
        }
    }

    /// It ran out once more, and no link is closed for it.
    pub(crate) fn count(&mut self)
        ensures { self.new ≡ lacked_once self.old }
    {
        self.times = self.times.saturating_add(1);
    }

    /// It ran out once more, as this was asked for, and a link is closed for it.
    pub(crate) fn count_link(&mut self, asked: Asked)
        ensures { self.new ≡ lost asked self.old }
    {
        self.count();
        self.links = self.links.saturating_add(1);
        self.last = Some(asked);
    }

    /// What came since it stood at `before`.
    pub(crate) fn since(self, before: Lacked) -> Lacked
        ensures { result ≡ lacked_since before self }
    {
        let links = self.links.saturating_sub(before.links);
        Lacked {
            times: self.times.saturating_sub(before.times),
            links,
            last: if links == 0 { None } else { self.last },
        }
    }
}

/// What a step asks memory for that is made there, where so many bytes are unread.
pub(crate) fn asked_at(place: Place, unread: u64) -> Asked
    ensures { result ≡ asked_at place unread }
{
    match place {
        Place::Elsewhere => Asked::Request(unread),
        Place::BeforeStream => Asked::Copy(unread),
        Place::InStream => Asked::Stream(unread),
    }
}

/// So many bytes as are unread, if the node tells.
pub(crate) fn told_or_none(unread: Option<usize>) -> u64
    ensures { result ≡ told_or_none unread }
{
    match unread {
        Some(count) => count as u64,
        None => 0,
    }
}

/// .. with so many more.
pub(crate) fn told_with(unread: Option<usize>, more: usize) -> u64
    ensures { result ≡ told_with unread more }
{
    told_or_none(unread).saturating_add(more as u64)
}
