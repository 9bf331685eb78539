// The outs of a step, one after another.
ghost use Rattle.std.specs.Prelude.{◌≡◌};
ghost use Rattle.std.specs.Iterator.{YieldsFirstBy, item_count};
ghost use Rattle.mr_node_output.specs.Outs.{outs_of};
ghost use Rattle.mr_node_output.specs.Listing.{out_view};

use crate::address::Address;
use crate::outs::Outs;
use mr_links::LinkId;
use mr_repl::ReplId;
use std::marker::Model;

/// One thing that a step gives out, as a view of its `Outs`.
#[derive(Clone, Copy)]
pub enum Out<'a> {
    /// A master's stream grew by these texts of effects.
    Grow(&'a [u8]),
    /// These go behind the append-only file.
    Append(&'a [u8]),
    /// The append-only file is replaced by these bytes.
    Replace(&'a [u8]),
    /// These bytes are sent on the link.
    Send(LinkId, &'a [u8]),
    /// The node closed the link.
    Close(LinkId),
    /// The node took the fresh id.
    Used(ReplId),
    /// The node follows this one from now on.
    Follow(&'a Address),
    /// A client asked that the program end.
    Halt,
}

/// Which out may come next.
#[derive(Clone, Copy)]
enum Place {
    Grow,
    Append,
    Replace,
    Feed,
    Send,
    Closing,
    Close,
    Used,
    Follow,
    Halt,
    End,
}

/// The outs that are still to come, seen as a list.
#[derive(Drop)]
pub struct OutsIter<'a> {
    outs: &'a Outs,
    place: Place,
    /// The links that are still to be fed, or closed, at this place.
    links: &'a [LinkId],
}

impl<'a> Model for OutsIter<'a> {
    ghost use Rattle.std.specs.Prelude.{List};
    ghost use Rattle.mr_node_output.specs.Outs.{OutState};

    ghost Value = { List OutState };

    ghost use Rattle.mr_node_output.specs.Listing.{outs_from};

    ghost view = { λ a. outs_from a.place a.links.now a.outs.now };
}

impl<'a> OutsIter<'a> {
    /// All outs of a step.
    pub(crate) fn new(outs: &'a Outs) -> OutsIter<'a>
        ensures { result ≡ outs_of outs.now }
    {
        OutsIter {
            outs,
            place: Place::Grow,
            links: &[],
        }
    }
}

impl<'a> Iterator for OutsIter<'a> {
    type Item = Out<'a>;

    ghost next_gives = { YieldsFirstBy out_view (λ s. s) };

    ghost remaining = { item_count (λ s. s) };

    fn next(&mut self) -> Option<Out<'a>> {
        let outs = self.outs;
        if let Place::Grow = self.place {
            self.place = Place::Append;
            if !outs.grown().is_empty() {
                return Some(Out::Grow(outs.grown()));
            }
        }
        if let Place::Append = self.place {
            self.place = Place::Replace;
            if !outs.appended().is_empty() {
                return Some(Out::Append(outs.appended()));
            }
        }
        if let Place::Replace = self.place {
            self.place = Place::Feed;
            self.links = outs.fed();
            if let Some(bytes) = outs.replaced() {
                return Some(Out::Replace(bytes));
            }
        }
        if let Place::Feed = self.place {
            if let Some((link, later)) = self.links.split_first() {
                self.links = later;
                return Some(Out::Send(*link, outs.grown()));
            }
            self.place = Place::Send;
        }
        if let Place::Send = self.place {
            self.place = Place::Closing;
            if let Some(link) = outs.link()
                && !outs.reply().is_empty()
            {
                return Some(Out::Send(link, outs.reply()));
            }
        }
        if let Place::Closing = self.place {
            self.place = Place::Close;
            self.links = outs.closed();
            if let Some(link) = outs.link()
                && outs.closes()
            {
                return Some(Out::Close(link));
            }
        }
        if let Place::Close = self.place {
            if let Some((link, later)) = self.links.split_first() {
                self.links = later;
                return Some(Out::Close(*link));
            }
            self.place = Place::Used;
        }
        if let Place::Used = self.place {
            self.place = Place::Follow;
            if let Some(id) = outs.used() {
                return Some(Out::Used(id));
            }
        }
        if let Place::Follow = self.place {
            self.place = Place::Halt;
            if let Some(address) = outs.follows() {
                return Some(Out::Follow(address));
            }
        }
        if let Place::Halt = self.place {
            self.place = Place::End;
            if outs.halts() {
                return Some(Out::Halt);
            }
        }
        None
    }
}
