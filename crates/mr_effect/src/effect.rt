// What a write does.
ghost use Rattle.std.specs.Prelude.{◌≡◌};
ghost use Rattle.mr_bytes.specs.Number.{is_i64};
ghost use Rattle.mr_effect.specs.Effects.{words_fit, has_spelling};

use crate::deadline::is_deadline;
use crate::words::{EffectPairs, EffectWords, Scores};
use mr_bytes::{End, Side, Word, fits};

/// What a write does to a dataset, free of clock and chance.
#[derive(Drop)]
pub enum Effect<'a> {
    /// The key holds this text, whatever it held, and has no deadline.
    Set {
        key: Word<'a>,
        value: Word<'a>,
    },
    /// The key holds this text, whatever it held, and is expired from this moment on, in milliseconds.
    SetUntil {
        key: Word<'a>,
        value: Word<'a>,
        deadline: i64,
    },
    /// The key holds this text, whatever it held, and its deadline stays.
    SetKeeping {
        key: Word<'a>,
        value: Word<'a>,
    },
    /// Keys get these texts, one after another, as `Set` does it.
    MSet {
        pairs: EffectPairs<'a>,
    },
    /// A text is put behind a key's text. A key that isn't there has an empty one.
    Append {
        key: Word<'a>,
        value: Word<'a>,
    },
    /// A text takes the place of the bytes of a key's text from an offset on, after zero bytes where that is too
    /// short. An empty text changes nothing.
    SetRange {
        key: Word<'a>,
        offset: i64,
        value: Word<'a>,
    },
    /// A key's number becomes greater by this much. A key that isn't there has 0.
    Increase {
        key: Word<'a>,
        by: i64,
    },
    /// The key goes. One that isn't there is left alone.
    Del {
        key: Word<'a>,
    },
    /// The key is expired from this moment on, in milliseconds.
    Expire {
        key: Word<'a>,
        deadline: i64,
    },
    /// The key's deadline is taken off.
    Persist {
        key: Word<'a>,
    },
    /// What the one key holds goes to the other, with its deadline, whatever that held.
    Rename {
        from: Word<'a>,
        to: Word<'a>,
    },
    /// Every key goes.
    Clear,
    /// Nothing changes. It keeps a link to a replica alive.
    Ping,
    /// Fields of a hash get these values, one after another.
    SetFields {
        key: Word<'a>,
        pairs: EffectPairs<'a>,
    },
    /// Fields of a hash go. One that isn't there is left alone.
    RemoveFields {
        key: Word<'a>,
        fields: EffectWords<'a>,
    },
    /// Items are put at an end of a list, one after another.
    Push {
        key: Word<'a>,
        end: End,
        items: EffectWords<'a>,
    },
    /// So many items are taken from an end of a list.
    Pop {
        key: Word<'a>,
        end: End,
        count: i64,
    },
    /// The item at a place, counted from the front, becomes another.
    SetItem {
        key: Word<'a>,
        place: i64,
        item: Word<'a>,
    },
    /// An item is put beside the first pivot.
    InsertItem {
        key: Word<'a>,
        side: Side,
        pivot: Word<'a>,
        item: Word<'a>,
    },
    /// Items that equal this one go: the first ones for a count above 0, the last ones below, all for 0.
    RemoveItems {
        key: Word<'a>,
        count: i64,
        item: Word<'a>,
    },
    /// A list keeps the items from the first place to the last, both included.
    Trim {
        key: Word<'a>,
        first: i64,
        last: i64,
    },
    /// An item is taken from an end of one list and put at an end of another, or of the same.
    MoveItem {
        from: Word<'a>,
        to: Word<'a>,
        taken: End,
        put: End,
    },
    /// Members come into a set.
    AddMembers {
        key: Word<'a>,
        members: EffectWords<'a>,
    },
    /// Members go from a set.
    RemoveMembers {
        key: Word<'a>,
        members: EffectWords<'a>,
    },
    /// A member goes from one set into another, or into the same.
    MoveMember {
        from: Word<'a>,
        to: Word<'a>,
        member: Word<'a>,
    },
    /// Members of a sorted set get these scores, one after another.
    SetScores {
        key: Word<'a>,
        scores: Scores<'a>,
    },
    /// Members go from a sorted set. One that isn't there is left alone.
    RemoveScores {
        key: Word<'a>,
        members: EffectWords<'a>,
    },
}

impl Effect<'_> {
    /// Whether each of its words is within the limit.
    pub fn fits(&self) -> bool
        ensures { result ≡ words_fit self.now }
    {
        match self {
            Effect::Set { key, value } => fits(key.as_slice()) && fits(value.as_slice()),
            Effect::SetUntil { key, value, .. } => fits(key.as_slice()) && fits(value.as_slice()),
            Effect::SetKeeping { key, value } => fits(key.as_slice()) && fits(value.as_slice()),
            Effect::MSet { pairs } => pairs.fit(),
            Effect::Append { key, value } => fits(key.as_slice()) && fits(value.as_slice()),
            Effect::SetRange {
                key,
                offset: _,
                value,
            } => { fits(key.as_slice()) && fits(value.as_slice()) }
            Effect::Increase { key, .. } => fits(key.as_slice()),
            Effect::Del { key } => fits(key.as_slice()),
            Effect::Expire { key, .. } => fits(key.as_slice()),
            Effect::Persist { key } => fits(key.as_slice()),
            Effect::Rename { from, to } => fits(from.as_slice()) && fits(to.as_slice()),
            Effect::Clear => true,
            Effect::Ping => true,
            Effect::SetFields { key, pairs } => fits(key.as_slice()) && pairs.fit(),
            Effect::RemoveFields { key, fields } => fits(key.as_slice()) && fields.fit(),
            Effect::Push { key, end: _, items } => fits(key.as_slice()) && items.fit(),
            Effect::Pop { key, .. } => fits(key.as_slice()),
            Effect::SetItem {
                key,
                place: _,
                item,
            } => { fits(key.as_slice()) && fits(item.as_slice()) }
            Effect::InsertItem {
                key,
                side: _,
                pivot,
                item,
            } => fits(key.as_slice()) && fits(pivot.as_slice()) && fits(item.as_slice()),
            Effect::RemoveItems {
                key,
                count: _,
                item,
            } => { fits(key.as_slice()) && fits(item.as_slice()) }
            Effect::Trim { key, .. } => fits(key.as_slice()),
            Effect::MoveItem { from, to, .. } => fits(from.as_slice()) && fits(to.as_slice()),
            Effect::AddMembers { key, members } => fits(key.as_slice()) && members.fit(),
            Effect::RemoveMembers { key, members } => fits(key.as_slice()) && members.fit(),
            Effect::MoveMember { from, to, member } => {
                fits(from.as_slice()) && fits(to.as_slice()) && fits(member.as_slice())
            }
            Effect::SetScores { key, scores } => fits(key.as_slice()) && scores.fit(),
            Effect::RemoveScores { key, members } => fits(key.as_slice()) && members.fit(),
        }
    }

    /// Whether it has a spelling: lists aren't empty, no place or offset is below 0, and deadlines and scores are within
    /// their limits.
    pub fn has_spelling(&self) -> bool
        ensures { result ≡ has_spelling self.now }
    {
        match self {
            Effect::MSet { pairs } => !pairs.is_empty(),
            Effect::SetRange { offset, .. } => *offset >= 0,
            Effect::SetFields { pairs, .. } => !pairs.is_empty(),
            Effect::RemoveFields { fields, .. } => !fields.is_empty(),
            Effect::Push { items, .. } => !items.is_empty(),
            Effect::SetItem { place, .. } => *place >= 0,
            Effect::AddMembers { members, .. } => !members.is_empty(),
            Effect::RemoveMembers { members, .. } => !members.is_empty(),
            Effect::SetScores { scores, .. } => !scores.is_empty() && scores.are_within_limits(),
            Effect::RemoveScores { members, .. } => !members.is_empty(),
            Effect::SetUntil { deadline, .. } => is_deadline(*deadline),
            Effect::Expire { deadline, .. } => is_deadline(*deadline),
            Effect::Set { .. } => true,
            Effect::SetKeeping { .. } => true,
            Effect::Append { .. } => true,
            Effect::Increase { by, .. } => is_i64(*by),
            Effect::Del { .. } => true,
            Effect::Persist { .. } => true,
            Effect::Rename { .. } => true,
            Effect::Clear => true,
            Effect::Ping => true,
            Effect::Pop { count, .. } => is_i64(*count),
            Effect::InsertItem { .. } => true,
            Effect::RemoveItems { count, .. } => is_i64(*count),
            Effect::Trim { first, last, .. } => is_i64(*first) && is_i64(*last),
            Effect::MoveItem { .. } => true,
            Effect::MoveMember { .. } => true,
        }
    }
}

/// Whether a number is one of 64 bits with a sign, as one of this type always is.
fn is_i64(_number: i64) -> bool
    ensures { result ≡ is_i64 _number }
{
    true
}
