// SMOVE: a member goes from one set into another.
ghost use Rattle.std.specs.Prelude.{◌≡◌, IfOk, option_copied};
ghost use Rattle.std.specs.FinMap.{get};
ghost use Rattle.std.specs.Str.{bytes_eq};
ghost use Rattle.mr_resp.specs.ReplyView.{view};
ghost use Rattle.mr_keyspace.specs.Dataset.{Dataset as Map};
ghost use Rattle.mr_cmd_set.specs.Moving.{smove, Gives};

use crate::finding::set_at;
use mr_arguments::Argument;
use mr_bytes::Word;
use mr_cmd_shared::{Effects, count, wrong_kind};
use mr_data::{Effect, Entry};
use mr_resp::Reply;
use mr_value::SetValue;
use std::alloc::AllocError;

/// A member that is to go from the set at one key into the set at another.
#[derive(Drop)]
pub struct Move<'w, 'a> {
    pub from: &'w Argument<'a>,
    pub to: &'w Argument<'a>,
    pub member: &'w Argument<'a>,
}

/// The answer, from the live entries at the source and at the target.
pub fn moved(
    asked: &Move<'_, '_>,
    source: Option<&Entry>,
    target: Option<&Entry>,
    effects: &mut Effects,
) -> Result<Reply, AllocError>
    ensures { IfOk result (λ r. (m : Map) → get m asked.now.from.now ≡ option_copied source.entry →
        get m asked.now.to.now ≡ option_copied target.entry →
        Gives (smove asked.now.from.now asked.now.to.now asked.now.member.now m) (view r)
        effects.old effects.new) }
{
    let alloc = effects.alloc();
    if source.is_none() {
        return Ok(count(0));
    }
    let empty = SetValue::new(alloc);
    let Some(set) = set_at(source, &empty) else {
        return Ok(wrong_kind());
    };
    if set_at(target, &empty).is_none() {
        return Ok(wrong_kind());
    }
    if !set.contains(asked.member.as_slice()) {
        return Ok(count(0));
    }
    if !same(asked.from, asked.to) {
        effects.push(Effect::MoveMember {
            from: Word::copied(alloc, asked.from.as_slice())?,
            to: Word::copied(alloc, asked.to.as_slice())?,
            member: Word::copied(alloc, asked.member.as_slice())?,
        })?;
    }
    Ok(count(1))
}

/// Whether two keys are one.
pub fn same(from: &Argument<'_>, to: &Argument<'_>) -> bool
    ensures { result ≡ bytes_eq from.now to.now }
{
    from.as_slice() == to.as_slice()
}
