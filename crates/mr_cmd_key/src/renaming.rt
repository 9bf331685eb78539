// What one key has goes to another.
ghost use Rattle.std.specs.Prelude.{◌≡◌, ◌∷◌, [], ◌++◌, IfOk, OnOk, option_copied};
ghost use Rattle.std.specs.FinMap.{get};
ghost use Rattle.std.specs.Str.{bytes_eq};
ghost use Rattle.mr_resp.specs.ReplyView.{view};
ghost use Rattle.mr_data.specs.Dataset.{live};
ghost use Rattle.mr_keyspace.specs.Dataset.{Dataset as Map};
ghost use Rattle.mr_cmd_shared.specs.Keys.{dels, expired};
ghost use Rattle.mr_cmd_shared.specs.Commands.{Plans, on_keys};
ghost use Rattle.mr_cmd_key.specs.Renaming.{Gives, carried_if, no_key, renamed, renamed_nx};

use mr_arguments::Argument;
use mr_bytes::Word;
use mr_cmd_shared::{Effects, count, done, look};
use mr_data::{Dataset, Effect, Entry, Given};
use mr_resp::Reply;
use std::alloc::AllocError;
use std::borrow::CowSlice;

/// `RENAME`
pub fn rename(
    held: &Dataset,
    from: &Argument<'_>,
    to: &Argument<'_>,
    given: Given,
    effects: &mut Effects,
) -> Result<Reply, AllocError>
    ensures { IfOk result (λ r.
        Plans (on_keys (from.now ∷ to.now ∷ []) (renamed from.now to.now)) given.now held.now
        (view r) effects.old effects.new) }
{
    let (source, _) = look_at_both(held, from, to, given, effects)?;
    carry(from, to, done(), source, effects)
}

/// `RENAMENX`
pub fn renamenx(
    held: &Dataset,
    from: &Argument<'_>,
    to: &Argument<'_>,
    given: Given,
    effects: &mut Effects,
) -> Result<Reply, AllocError>
    ensures { IfOk result (λ r.
        Plans (on_keys (from.now ∷ to.now ∷ []) (renamed_nx from.now to.now)) given.now held.now
        (view r) effects.old effects.new) }
{
    let (source, target) = look_at_both(held, from, to, given, effects)?;
    carry_new(from, to, source, target, effects)
}

/// The live entries at two keys, which may be one. The DELs of expired ones are put behind the effects that are there.
fn look_at_both<'d>(
    held: &'d Dataset,
    from: &Argument<'_>,
    to: &Argument<'_>,
    given: Given,
    effects: &mut Effects,
) -> Result<(Option<&'d Entry>, Option<&'d Entry>), AllocError>
    ensures source { IfOk result (λ r.
        option_copied r.0 ≡ live given.now (get held.now from.now)) }
    ensures target { IfOk result (λ r.
        option_copied r.1 ≡ live given.now (get held.now to.now)) }
    ensures expired { IfOk result (λ _.
        effects.new ≡
        effects.old ++ dels (expired given.now (from.now ∷ to.now ∷ []) held.now)) }
{
    let source = look(held, from, given, effects)?;
    let target = if same(from, to) {
        source
    } else {
        look(held, to, given, effects)?
    };
    Ok((source, target))
}

/// Lets what the one key has go to the other, and answers this, or the error that there is no such key.
fn carry(
    from: &Argument<'_>,
    to: &Argument<'_>,
    reply: Reply,
    source: Option<&Entry>,
    effects: &mut Effects,
) -> Result<Reply, AllocError>
    ensures { IfOk result (λ r. (m : Map) →
        Gives (carried_if from.now to.now (view reply) (option_copied source.entry) m) (view r)
        effects.old effects.new) }
{
    if source.is_none() {
        return Ok(no_key());
    }
    if !same(from, to) {
        let alloc = effects.alloc();
        effects.push(Effect::Rename {
            from: Word::copied(alloc, from.as_slice())?,
            to: Word::copied(alloc, to.as_slice())?,
        })?;
    }
    Ok(reply)
}

/// Lets what the one key has go to the other unless that is there, and answers whether it went, or the error that there
/// is no such key.
fn carry_new(
    from: &Argument<'_>,
    to: &Argument<'_>,
    source: Option<&Entry>,
    target: Option<&Entry>,
    effects: &mut Effects,
) -> Result<Reply, AllocError>
    ensures { IfOk result (λ r. (m : Map) → get m from.now ≡ option_copied source.entry →
        get m to.now ≡ option_copied target.entry →
        Gives (renamed_nx from.now to.now m) (view r) effects.old effects.new) }
{
    if source.is_some() && target.is_some() {
        return Ok(count(0));
    }
    carry(from, to, count(1), source, effects)
}

/// There is no such key.
fn no_key() -> Reply
    ensures { view result ≡ no_key }
{
    Reply::Error(CowSlice::Borrowed(b"ERR no such key"))
}

/// Whether two keys are one.
fn same(from: &Argument<'_>, to: &Argument<'_>) -> bool
    ensures { result ≡ bytes_eq from.now to.now }
{
    from.as_slice() == to.as_slice()
}
