// The keys of a dataset that a command names, expired ones and others.
ghost use Rattle.std.specs.Prelude.{◌≡◌, ◌↔◌, [], ◌∷◌, ◌++◌, pos, length, true, None, IsTrue, IfOk, OnErr, option_copied};
ghost use Rattle.std.specs.FinMap as map;
ghost use Rattle.mr_data.specs.Dataset.{IsDataset, is_expired, live, seen};
ghost use Rattle.mr_cmd_shared.specs.Keys.{chosen, dels, is_stored, expired};

use crate::effects::Effects;
use crate::taken::Taken;
use mr_arguments::{Argument, Words};
use mr_bytes::Word;
use mr_data::{Dataset, Effect, Entry, Given};
use std::alloc::AllocError;

/// Whether an entry with this deadline is expired.
fn is_expired(now: i64, deadline: Option<i64>) -> bool
    ensures { result ≡ is_expired now deadline }
{
    match deadline {
        None => false,
        Some(deadline) => deadline <= now,
    }
}

/// The live entry at a key, and whether the key is expired. It takes no memory.
pub fn see<'d>(held: &'d Dataset, key: &[u8], given: Given) -> (Option<&'d Entry>, bool)
    ensures live_entry { option_copied result.0 ≡ live given.now (map.get held.now key.now) }
    ensures expired { result.1 ≡ is_stored given.now true (map.get held.now key.now) }
{
    match held.entry(key) {
        None => (None, false),
        Some(entry) if is_expired(given.now(), entry.deadline) => (None, true),
        Some(entry) => (Some(entry), false),
    }
}

/// The live entry at a key. An expired key gets its DEL, which alone takes memory. What the dataset keeps is known from here on.
pub fn look<'d>(
    held: &'d Dataset,
    key: &Argument<'_>,
    given: Given,
    effects: &mut Effects,
) -> Result<Option<&'d Entry>, AllocError>
    ensures live_entry { IfOk result (λ e.
        option_copied e ≡ live given.now (map.get held.now key.now)) }
    ensures expired { IfOk result (λ _.
        effects.new ≡ effects.old ++ dels (expired given.now (key.now ∷ []) held.now)) }
    ensures err { OnErr result (live given.now (map.get held.now key.now) ≡ None) }
    ensures kept { IsDataset held.now }
{
    let Some(entry) = held.entry(key.as_slice()) else {
        return Ok(None);
    };
    if !is_expired(given.now(), entry.deadline) {
        return Ok(Some(entry));
    }
    effects.push(Effect::Del {
        key: Word::copied(effects.alloc(), key.as_slice())?,
    })?;
    Ok(None)
}

/// Whether no key is expired, which the least deadline tells. Its time grows with the logarithm of how many keys have a
/// deadline. It takes no memory.
pub fn is_all_live(held: &Dataset, given: Given) -> bool
    ensures { IsTrue result ↔ (seen given.now held.now ≡ held.now) }
{
    held.due(given.now()).is_none()
}

/// Whether there is an entry, and it is expired as asked.
fn is_stored(now: i64, expired: bool, entry: Option<&Entry>) -> bool
    ensures { result ≡ is_stored now expired (option_copied entry.entry) }
{
    match entry {
        None => false,
        Some(entry) => is_expired(now, entry.deadline) == expired,
    }
}

/// Puts the DEL of one key, if it is there and expired as asked, and answers how many that makes. It takes no list of
/// the keys that were taken.
fn push_del(
    held: &Dataset,
    key: &[u8],
    given: Given,
    expired: bool,
    effects: &mut Effects,
) -> Result<i64, AllocError>
    ensures count { IfOk result (λ count.
        count ≡ pos (length (chosen (is_stored given.now expired) (key.now ∷ []) held.now))) }
    ensures dels { IfOk result (λ _.
        effects.new ≡
        effects.old ++ dels (chosen (is_stored given.now expired) (key.now ∷ []) held.now)) }
{
    if !is_stored(given.now(), expired, held.entry(key)) {
        return Ok(0);
    }
    effects.push(Effect::Del {
        key: Word::copied(effects.alloc(), key)?,
    })?;
    Ok(1)
}

/// A DEL for each of the keys that are stored and expired, or stored and not expired, and how many these are.
pub fn push_dels(
    held: &Dataset,
    keys: &Words<'_, '_>,
    given: Given,
    expired: bool,
    effects: &mut Effects,
) -> Result<i64, AllocError>
    ensures count { IfOk result (λ count.
        count ≡ pos (length (chosen (is_stored given.now expired) keys.now held.now))) }
    ensures dels { IfOk result (λ _.
        effects.new ≡
        effects.old ++ dels (chosen (is_stored given.now expired) keys.now held.now)) }
{
    // As it mostly is: no key is looked up then.
    if expired && is_all_live(held, given) {
        return Ok(0);
    }
    if let [only] = keys.as_slice() {
        return push_del(held, only.as_slice(), given, expired, effects);
    }
    let now = given.now();
    let alloc = effects.alloc();
    let mut taken = Taken::new(alloc);
    for word in keys.as_slice() {
        let key = word.as_slice();
        if is_stored(now, expired, held.entry(key)) && taken.take(key)? {
            effects.push(Effect::Del {
                key: Word::copied(alloc, key)?,
            })?;
        }
    }
    Ok(taken.len() as i64)
}
