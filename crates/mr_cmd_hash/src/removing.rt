// Fields that go.
ghost use Rattle.std.specs.Prelude.{◌≡◌, ◌<◌, ◌^◌, [], ◌∷◌, ◌++◌, map, length, filter, IfOk, OnOk};
ghost use Rattle.std.specs.FinMap.{empty, keys, contains_key};
ghost use Rattle.mr_resp.specs.ReplyView.{view};
ghost use Rattle.mr_effect.specs.declared.effect.Effect.TheVariants as made;
ghost use Rattle.mr_keyspace.specs.Collections.{with_members};
ghost use Rattle.mr_keyspace.specs.Cuts.{cut};
ghost use Rattle.mr_cmd_hash.specs.Hashes.{hdel};
ghost use Rattle.mr_cmd_hash.specs.Commands.{Makes};

use crate::groups::{FieldGroup, end_fields};
use mr_arguments::{Argument, Words};
use mr_cmd_shared::{Effects, count};
use mr_map::SliceMap;
use mr_resp::Reply;
use mr_value::Hash;
use std::alloc::{AllocError, Global};

/// Each field that is named, once. They are not copied.
fn names<'a>(alloc: Global, fields: &Words<'a, '_>) -> Result<SliceMap<'a, ()>, AllocError>
    ensures { IfOk result (λ names. names ≡ with_members fields.now empty) }
{
    let mut names = SliceMap::new(alloc);
    for field in fields.as_slice() {
        names.insert(field.as_slice(), ())?;
    }
    Ok(names)
}

/// Puts the effects of fields that go, where they are there, and answers how many these are.
fn push_removed(
    key: &Argument<'_>,
    names: &SliceMap<'_, ()>,
    hash: &Hash,
    effects: &mut Effects,
) -> Result<usize, AllocError>
    ensures removed { IfOk result (λ removed.
        removed ≡ length (filter (contains_key hash.now) (keys names.now))) }
    ensures small { IfOk result (λ removed. removed < 2 ^ 63) }
    ensures effects { OnOk result (effects.new ≡
        effects.old ++
        map (made.RemoveFields key.now) (cut (filter (contains_key hash.now) (keys names.now)))) }
{
    let mut group = FieldGroup::new(effects.alloc(), key.as_slice());
    let mut removed = names.len();
    for (field, _) in names.iter() {
        let there = hash.contains(field);
        group.push(field, there, effects)?;
        removed -= usize::from(!there);
    }
    end_fields(group, effects)?;
    Ok(removed)
}

/// What `HDEL` of one field is answered, without putting fields in order. Its effect is put behind those that are
/// there.
fn remove_field(
    key: &Argument<'_>,
    field: &[u8],
    hash: &Hash,
    effects: &mut Effects,
) -> Result<Reply, AllocError>
    ensures { IfOk result (λ r.
        Makes (hdel key.now (field.now ∷ []) hash.now) (view r) effects.old effects.new) }
{
    let there = hash.contains(field);
    let mut group = FieldGroup::new(effects.alloc(), key.as_slice());
    group.push(field, there, effects)?;
    end_fields(group, effects)?;
    Ok(count(usize::from(there)))
}

/// `HDEL`
pub fn hdel(
    key: &Argument<'_>,
    fields: &Words<'_, '_>,
    hash: &Hash,
    effects: &mut Effects,
) -> Result<Reply, AllocError>
    ensures { IfOk result (λ r.
        Makes (hdel key.now fields.now hash.now) (view r) effects.old effects.new) }
{
    if let [field] = fields.as_slice() {
        return remove_field(key, field.as_slice(), hash, effects);
    }
    let names = names(effects.alloc(), fields)?;
    let removed = push_removed(key, &names, hash, effects)?;
    Ok(count(removed))
}
