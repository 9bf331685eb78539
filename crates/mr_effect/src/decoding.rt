// The effect that words spell.
ghost use Rattle.std.specs.Prelude.{◌≡◌, map, IfOk, IsTrue, OnErr};
ghost use Rattle.std.specs.Cow.{cow_slice_items};
ghost use Rattle.mr_effect.specs.Names.{holds_lists, names_lists};
ghost use Rattle.mr_effect.specs.Spelling.{Spells, FindsEach};
ghost use Rattle.mr_effect.specs.Reading.{reading, effect_of};

use crate::effect::Effect;
use crate::name::EffectName;
use crate::reading;
use mr_bytes::End;
use std::alloc::{AllocError, Global};
use std::borrow::CowSlice;

/// The effect of this name whose arguments these words are, if one is spelled so.
#[tactic(auto, unfolding(crate::specs::Reading::reading))]
fn read_as<'a>(
    alloc: Global,
    name: EffectName,
    words: &'a [CowSlice<'_, u8>],
) -> Result<Option<Effect<'a>>, AllocError>
    ensures found { IfOk result (λ found.
        found ≡ reading name (map cow_slice_items words.now)) }
    ensures refused { OnErr result (IsTrue (holds_lists name)) }
{
    match name {
        EffectName::Set => Ok(reading::set_of(words)),
        EffectName::MSet => reading::mset_of(alloc, words),
        EffectName::Append => Ok(reading::append_of(words)),
        EffectName::SetRange => Ok(reading::set_range_of(words)),
        EffectName::IncrBy => Ok(reading::increase_of(words)),
        EffectName::Del => Ok(reading::del_of(words)),
        EffectName::PExpireAt => Ok(reading::expire_of(words)),
        EffectName::Persist => Ok(reading::persist_of(words)),
        EffectName::Rename => Ok(reading::rename_of(words)),
        EffectName::FlushAll => Ok(reading::clear_of(words)),
        EffectName::Ping => Ok(reading::ping_of(words)),
        EffectName::HSet => reading::set_fields_of(alloc, words),
        EffectName::HDel => reading::remove_fields_of(alloc, words),
        EffectName::LPush => reading::push_of(alloc, End::Left, words),
        EffectName::RPush => reading::push_of(alloc, End::Right, words),
        EffectName::LPop => Ok(reading::pop_of(End::Left, words)),
        EffectName::RPop => Ok(reading::pop_of(End::Right, words)),
        EffectName::LSet => Ok(reading::set_item_of(words)),
        EffectName::LInsert => Ok(reading::insert_item_of(words)),
        EffectName::LRem => Ok(reading::remove_items_of(words)),
        EffectName::LTrim => Ok(reading::trim_of(words)),
        EffectName::LMove => Ok(reading::move_item_of(words)),
        EffectName::SAdd => reading::add_members_of(alloc, words),
        EffectName::SRem => reading::remove_members_of(alloc, words),
        EffectName::SMove => Ok(reading::move_member_of(words)),
        EffectName::ZAdd => reading::set_scores_of(alloc, words),
        EffectName::ZRem => reading::remove_scores_of(alloc, words),
    }
}

/// The effect that these words spell, if one does: its name and then its arguments.
#[tactic(auto, unfolding(crate::specs::Reading::effect_of))]
fn effect_of<'a>(
    alloc: Global,
    words: &'a [CowSlice<'_, u8>],
) -> Result<Option<Effect<'a>>, AllocError>
    ensures found { IfOk result (λ found. found ≡ effect_of (map cow_slice_items words.now)) }
    ensures refused { OnErr result (IsTrue (names_lists (map cow_slice_items words.now))) }
{
    let Some((word, arguments)) = words.split_first() else {
        return Ok(None);
    };
    let Some(name) = EffectName::of(word.as_slice()) else {
        return Ok(None);
    };
    read_as(alloc, name, arguments)
}

/// The effect that these words spell, if one does. Its words are borrowed from them: only the lists that some effects hold take
/// memory.
pub fn decode<'a>(
    alloc: Global,
    words: &'a [CowSlice<'_, u8>],
) -> Result<Option<Effect<'a>>, AllocError>
    ensures found { IfOk result (λ found. Spells (map cow_slice_items words.now) found) }
    ensures each { IfOk result (λ found. FindsEach (map cow_slice_items words.now) found) }
    ensures refused { OnErr result (IsTrue (names_lists (map cow_slice_items words.now))) }
{
    let found = effect_of(alloc, words)?;
    Ok(found)
}
