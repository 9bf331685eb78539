// The text of an effect.
ghost use Rattle.std.specs.Prelude.{◌≡◌, ◌++◌, ◌∷◌, [], codes, OnOk, OnErr};
ghost use Rattle.std.specs.List.{flat_map};
ghost use Rattle.std.specs.Fmt.{signed_decimal};
ghost use Rattle.mr_resp.specs.Appends.{Extends};
ghost use Rattle.mr_resp.specs.Spelling.{array, bulk};
ghost use Rattle.mr_effect.specs.Names.{text_of};
ghost use Rattle.mr_effect.specs.Parts.{head};
ghost use Rattle.mr_effect.specs.Spelling.{text, texts, push_name, pop_name, end_word, side_word, pair_words, score_words};

use crate::effect::Effect;
use crate::name::EffectName;
use crate::words::{EffectPairs, EffectWords, Scores};
use itoa::Buffer;
use mr_bytes::{End, Side, Word};
use mr_resp::{push_request, push_word, push_word_count};
use std::alloc::AllocError;

/// The name of an effect that puts items at this end of a list.
fn push_name(end: End) -> EffectName
    ensures { result ≡ push_name end }
{
    match end {
        End::Left => EffectName::LPush,
        End::Right => EffectName::RPush,
    }
}

/// The name of an effect that takes items from this end of a list.
fn pop_name(end: End) -> EffectName
    ensures { result ≡ pop_name end }
{
    match end {
        End::Left => EffectName::LPop,
        End::Right => EffectName::RPop,
    }
}

/// The word for an end of a list.
fn end_word(end: End) -> &'static [u8]
    ensures { result.now ≡ end_word end }
{
    match end {
        End::Left => b"LEFT",
        End::Right => b"RIGHT",
    }
}

/// The word for a side of a pivot.
fn side_word(side: Side) -> &'static [u8]
    ensures { result.now ≡ side_word side }
{
    match side {
        Side::Before => b"BEFORE",
        Side::After => b"AFTER",
    }
}

/// Appends the beginning of a request: a name and a key, to which so many words more are to come. What was there stays
/// in front, also after an `Err`.
#[tactic(auto, using(crate::proofs::Appending::steps), unfolding(crate::specs::Parts::head))]
fn push_head(
    name: EffectName,
    key: &Word<'_>,
    more: usize,
    out: &mut Vec<u8>,
) -> Result<(), AllocError>
    ensures ok { OnOk result (out.new.items ≡ out.old.items ++ head (text_of name) key.now more) }
    ensures kept { Extends out.old.items out.new.items }
{
    let count = more.checked_add(2).ok_or(AllocError)?;
    push_word_count(out, count)?;
    push_word(out, name.text())?;
    push_word(out, key.as_slice())
}

/// Appends a request: a name, a key and words. What was there stays in front, also after an `Err`.
#[tactic(auto, using(crate::proofs::Appending::steps))]
fn push_words(
    name: EffectName,
    key: &Word<'_>,
    words: &EffectWords<'_>,
    out: &mut Vec<u8>,
) -> Result<(), AllocError>
    ensures ok { OnOk result (out.new.items ≡
        out.old.items ++ array (text_of name ∷ key.now ∷ words.now)) }
    ensures kept { Extends out.old.items out.new.items }
{
    push_head(name, key, words.len(), out)?;
    for word in words.as_slice() {
        push_word(out, word.as_slice())?;
    }
    Ok(())
}

/// Appends a key or field as a word, and its value behind it. What was there stays in front, also after an `Err`.
#[tactic(auto, using(crate::proofs::Appending::steps))]
fn push_pair(pair: &(Word<'_>, Word<'_>), out: &mut Vec<u8>) -> Result<(), AllocError>
    ensures ok { OnOk result (out.new.items ≡
        out.old.items ++ flat_map bulk (pair_words pair.now)) }
    ensures kept { Extends out.old.items out.new.items }
{
    push_word(out, pair.0.as_slice())?;
    push_word(out, pair.1.as_slice())
}

/// Appends each key or field as a word, with its value behind it. What was there stays in front, also after an `Err`.
#[tactic(auto, using(crate::proofs::Appending::steps))]
fn push_each_pair(pairs: &EffectPairs<'_>, out: &mut Vec<u8>) -> Result<(), AllocError>
    ensures ok { OnOk result (out.new.items ≡
        out.old.items ++ flat_map bulk (flat_map pair_words pairs.now)) }
    ensures kept { Extends out.old.items out.new.items }
{
    for pair in pairs.as_slice() {
        push_pair(pair, out)?;
    }
    Ok(())
}

/// Appends a request: MSET, and keys each with its value behind it. What was there stays in front, also after an `Err`.
#[tactic(auto, using(crate::proofs::Appending::steps))]
fn push_keys(pairs: &EffectPairs<'_>, out: &mut Vec<u8>) -> Result<(), AllocError>
    ensures ok { OnOk result (out.new.items ≡
        out.old.items ++ array (text_of EffectName.MSet ∷ flat_map pair_words pairs.now)) }
    ensures kept { Extends out.old.items out.new.items }
{
    push_word_count(out, 2 * pairs.len() + 1)?;
    push_word(out, EffectName::MSet.text())?;
    push_each_pair(pairs, out)?;
    Ok(())
}

/// Appends a request: HSET, a key, and fields each with its value behind it. What was there stays in front, also after
/// an `Err`.
#[tactic(auto, using(crate::proofs::Appending::steps))]
fn push_fields(key: &Word<'_>, pairs: &EffectPairs<'_>, out: &mut Vec<u8>) -> Result<(), AllocError>
    ensures ok { OnOk result (out.new.items ≡
        out.old.items ++
        array (text_of EffectName.HSet ∷ key.now ∷ flat_map pair_words pairs.now)) }
    ensures kept { Extends out.old.items out.new.items }
{
    push_head(EffectName::HSet, key, 2 * pairs.len(), out)?;
    push_each_pair(pairs, out)?;
    Ok(())
}

/// Appends a score as a word, and its member behind it. What was there stays in front, also after an `Err`.
#[tactic(auto, using(crate::proofs::Appending::steps))]
fn push_score(score: i64, member: &Word<'_>, out: &mut Vec<u8>) -> Result<(), AllocError>
    ensures ok { OnOk result (out.new.items ≡
        out.old.items ++ flat_map bulk (score_words (member.now, score))) }
    ensures kept { Extends out.old.items out.new.items }
{
    let mut buffer = Buffer::new();
    push_word(out, buffer.format(score).as_bytes())?;
    push_word(out, member.as_slice())
}

/// Appends each score as a word, with its member behind it. What was there stays in front, also after an `Err`.
#[tactic(auto, using(crate::proofs::Appending::steps))]
fn push_each_score(scores: &Scores<'_>, out: &mut Vec<u8>) -> Result<(), AllocError>
    ensures ok { OnOk result (out.new.items ≡
        out.old.items ++ flat_map bulk (flat_map score_words scores.now)) }
    ensures kept { Extends out.old.items out.new.items }
{
    for pair in scores.as_slice() {
        push_score(pair.1, &pair.0, out)?;
    }
    Ok(())
}

/// Appends a request: ZADD, a key, and scores each with its member behind it. What was there stays in front, also after
/// an `Err`.
#[tactic(auto, using(crate::proofs::Appending::steps))]
fn push_scores(key: &Word<'_>, scores: &Scores<'_>, out: &mut Vec<u8>) -> Result<(), AllocError>
    ensures ok { OnOk result (out.new.items ≡
        out.old.items ++
        array (text_of EffectName.ZAdd ∷ key.now ∷ flat_map score_words scores.now)) }
    ensures kept { Extends out.old.items out.new.items }
{
    push_head(EffectName::ZAdd, key, 2 * scores.len(), out)?;
    push_each_score(scores, out)?;
    Ok(())
}

/// Appends a request of one word. (The words of an array must stand at one lifetime.) What was there stays in front,
/// also after an `Err`.
fn push_one(first: &[u8], out: &mut Vec<u8>) -> Result<(), AllocError>
    ensures ok { OnOk result (out.new.items ≡ out.old.items ++ array (first.now ∷ [])) }
    ensures kept { Extends out.old.items out.new.items }
{
    push_request(&[first], out)
}

/// Appends a request of two words. What was there stays in front, also after an `Err`.
fn push_two<'x>(first: &'x [u8], second: &'x [u8], out: &mut Vec<u8>) -> Result<(), AllocError>
    ensures ok { OnOk result (out.new.items ≡
        out.old.items ++ array (first.now ∷ second.now ∷ [])) }
    ensures kept { Extends out.old.items out.new.items }
{
    push_request(&[first, second], out)
}

/// Appends a request of three words. What was there stays in front, also after an `Err`.
fn push_three<'x>(
    first: &'x [u8],
    second: &'x [u8],
    third: &'x [u8],
    out: &mut Vec<u8>,
) -> Result<(), AllocError>
    ensures ok { OnOk result (out.new.items ≡
        out.old.items ++ array (first.now ∷ second.now ∷ third.now ∷ [])) }
    ensures kept { Extends out.old.items out.new.items }
{
    push_request(&[first, second, third], out)
}

/// Appends a request of four words. What was there stays in front, also after an `Err`.
fn push_four<'x>(
    first: &'x [u8],
    second: &'x [u8],
    third: &'x [u8],
    fourth: &'x [u8],
    out: &mut Vec<u8>,
) -> Result<(), AllocError>
    ensures ok { OnOk result (out.new.items ≡
        out.old.items ++ array (first.now ∷ second.now ∷ third.now ∷ fourth.now ∷ [])) }
    ensures kept { Extends out.old.items out.new.items }
{
    push_request(&[first, second, third, fourth], out)
}

/// Appends a request of five words. What was there stays in front, also after an `Err`.
fn push_five<'x>(
    first: &'x [u8],
    second: &'x [u8],
    third: &'x [u8],
    fourth: &'x [u8],
    fifth: &'x [u8],
    out: &mut Vec<u8>,
) -> Result<(), AllocError>
    ensures ok { OnOk result (out.new.items ≡
        out.old.items ++
        array (first.now ∷ second.now ∷ third.now ∷ fourth.now ∷ fifth.now ∷ [])) }
    ensures kept { Extends out.old.items out.new.items }
{
    push_request(&[first, second, third, fourth, fifth], out)
}

/// Appends a request: LTRIM, a key, a first and a last place. What was there stays in front, also after an `Err`.
fn push_range(key: &Word<'_>, first: i64, last: i64, out: &mut Vec<u8>) -> Result<(), AllocError>
    ensures ok { OnOk result (out.new.items ≡
        out.old.items ++
        array (text_of EffectName.LTrim ∷ key.now ∷ signed_decimal first ∷
        signed_decimal last ∷ [])) }
    ensures kept { Extends out.old.items out.new.items }
{
    let mut from = Buffer::new();
    let mut to = Buffer::new();
    push_four(
        EffectName::LTrim.text(),
        key.as_slice(),
        from.format(first).as_bytes(),
        to.format(last).as_bytes(),
        out,
    )
}

/// Appends a request: SET, a key, a value, PXAT and a deadline in milliseconds. What was there stays in front, also
/// after an `Err`.
fn push_until(
    key: &Word<'_>,
    value: &Word<'_>,
    deadline: i64,
    out: &mut Vec<u8>,
) -> Result<(), AllocError>
    ensures ok { OnOk result (out.new.items ≡
        out.old.items ++
        array (text_of EffectName.Set ∷ key.now ∷ value.now ∷ codes "PXAT" ∷
        signed_decimal deadline ∷ [])) }
    ensures kept { Extends out.old.items out.new.items }
{
    let mut buffer = Buffer::new();
    push_five(
        EffectName::Set.text(),
        key.as_slice(),
        value.as_slice(),
        b"PXAT",
        buffer.format(deadline).as_bytes(),
        out,
    )
}

/// Appends a request: a name, a key and a number. What was there stays in front, also after an `Err`.
fn push_number(
    name: EffectName,
    key: &Word<'_>,
    number: i64,
    out: &mut Vec<u8>,
) -> Result<(), AllocError>
    ensures ok { OnOk result (out.new.items ≡
        out.old.items ++ array (text_of name ∷ key.now ∷ signed_decimal number ∷ [])) }
    ensures kept { Extends out.old.items out.new.items }
{
    let mut buffer = Buffer::new();
    push_three(
        name.text(),
        key.as_slice(),
        buffer.format(number).as_bytes(),
        out,
    )
}

/// Appends a request: a name, a key, a number and an item. What was there stays in front, also after an `Err`.
fn push_numbered(
    name: EffectName,
    key: &Word<'_>,
    number: i64,
    item: &Word<'_>,
    out: &mut Vec<u8>,
) -> Result<(), AllocError>
    ensures ok { OnOk result (out.new.items ≡
        out.old.items ++
        array (text_of name ∷ key.now ∷ signed_decimal number ∷ item.now ∷ [])) }
    ensures kept { Extends out.old.items out.new.items }
{
    let mut buffer = Buffer::new();
    push_four(
        name.text(),
        key.as_slice(),
        buffer.format(number).as_bytes(),
        item.as_slice(),
        out,
    )
}

/// Appends the text of an effect. What was there stays in front, also after an `Err`.
#[tactic(auto, unfolding(crate::specs::Spelling::words))]
fn push_effect(effect: &Effect<'_>, out: &mut Vec<u8>) -> Result<(), AllocError>
    ensures ok { OnOk result (out.new.items ≡ out.old.items ++ text effect.now) }
    ensures kept { Extends out.old.items out.new.items }
{
    match effect {
        Effect::Set { key, value } => push_three(b"SET", key.as_slice(), value.as_slice(), out),
        Effect::SetUntil {
            key,
            value,
            deadline,
        } => push_until(key, value, *deadline, out),
        Effect::SetKeeping { key, value } => push_four(
            b"SET",
            key.as_slice(),
            value.as_slice(),
            b"KEEPTTL",
            out,
        ),
        Effect::MSet { pairs } => push_keys(pairs, out),
        Effect::Append { key, value } => {
            push_three(b"APPEND", key.as_slice(), value.as_slice(), out)
        }
        Effect::SetRange { key, offset, value } => {
            push_numbered(EffectName::SetRange, key, *offset, value, out)
        }
        Effect::Increase { key, by } => push_number(EffectName::IncrBy, key, *by, out),
        Effect::Del { key } => push_two(b"DEL", key.as_slice(), out),
        Effect::Expire { key, deadline } => push_number(EffectName::PExpireAt, key, *deadline, out),
        Effect::Persist { key } => push_two(b"PERSIST", key.as_slice(), out),
        Effect::Rename { from, to } => push_three(b"RENAME", from.as_slice(), to.as_slice(), out),
        Effect::Clear => push_one(b"FLUSHALL", out),
        Effect::Ping => push_one(b"PING", out),
        Effect::SetFields { key, pairs } => push_fields(key, pairs, out),
        Effect::RemoveFields { key, fields } => push_words(EffectName::HDel, key, fields, out),
        Effect::Push { key, end, items } => push_words(push_name(*end), key, items, out),
        Effect::Pop { key, end, count } => push_number(pop_name(*end), key, *count, out),
        Effect::SetItem { key, place, item } => {
            push_numbered(EffectName::LSet, key, *place, item, out)
        }
        Effect::InsertItem {
            key,
            side,
            pivot,
            item,
        } => push_five(
            b"LINSERT",
            key.as_slice(),
            side_word(*side),
            pivot.as_slice(),
            item.as_slice(),
            out,
        ),
        Effect::RemoveItems { key, count, item } => {
            push_numbered(EffectName::LRem, key, *count, item, out)
        }
        Effect::Trim { key, first, last } => push_range(key, *first, *last, out),
        Effect::MoveItem {
            from,
            to,
            taken,
            put,
        } => push_five(
            b"LMOVE",
            from.as_slice(),
            to.as_slice(),
            end_word(*taken),
            end_word(*put),
            out,
        ),
        Effect::AddMembers { key, members } => push_words(EffectName::SAdd, key, members, out),
        Effect::RemoveMembers { key, members } => push_words(EffectName::SRem, key, members, out),
        Effect::MoveMember { from, to, member } => push_four(
            b"SMOVE",
            from.as_slice(),
            to.as_slice(),
            member.as_slice(),
            out,
        ),
        Effect::SetScores { key, scores } => push_scores(key, scores, out),
        Effect::RemoveScores { key, members } => push_words(EffectName::ZRem, key, members, out),
    }
}

/// Appends the text of an effect. An `Err` changes nothing.
#[tactic(auto, using(mr_resp::proofs::AppendsLemmas::take_Extends))]
pub fn encode(effect: &Effect<'_>, out: &mut Vec<u8>) -> Result<(), AllocError>
    ensures ok { OnOk result (out.new.items ≡ out.old.items ++ text effect.now) }
    ensures err { OnErr result (out.new.items ≡ out.old.items) }
{
    let start = out.len();
    let written = push_effect(effect, out);
    if written.is_err() {
        out.truncate(start);
    }
    written
}

/// Appends the texts of effects, in order. An `Err` changes nothing.
pub fn encode_all(effects: &[Effect<'_>], out: &mut Vec<u8>) -> Result<(), AllocError>
    ensures ok { OnOk result (out.new.items ≡ out.old.items ++ texts effects.now) }
    ensures err { OnErr result (out.new.items ≡ out.old.items) }
{
    let start = out.len();
    for effect in effects {
        if let Err(e) = encode(effect, out) {
            out.truncate(start);
            return Err(e);
        }
    }
    Ok(())
}
