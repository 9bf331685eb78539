// The map by name, which a sorted set has once it is no longer small.
ghost use Rattle.std.specs.Prelude.{◌≡◌, IfSome, IsTrue, OnErr, OnOk, option_map};
ghost use Rattle.std.specs.FinMap as finite;
ghost use Rattle.mr_zset.specs.Few.{AreNamed, HasRoom};
ghost use Rattle.mr_zset.specs.Pairs.{without};

use crate::by_score::ByScore;
use mr_bytes::Bytes;
use mr_value::{ByName, CompactBytes};
use std::alloc::{AllocError, Global};

// A set of at most so many members is scanned: a look-up compares at most 16 of them, whose bytes lie side by side, and a walk over
// all passes 16 times 16. A map by name would nearly double the memory of a set so small.
const FEW: usize = 16;

/// Makes the map of a set that is to have one member more, where it has none and is too large then. Where memory runs out,
/// there is none still.
pub(crate) fn make_room(names: &mut Option<ByName<i64>>, scores: &ByScore) -> Result<(), AllocError>
    requires { AreNamed names.old scores.now }
    ensures ok { OnOk result (HasRoom names.new scores.now) }
    ensures err { OnErr result (names.new ≡ names.old) }
{
    if names.is_some() {
        return Ok(());
    }
    if scores.len() < FEW {
        return Ok(());
    }
    *names = Some(scores.names()?);
    Ok(())
}

/// Adds a member to the map, if there is one. Where memory runs out, all is as it was.
pub(crate) fn add_name(
    alloc: Global,
    names: &mut Option<ByName<i64>>,
    member: &[u8],
    score: i64,
) -> Result<(), AllocError>
    ensures ok { OnOk result (names.new ≡
        option_map (λ m. finite.insert m member.now score) names.old) }
    ensures err { OnErr result (names.new ≡ names.old) }
{
    if let Some(names) = names {
        let name = CompactBytes::copied(alloc, member)?;
        names.put(name, score)?;
    }
    Ok(())
}

/// Gives a member another score in the map, if there is one.
pub(crate) fn change_name(names: &mut Option<ByName<i64>>, name: CompactBytes, score: i64)
    requires { IfSome names.old (λ m. IsTrue (finite.contains_key m name)) }
    ensures { names.new ≡ option_map (λ m. finite.insert m name score) names.old }
{
    if let Some(names) = names {
        drop(names.replace(name, score));
    }
}

/// Takes a member out of the map, if there is one.
pub(crate) fn drop_name(names: &mut Option<ByName<i64>>, member: &[u8])
    ensures { names.new ≡ option_map (λ m. finite.remove m member.now) names.old }
{
    if let Some(names) = names {
        let _ = names.remove(member);
    }
}

/// Takes a member out of the map, if there is one, and answers its score, which is found by a scan where there is no map.
pub(crate) fn take_name(
    names: &mut Option<ByName<i64>>,
    scores: &ByScore,
    member: &[u8],
) -> Option<i64>
    requires { AreNamed names.old scores.now }
    ensures before { result ≡ finite.get scores.now member.now }
    ensures removed { names.new ≡ option_map (λ m. finite.remove m member.now) names.old }
{
    match names {
        Some(names) => names.remove(member),
        None => scores.score(member),
    }
}

/// Takes the member of a pair out of the map, if there are both.
pub(crate) fn drop_popped(names: &mut Option<ByName<i64>>, popped: &Option<(Bytes, i64)>)
    ensures { names.new ≡ option_map (without popped.now) names.old }
{
    if let Some((member, _)) = popped {
        drop_name(names, member.as_slice());
    }
}
