// What single arguments say.
ghost use Rattle.std.specs.Prelude.{◌≡◌};
ghost use Rattle.mr_arguments.specs.Parts.{not_below_1};
ghost use Rattle.mr_cmd_string.specs.Parts.{opposite, lifetime_if_any, milliseconds, seconds, set_expiry};
ghost use Rattle.mr_arguments.specs.Expiry.{within_limit};

use crate::options::LifetimeOption;
use crate::text_ask::Lifetime;
use mr_arguments::{
    AskFault, BadValue, ExpiringCommand, Expiry, ExpiryUnit, Milliseconds, Seconds, not_below_1,
    within_limit,
};
use mr_bytes::read_i64;

/// The opposite of a number that is to be taken away. Only the least number has none.
pub(crate) fn opposite(number: i64) -> Result<i64, AskFault>
    ensures { result ≡ opposite number }
{
    number
        .checked_neg()
        .ok_or(AskFault::Other(BadValue::Decrement))
}

/// The seconds of `SETEX`, from 1 on.
pub(crate) fn seconds(number: i64) -> Result<Seconds, AskFault>
    ensures { result ≡ seconds number }
{
    let otherwise = AskFault::ExpireTime(ExpiringCommand::SetEx);
    Seconds::new(not_below_1(otherwise, number)?).ok_or(otherwise)
}

/// The milliseconds of `PSETEX`, from 1 on.
pub(crate) fn milliseconds(number: i64) -> Result<Milliseconds, AskFault>
    ensures { result ≡ milliseconds number }
{
    let otherwise = AskFault::ExpireTime(ExpiringCommand::PSetEx);
    Milliseconds::new(not_below_1(otherwise, number)?).ok_or(otherwise)
}

/// How long a value stays, by the option of `SET` that says it.
pub(crate) fn lifetime_if_any(option: &Option<LifetimeOption<'_>>) -> Result<Lifetime, AskFault>
    ensures { result ≡ lifetime_if_any option.now }
{
    match option {
        None => Ok(Lifetime::Endless),
        Some(LifetimeOption::Kept) => Ok(Lifetime::Kept),
        Some(LifetimeOption::Until(unit, number)) => {
            Ok(Lifetime::Until(set_expiry(*unit, number.as_slice())?))
        }
    }
}

/// When a value expires, by the number behind an option of `SET`. It is a fault where that is no whole number, below 1,
/// or past the limit.
fn set_expiry(unit: ExpiryUnit, text: &[u8]) -> Result<Expiry, AskFault>
    ensures { result ≡ set_expiry unit text.now }
{
    let number = read_i64(text).ok_or(AskFault::Integer)?;
    let number = not_below_1(AskFault::ExpireTime(ExpiringCommand::Set), number)?;
    within_limit(ExpiringCommand::Set, unit, number)
}
