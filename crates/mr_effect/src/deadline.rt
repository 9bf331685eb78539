// The moments at which keys may expire.
ghost use Rattle.std.specs.Prelude.{◌≡◌};
ghost use Rattle.mr_effect.specs.Effects.{is_deadline};

/// The last moment that may be a deadline, in milliseconds.
pub const LAST_DEADLINE: i64 = 1 << 62;

/// Whether a number is a deadline: a moment at which a key may expire, in milliseconds, from 1 to the last one.
pub fn is_deadline(number: i64) -> bool
    ensures { result ≡ is_deadline number }
{
    (1..=LAST_DEADLINE).contains(&number)
}
