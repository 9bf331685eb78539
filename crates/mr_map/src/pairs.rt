// The keys of a map with their values, in byte order.
ghost use Rattle.std.specs.Prelude.{◌≡◌};
ghost use Rattle.std.specs.Iterator.{YieldsFirstBy, item_count};
ghost use Rattle.mr_map.specs.Bytes.{by_bytes, deref_pair};
ghost use Rattle.mr_map.specs.Merged.{comes_first, led_by, listed, merged};

use crate::short_key::ShortKey;
use std::collections::btree_map;
use std::marker::Model;

/// The pairs that are still to come, seen as a list.
#[derive(Drop)]
pub struct Pairs<'a, V> {
    // The next short key and the next longer one, and those behind them.
    short: Option<(&'a [u8], &'a V)>,
    long: Option<(&'a [u8], &'a V)>,
    shorts: Option<btree_map::Iter<'a, ShortKey, V>>,
    longs: Option<btree_map::Iter<'a, Vec<u8>, V>>,
}

impl<'a, V> Model for Pairs<'a, V> {
    ghost use Rattle.std.specs.Prelude.{ℕ, List};
    ghost use Rattle.mr_map.specs.Bytes.{by_bytes};
    ghost use Rattle.mr_map.specs.Merged.{led_by, listed, merged};

    ghost Value = { List (List ℕ × V) };

    ghost view = { λ a. merged (led_by a.short (listed a.shorts)) (led_by a.long (by_bytes (listed a.longs))) };
}

/// Takes the next pair whose key is short, if one is still to come.
fn next_short<'a, V>(
    shorts: &mut Option<btree_map::Iter<'a, ShortKey, V>>,
) -> Option<(&'a [u8], &'a V)>
    ensures { led_by result (listed shorts.new) ≡ listed shorts.old }
{
    match shorts {
        Some(shorts) => match shorts.next() {
            Some((key, value)) => Some((key.as_slice(), value)),
            None => None,
        },
        None => None,
    }
}

/// Takes the next pair whose key is longer, if one is still to come.
fn next_long<'a, V>(
    longs: &mut Option<btree_map::Iter<'a, Vec<u8>, V>>,
) -> Option<(&'a [u8], &'a V)>
    ensures { led_by result (by_bytes (listed longs.new)) ≡ by_bytes (listed longs.old) }
{
    match longs {
        Some(longs) => match longs.next() {
            Some((key, value)) => Some((key.as_slice(), value)),
            None => None,
        },
        None => None,
    }
}

/// Whether the short key comes first in byte order, where one is there.
fn is_short_next<V>(short: Option<(&[u8], &V)>, long: Option<(&[u8], &V)>) -> bool
    ensures { result ≡ comes_first short.entry long.entry }
{
    match short {
        Some((short, _)) => match long {
            Some((long, _)) => short.cmp(&long).is_lt(),
            None => true,
        },
        None => false,
    }
}

impl<'a, V> Pairs<'a, V> {
    /// The pairs of two trees, if they are there.
    pub(crate) fn new(
        shorts: Option<btree_map::Iter<'a, ShortKey, V>>,
        longs: Option<btree_map::Iter<'a, Vec<u8>, V>>,
    ) -> Self
        ensures { result ≡ merged (listed shorts.entry) (by_bytes (listed longs.entry)) }
    {
        let mut shorts = shorts;
        let mut longs = longs;
        let short = next_short(&mut shorts);
        let long = next_long(&mut longs);
        Pairs {
            short,
            long,
            shorts,
            longs,
        }
    }
}

impl<'a, V> Iterator for Pairs<'a, V> {
    type Item = (&'a [u8], &'a V);

    ghost next_gives = { YieldsFirstBy deref_pair (λ s. s) };

    ghost remaining = { item_count (λ s. s) };

    fn next(&mut self) -> Option<(&'a [u8], &'a V)> {
        if is_short_next(self.short, self.long) {
            let pair = self.short;
            self.short = next_short(&mut self.shorts);
            return pair;
        }
        let pair = self.long?;
        self.long = next_long(&mut self.longs);
        Some(pair)
    }
}
