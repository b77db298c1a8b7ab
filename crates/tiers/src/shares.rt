//! What the tiers of a table take of a year, tier by tier.
ghost use Rattle.std.specs.Prelude.{◌≡◌, ◌≤◌, length};

use crate::table::BANDS;
use tariff::band::Share;

/// The most shares: one of each tier, the last included.
pub(crate) const SHARES: usize = BANDS + 1;

/// The share of each tier, the last included: at most six, of which the first `count` are in use.
#[derive(Clone, Copy)]
pub struct Split {
    // Not one generic type with `Tiers`: see there.
    // An array and a count: a heap can fail, and a split never does; `ArrayVec`, or a model that forgets the rest, is not `Copy`.
    pub(crate) shares: [Share; SHARES],
    pub(crate) count: usize,
    ghost six: { length shares ≡ 6 },
    ghost few: { count ≤ 6 },
}
