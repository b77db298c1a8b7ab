//! A tier table that keeps the rules: no other can exist.
ghost use Rattle.std.specs.Prelude.{◌≡◌, ◌≤◌, true, length, take};
ghost use Rattle.tariff.specs.Table.{lawful_table};

use sheet::quantity::Units;
use tariff::band::Band;

/// The most tiers that have standards.
pub(crate) const BANDS: usize = 5;

/// One to six tiers: up to five with standards, of which the first `count` are in use, and the price of the last.
#[derive(Clone, Copy)]
pub struct Tiers {
    // Not one generic type with `Split`: each call through a struct round `[T; N]` would owe that it fits in memory.
    // An array and a count: a heap can fail, which no rule knows; `ArrayVec`, or a model that forgets the rest, is not `Copy`.
    pub(crate) bands: [Band; BANDS],
    pub(crate) count: usize,
    pub(crate) last: Units,
    ghost five: { length bands ≡ 5 },
    ghost few: { count ≤ 5 },
    ghost kept: { lawful_table (take count bands) last.units ≡ true },
}
