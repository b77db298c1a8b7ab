//! The published tariffs by name.
ghost use Rattle.std.specs.Prelude.{◌≡◌};
ghost use Rattle.tiers.specs.Figures.{Figures};
ghost use Rattle.tiers.specs.Published as values;
ghost use Rattle.tiers.specs.Tables.{bands_of};

use crate::table::Tiers;
use sheet::quantity::Units;
use tariff::band::Band;
use tariff::changes::Changes;
use tariff::flat::Flat;
use tariff::time_of_use::TimeOfUse;

// Shandong's tiers but the last.
fn shandong_bands() -> [Band; 2]
    ensures { result ≡ values.shandong_bands }
{
    [Band::new(5469, 210, 310), Band::new(5969, 400, 400)]
}

/// Shandong's three tiers. What they come to in a year is the table of figures.
#[tactic(auto, using(crate::proofs::Figured::shandong_lawful, crate::proofs::Figured::figures))]
pub fn shandong() -> Tiers
    ensures bands { bands_of result ≡ values.shandong_bands }
    ensures last { result.last.units ≡ values.shandong_last }
    ensures figures { Figures }
{
    Tiers::new(&shandong_bands(), Units { units: 8469 }).unwrap()
}

/// Shandong's tiers under its time of use.
pub fn shandong_time_of_use() -> TimeOfUse<Tiers>
    ensures bands { bands_of result.below ≡ values.shandong_bands }
    ensures last { result.below.last.units ≡ values.shandong_last }
    ensures changes { result.changes ≡ values.shandong_changes }
{
    TimeOfUse::new(shandong(), Changes::new(300, 1700, 2000)).unwrap()
}

/// The flat price of shared meters.
pub fn shared_meters() -> Flat
    ensures { result.price.units ≡ values.shared }
{
    Flat::new(Units { units: 5550 }).unwrap()
}

/// The price of chargers: that of shared meters under a time of use of their own.
pub fn chargers() -> TimeOfUse<Flat>
    ensures price { result.below.price.units ≡ values.shared }
    ensures changes { result.changes ≡ values.charger_changes }
{
    TimeOfUse::new(shared_meters(), Changes::new(1700, 1700, 1700)).unwrap()
}
