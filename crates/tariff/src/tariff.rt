//! What every tariff means and shows.
ghost use Rattle.std.specs.Prelude.{◌≡◌};
ghost use Rattle.tariff.specs.Rate.{Rate, Lawful};
ghost use Rattle.tariff.specs.Faults.{answer};
ghost use Rattle.tariff.specs.Plain.{Plain, Alike};

use crate::refusal::TariffFault;
use sheet::quantity::Units;
use sheet::sheet::Sheet;

/// Anything that prices a year: known by its meaning alone.
pub trait Tariff {
    /// What it means: a cheapest price, a dearest price and a charge for every sheet.
    ghost rate: { Self → Rate };

    /// Holds of tiers and flat prices, bare or under time-of-use layers.
    ghost plain: { Self → Type 0 };

    /// The cheapest price per kWh.
    fn cheapest(&self) -> Units
        ensures { result.units ≡ (rate self.now).cheapest };

    /// The dearest price per kWh.
    fn dearest(&self) -> Units
        ensures { result.units ≡ (rate self.now).dearest };

    /// The charge of a sheet; refused where the dearest price is above 100,000.
    fn charge(&self, sheet: &Sheet) -> Result<Units, TariffFault>
        ensures { result ≡ answer (rate self.now) sheet.now.rows };

    ghost lawful: { (t : Self) → Lawful (rate t) };

    ghost plainly: { (t : Self) → plain t → Plain (rate t) };

    ghost alike: { (t : Self) → plain t → Alike (rate t) };
}
