//! Time of use over any tariff: a rise for peak kWh and cuts for valley kWh, in the rows so marked.
ghost use Rattle.std.specs.Prelude.{◌≡◌, ◌≤◌};
ghost use Rattle.tariff.specs.Faults.{granted, lawful_or};
ghost use Rattle.tariff.specs.Layer.{layer_rate, are_changes};
ghost use Rattle.tariff.specs.Plain.{layer};
ghost use Rattle.tariff.specs.SameCharge.{layer_alike};
ghost use Rattle.tariff.specs.Layered.{layer_lawful, within_changes};

use crate::changes::Changes;
use crate::flat::PRICE_LIMIT;
use crate::refusal::TariffFault;
use crate::tariff::Tariff;
use sheet::quantity::Units;
use sheet::sheet::Sheet;

/// The most that a dearest price may be.
const DEAREST_LIMIT: Units = Units { units: 1_000_000 };

/// The most that a dearest price may be for a charge to be answered.
const ANSWER_LIMIT: Units = Units { units: 100_000 };

/// Time of use over a tariff.
#[derive(Drop)]
pub struct TimeOfUse<T> {
    below: T,
    changes: Changes,
    ghost rise_high: { changes.rise.units ≤ 20000 },
    ghost ordinary_high: { changes.ordinary.units ≤ 20000 },
    ghost heating_high: { changes.heating.units ≤ 20000 },
}

impl<T: Drop> TimeOfUse<T> {
    /// Time of use over a tariff; refused where the rise or a cut is above 20,000.
    pub fn new(below: T, changes: Changes) -> Result<TimeOfUse<T>, TariffFault>
        ensures tariff { granted (λ t. t.below) result ≡ lawful_or (are_changes changes) below }
        ensures changes { granted (λ t. t.changes) result ≡ lawful_or (are_changes changes) changes }
    {
        let Changes {
            rise,
            ordinary,
            heating,
        } = changes;
        if rise > PRICE_LIMIT || ordinary > PRICE_LIMIT || heating > PRICE_LIMIT {
            return Err(TariffFault::Unlawful);
        }
        Ok(TimeOfUse { below, changes })
    }
}

impl<T: Tariff> Tariff for TimeOfUse<T> {
    ghost rate = { λ t. layer_rate (T.Tariff.rate t.below) t.changes };

    ghost plain = { λ t. T.Tariff.plain t.below };

    ghost lawful = { λ t. layer_lawful (T.Tariff.rate t.below) t.changes t.rise_high (T.Tariff.lawful t.below) };

    ghost plainly = { λ t below. layer (T.Tariff.rate t.below) t.changes (within_changes t.changes t.rise_high t.ordinary_high t.heating_high) (T.Tariff.plainly t.below below) };

    ghost alike = { λ t below. layer_alike (T.Tariff.rate t.below) t.changes (T.Tariff.alike t.below below) };

    fn cheapest(&self) -> Units {
        let below = self.below.cheapest();
        let used = self.changes.used(below);
        Units {
            units: below.units - used.ordinary.max(used.heating).units,
        }
    }

    fn dearest(&self) -> Units {
        let raised = Units {
            units: self.below.dearest().units + self.changes.rise.units,
        };
        raised.min(DEAREST_LIMIT)
    }

    #[tactic(auto, using(crate::proofs::Bounds::bounds))]
    fn charge(&self, sheet: &Sheet) -> Result<Units, TariffFault> {
        if self.dearest() > ANSWER_LIMIT {
            return Err(TariffFault::TooDear);
        }
        let below = self.below.charge(sheet)?;
        let sums = sheet.six_sums();
        let used = self.changes.used(self.below.cheapest());
        let rise = used.rise.units * sums.peak.kwh;
        let cuts = used.ordinary.units * sums.other.kwh + used.heating.units * sums.heating.kwh;
        Ok(Units {
            units: below.units + rise - cuts,
        })
    }
}
