//! One price for every kWh.
ghost use Rattle.std.specs.Prelude.{◌≡◌, ◌≤◌};
ghost use Rattle.tariff.specs.Faults.{granted, lawful_or};
ghost use Rattle.tariff.specs.Flat.{flat_rate, is_price};
ghost use Rattle.tariff.specs.Plain.{flat};
ghost use Rattle.tariff.specs.SameCharge.{flat_alike};
ghost use Rattle.tariff.specs.Layered.{flat_lawful, within_price};

use crate::refusal::TariffFault;
use crate::tariff::Tariff;
use sheet::quantity::Units;
use sheet::sheet::Sheet;

/// The least that a price may be.
const LEAST_PRICE: Units = Units { units: 1 };

/// The most that a price, a rise or a cut may be.
pub(crate) const PRICE_LIMIT: Units = Units { units: 20_000 };

/// A flat price: one for every kWh.
#[derive(Clone, Copy)]
pub struct Flat {
    price: Units,
    ghost low: { 1 ≤ price.units },
    ghost high: { price.units ≤ 20000 },
}

/// Whether this may be the price of a tier or a flat price: 1 to 20,000 units.
pub fn is_price(price: Units) -> bool
    ensures { result ≡ is_price price.units }
{
    (LEAST_PRICE..=PRICE_LIMIT).contains(&price)
}

impl Flat {
    /// A flat price of 1 to 20,000 units; any other is refused.
    pub fn new(price: Units) -> Result<Flat, TariffFault>
        ensures { granted (λ t. t.price) result ≡ lawful_or (is_price price.units) price }
    {
        if is_price(price) {
            Ok(Flat { price })
        } else {
            Err(TariffFault::Unlawful)
        }
    }
}

impl Tariff for Flat {
    ghost rate = { λ t. flat_rate t.price.units };

    ghost plain = { λ _. Unit {0} };

    ghost lawful = { λ t. flat_lawful t.price.units t.high };

    ghost plainly = { λ t _. flat t.price.units (within_price t.price.units t.low t.high) };

    ghost alike = { λ t _. flat_alike t.price.units };

    fn cheapest(&self) -> Units {
        self.price
    }

    fn dearest(&self) -> Units {
        self.price
    }

    #[tactic(auto, using(crate::proofs::Bounds::bounds))]
    fn charge(&self, sheet: &Sheet) -> Result<Units, TariffFault> {
        Ok(Units {
            units: self.price.units * sheet.total().kwh,
        })
    }
}
