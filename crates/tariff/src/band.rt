//! Tiers as plain data: the price and standards of a tier other than the last, and what a tier takes of a year.
ghost use Rattle.std.specs.Prelude.{◌≡◌};
ghost use Rattle.tariff.specs.Values.{band};

use sheet::quantity::{Kwh, Units};

/// A tier other than the last: its price and its standards in kWh a month, ordinary and multi-person.
#[derive(Clone, Copy)]
pub struct Band {
    pub price: Units,
    pub ordinary: Kwh,
    pub multi: Kwh,
}

impl Band {
    /// A tier of this price in units, and these standards in kWh a month.
    pub fn new(price: u64, ordinary: u64, multi: u64) -> Band
        ensures { result ≡ band price ordinary multi }
    {
        Band {
            price: Units { units: price },
            ordinary: Kwh { kwh: ordinary },
            multi: Kwh { kwh: multi },
        }
    }
}

/// What a tier takes of a year: its price, the kWh of the year up to which it reaches (none for the last), the kWh
/// that it takes, and what they cost.
#[derive(Clone, Copy)]
pub struct Share {
    pub price: Units,
    pub limit: Option<Kwh>,
    pub kwh: Kwh,
    pub charge: Units,
}
