//! What time of use changes in the price of a kWh.
ghost use Rattle.std.specs.Prelude.{◌≡◌, min};
ghost use Rattle.tariff.specs.Values.{changes};

use sheet::quantity::Units;

/// The rise of a peak kWh, and the cuts of a valley kWh in ordinary and in heating months.
#[derive(Clone, Copy)]
pub struct Changes {
    pub rise: Units,
    pub ordinary: Units,
    pub heating: Units,
}

impl Changes {
    /// A rise and two cuts, in units.
    pub fn new(rise: u64, ordinary: u64, heating: u64) -> Changes
        ensures { result ≡ changes rise ordinary heating }
    {
        Changes {
            rise: Units { units: rise },
            ordinary: Units { units: ordinary },
            heating: Units { units: heating },
        }
    }

    /// As they are used over a tariff of this cheapest price: no cut takes more than it.
    pub(crate) fn used(&self, cheapest: Units) -> Changes
        ensures { result ≡ changes self.now.rise.units (min self.now.ordinary.units cheapest.units) (min self.now.heating.units cheapest.units) }
    {
        Changes {
            ordinary: self.ordinary.min(cheapest),
            heating: self.heating.min(cheapest),
            ..*self
        }
    }
}
