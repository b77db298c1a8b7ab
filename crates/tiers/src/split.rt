//! What each tier takes of a year.
ghost use Rattle.std.specs.Prelude.{◌≡◌, ◌+◌, ◌-◌, ◌*◌, ◌^◌, ◌<◌, ◌≤◌, [], ◌∷◌, ◌++◌};
ghost use Rattle.sheet.specs.Sums.{total};
ghost use Rattle.tariff.specs.Tiered as means;
ghost use Rattle.tiers.specs.Tables.{bands_of};
ghost use Rattle.tiers.specs.Splits.{shares_of};

use crate::shares::{SHARES, Split};
use crate::table::Tiers;
use sheet::quantity::{Kwh, Units};
use sheet::sheet::Sheet;
use sheet::sums::SixSums;
use tariff::band::{Band, Share};

// The kWh up to which a tier reaches, by the months that count.
fn limit(band: &Band, sums: &SixSums) -> u64
    requires months { sums.now.counted ≤ 12 }
    requires among { sums.now.multi ≤ sums.now.counted }
    requires ordinary { band.now.ordinary.kwh ≤ 10000 }
    requires multi { band.now.multi.kwh ≤ 10000 }
    ensures { result ≡ (sums.now.counted - sums.now.multi) * band.now.ordinary.kwh + sums.now.multi * band.now.multi.kwh }
{
    (sums.counted - sums.multi) * band.ordinary.kwh + sums.multi * band.multi.kwh
}

fn share(price: Units, limit: Option<Kwh>, kwh: u64) -> Share
    requires price { price.units ≤ 20000 }
    requires kwh { kwh ≤ 11999988 }
    ensures { result ≡ means.share price.units limit kwh }
{
    Share {
        price,
        limit,
        kwh: Kwh { kwh },
        charge: Units {
            units: kwh * price.units,
        },
    }
}

impl Split {
    // No shares yet: those in the array are not in use.
    fn empty() -> Split
        ensures shares { shares_of result ≡ [] }
        ensures count { result.count ≡ 0 }
    {
        Split {
            shares: [share(Units { units: 0 }, None, 0); SHARES],
            count: 0,
        }
    }

    fn push(&mut self, share: Share)
        requires { self.old.count < 6 }
        ensures shares { shares_of self.new ≡ shares_of self.old ++ share ∷ [] }
        ensures count { self.new.count ≡ self.old.count + 1 }
    {
        self.shares[self.count] = share;
        self.count += 1;
    }

    /// The share of each tier, the first tier first.
    pub fn shares(&self) -> &[Share]
        ensures { result.now ≡ shares_of self.now }
    {
        &self.shares[..self.count]
    }

    // What all the shares cost.
    pub(crate) fn charge(&self) -> Units
        requires { means.charges (shares_of self.now) < 2 ^ 64 }
        ensures { result.units ≡ means.charges (shares_of self.now) }
    {
        let units: u64 = self.shares().iter().map(|share| share.charge.units).sum();
        Units { units }
    }
}

impl Tiers {
    /// What each tier takes of the sheet's kWh, and what that costs; all together they take all of it.
    #[tactic(auto, using(crate::proofs::Splitting::splits))]
    pub fn split(&self, sheet: &Sheet) -> Split
        ensures shares { shares_of result ≡ means.split (bands_of self.now) self.now.last.units sheet.now.rows }
        ensures whole { means.kwhs (shares_of result) ≡ total sheet.now.rows }
    {
        let sums = sheet.six_sums();
        let total = sums.total.kwh;
        let mut split = Split::empty();
        let mut before = 0;
        for band in self.bands() {
            let reach = limit(band, &sums);
            let takes = total.min(reach) - total.min(before);
            split.push(share(band.price, Some(Kwh { kwh: reach }), takes));
            before = reach;
        }
        split.push(share(self.last, None, total - total.min(before)));
        split
    }
}
