//! Making a tier table, and tiers as a tariff.
ghost use Rattle.std.specs.Prelude.{◌≡◌, ◌≤◌, length, take};
ghost use Rattle.tariff.specs.Faults.{granted, lawful_or};
ghost use Rattle.tariff.specs.Table as rules;
ghost use Rattle.tiers.specs.Tables.{bands_of, rate_of};
ghost use Rattle.tariff.specs.Plain.{tiers};
ghost use Rattle.tariff.specs.SameCharge.{tiers_alike};
ghost use Rattle.tiers.specs.Tabled.{table_lawful};

use crate::table::{BANDS, Tiers};
use sheet::quantity::{Kwh, Units};
use sheet::sheet::Sheet;
use tariff::band::Band;
use tariff::flat::is_price;
use tariff::refusal::TariffFault;
use tariff::tariff::Tariff;

// The most that a standard may be, a month.
const STANDARD_LIMIT: Kwh = Kwh { kwh: 10_000 };

// No tier that is in range falls below this one.
const LOWEST: Band = Band {
    price: Units { units: 1 },
    ordinary: Kwh { kwh: 1 },
    multi: Kwh { kwh: 1 },
};

fn in_range(band: &Band) -> bool
    ensures { result ≡ rules.in_range band.now }
{
    is_price(band.price)
        && (1..=band.multi.kwh).contains(&band.ordinary.kwh)
        && band.multi <= STANDARD_LIMIT
}

fn not_below(before: &Band, band: &Band) -> bool
    ensures { result ≡ rules.not_below before.now band.now }
{
    before.price <= band.price && before.ordinary <= band.ordinary && before.multi <= band.multi
}

fn may_follow(before: &Band, band: &Band) -> bool
    ensures { result ≡ rules.may_follow before.now band.now }
{
    in_range(band) && not_below(before, band)
}

fn may_end(before: &Band, last: Units) -> bool
    ensures { result ≡ rules.may_end before.now last.units }
{
    is_price(last) && before.price <= last
}

/// Whether tiers but the last, and the price of the last, keep the rules of a tier table.
// Two parameters: together they are a `Tiers`, which exists only where this holds.
#[tactic(auto, using(crate::proofs::Testing::tests))]
pub fn is_lawful(bands: &[Band], last: Units) -> bool
    ensures { result ≡ rules.lawful_table bands.now last.units }
{
    if bands.len() > BANDS {
        return false;
    }
    let mut before = LOWEST;
    for band in bands {
        if !may_follow(&before, band) {
            return false;
        }
        before = *band;
    }
    may_end(&before, last)
}

fn copied(bands: &[Band]) -> [Band; BANDS]
    requires { length bands.now ≤ 5 }
    ensures same { take (length bands.now) result ≡ bands.now }
    ensures five { length result ≡ 5 }
{
    let mut all = [LOWEST; BANDS];
    all[..bands.len()].copy_from_slice(bands);
    all
}

impl Tiers {
    /// The table of these tiers but the last, and the price of the last; refused where it breaks a rule.
    pub fn new(bands: &[Band], last: Units) -> Result<Tiers, TariffFault>
        ensures bands { granted bands_of result ≡ lawful_or (rules.lawful_table bands.now last.units) bands.now }
        ensures last { granted (λ t. t.last) result ≡ lawful_or (rules.lawful_table bands.now last.units) last }
    {
        if !is_lawful(bands, last) {
            return Err(TariffFault::Unlawful);
        }
        Ok(Tiers {
            bands: copied(bands),
            count: bands.len(),
            last,
        })
    }

    /// The tiers but the last.
    pub fn bands(&self) -> &[Band]
        ensures { result.now ≡ bands_of self.now }
    {
        &self.bands[..self.count]
    }
}

impl Tariff for Tiers {
    ghost rate = { rate_of };

    ghost plain = { λ _. Unit {0} };

    ghost lawful = { λ t. table_lawful (bands_of t) t.last.units t.kept };

    ghost plainly = { λ t _. tiers (bands_of t) t.last.units t.kept };

    ghost alike = { λ t _. tiers_alike (bands_of t) t.last.units };

    fn cheapest(&self) -> Units {
        self.bands().first().map_or(self.last, |first| first.price)
    }

    fn dearest(&self) -> Units {
        self.last
    }

    #[tactic(auto, using(crate::proofs::Charging::charges_small))]
    fn charge(&self, sheet: &Sheet) -> Result<Units, TariffFault> {
        Ok(self.split(sheet).charge())
    }
}
