//! Rating a household's year, and the lines of its bill.
ghost use Rattle.std.specs.Prelude.{◌≡◌, ◌≤◌, length, option_map, slice_get};
ghost use Rattle.sheet.specs.Rows.{kwh, kwh_of, row_limit};
ghost use Rattle.tariff.specs.Faults.{units_of};
ghost use Rattle.bill.specs.Lines.{lines, end_lines, sum_line};
ghost use Rattle.bill.specs.Shandong.{cost};
ghost use Rattle.bill.specs.Years.{marked_year, rows_of};

use crate::bill::Bill;
use crate::household::Household;
use crate::lines::Line;
use sheet::quantity::{Kwh, Units};
use sheet::row::{Booking, Marking, Row, YearMarks, YearRows};
use sheet::rows::{blank_year, booked_in, marked_after};
use sheet::sheet::Sheet;
use tariff::tariff::Tariff;
use tiers::published::shandong;

fn marked_year(multi_from: Option<u64>) -> YearRows
    ensures { result ≡ marked_year multi_from }
{
    let rows = blank_year(YearMarks {
        counted_from: 1,
        multi_until: 0,
        timed_from: 13,
    });
    match multi_from {
        Some(month) => marked_after(&rows, month.saturating_sub(1), Marking::MultiPerson),
        None => rows,
    }
}

impl Household {
    /// Its rows: all months counted, multi-person from the given month on, the kWh of each month bought in it; none
    /// where a month has more than 999,999 kWh.
    pub fn rows(&self) -> Option<YearRows>
        ensures { result ≡ rows_of self.now }
    {
        let mut rows = marked_year(self.multi_from);
        for (i, kwh) in self.kwh.iter().enumerate() {
            rows = booked_in(&rows, i as u64 + 1, Booking::Purchase { bought: *kwh })?;
        }
        Some(rows)
    }
}

fn used(row: Row) -> Kwh
    requires { kwh row ≤ row_limit }
    ensures { result ≡ kwh_of (kwh row) }
{
    Kwh {
        kwh: row.kwh() as u64,
    }
}

impl Bill {
    /// The bill of a household's year; none where a month has more than 999,999 kWh.
    pub fn new(household: &Household) -> Option<Bill>
        ensures { option_map (λ b. b.sheet.rows) result ≡ rows_of household.now }
    {
        let rows = household.rows()?;
        let sheet = Sheet::new(rows)?;
        let split = shandong().split(&sheet);
        Some(Bill { sheet, split })
    }

    /// What the year costs.
    pub fn charge(&self) -> Units
        ensures { result ≡ units_of (cost self.now.sheet.rows) }
    {
        // No price of Shandong's is above 100,000.
        shandong().charge(&self.sheet).unwrap()
    }

    /// How many lines it has.
    #[tactic(auto, using(crate::proofs::Listed::length_numbered))]
    pub fn len(&self) -> usize
        ensures { result ≡ length (lines self.now.sheet.rows) }
    {
        // The months, the year, the tiers, the sum.
        12 + 1 + self.split.shares().len() + 1
    }

    /// Its lines: each month, the year's kWh, each tier, the sum. None past the last.
    #[tactic(auto, using(crate::proofs::Listed::line_month, crate::proofs::Listed::line_total, crate::proofs::Listed::line_end))]
    pub fn line(&self, k: usize) -> Option<Line>
        ensures { result ≡ slice_get (lines self.now.sheet.rows) k }
    {
        if let Some(row) = self.sheet.rows().get(k) {
            return Some(Line::Month {
                month: k as u64 + 1,
                kwh: used(*row),
                multi: row.multi,
            });
        }
        if k == 12 {
            return Some(Line::Total {
                kwh: self.sheet.total(),
            });
        }
        self.tier_line(k - 13)
    }

    fn tier_line(&self, k: usize) -> Option<Line>
        ensures { result ≡ slice_get (end_lines self.now.sheet.rows) k }
    {
        let shares = self.split.shares();
        if let Some(share) = shares.get(k) {
            return Some(Line::Tier {
                tier: k as u64 + 1,
                share: *share,
            });
        }
        (k == shares.len()).then(|| self.sum_line())
    }

    fn sum_line(&self) -> Line
        ensures { result ≡ sum_line self.now.sheet.rows }
    {
        let charge = self.charge();
        Line::Sum {
            charge,
            fen: charge.to_fen(),
        }
    }
}
