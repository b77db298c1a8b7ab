//! The sums over the rows of a year's sheet.
ghost use Rattle.std.specs.Prelude.{◌≡◌};
ghost use Rattle.sheet.specs.Sums as means;

use crate::quantity::Kwh;
use crate::row::Row;
use crate::sheet::Sheet;

/// The six sums of a year: the counted months, and the multi-person ones among them; all kWh; of the rows marked
/// time of use the peak kWh, the valley kWh in heating months, and the valley kWh in other months.
#[derive(Clone, Copy, PartialEq, Eq, Debug)]
pub struct SixSums {
    pub counted: u64,
    pub multi: u64,
    pub total: Kwh,
    pub peak: Kwh,
    pub heating: Kwh,
    pub other: Kwh,
}

/// Whether a month is a heating month: 12, 1, 2, 3 and 4.
pub fn is_heating(month: u64) -> bool
    ensures { result ≡ means.heating month }
{
    matches!(month, 12 | 1..=4)
}

impl Sheet {
    /// All the kWh of the twelve rows.
    #[tactic(auto, using(crate::proofs::Adding::sums, crate::proofs::Adding::proper_of, crate::proofs::Adding::total_small))]
    pub fn total(&self) -> Kwh
        ensures { result.kwh ≡ means.total self.now.rows }
    {
        // A `for` over the rows borrowed as a slice: one of the forms to keep (docs/DEVELOPING.md).
        let rows: &[Row] = &self.rows;
        let mut sum = 0;
        for row in rows {
            sum += row.kwh() as u64;
        }
        Kwh { kwh: sum }
    }

    /// The six sums of the sheet.
    #[tactic(auto, using(crate::proofs::Adding::sums, crate::proofs::Adding::proper_of, crate::proofs::Adding::counted_small, crate::proofs::Adding::multi_among_counted, crate::proofs::Adding::timed_small))]
    pub fn six_sums(&self) -> SixSums
        ensures { result ≡ means.six_sums self.now.rows }
    {
        // Two loops for the five sums beside the total: a loop for each takes twice the time, and one for all makes who
        // reads the months alone, as tiers do, pay for the rest.
        let (mut counted, mut multi) = (0, 0);
        for row in self.rows.iter() {
            if row.counted {
                counted += 1;
                multi += u64::from(row.multi);
            }
        }
        let (mut peak, mut heating, mut other) = (0, 0, 0);
        for (i, row) in self.rows.iter().enumerate() {
            if row.timed {
                peak += row.peak.kwh;
                if is_heating(i as u64 + 1) {
                    heating += row.valley.kwh;
                } else {
                    other += row.valley.kwh;
                }
            }
        }
        SixSums {
            counted,
            multi,
            total: self.total(),
            peak: Kwh { kwh: peak },
            heating: Kwh { kwh: heating },
            other: Kwh { kwh: other },
        }
    }
}
