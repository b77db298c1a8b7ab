//! A bill: a year's sheet, rated by Shandong's tiers.
ghost use Rattle.std.specs.Prelude.{◌≡◌};
ghost use Rattle.tiers.specs.Splits.{shares_of};
ghost use Rattle.bill.specs.Shandong.{shares};

use sheet::sheet::Sheet;
use tiers::shares::Split;

/// The bill of one year.
#[derive(Clone, Copy)]
pub struct Bill {
    pub(crate) sheet: Sheet,
    // What each tier takes: kept, since the count of lines and the line of each tier need it.
    pub(crate) split: Split,
    ghost rated: { shares_of split ≡ shares sheet.rows },
}
