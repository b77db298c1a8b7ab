//! The sheet of a year: twelve rows, months 1 to 12, none above 999,999 kWh.
ghost use Rattle.std.specs.Prelude.{◌≡◌, true, length, option_map};
ghost use Rattle.sheet.specs.Rows.{all_fit, all_fitting};

use crate::row::YearRows;
use crate::rows::all_fit;

/// Twelve rows, none of which holds more than 999,999 kWh.
#[derive(Clone, Copy)]
pub struct Sheet {
    pub(crate) rows: YearRows,
    ghost twelve: { length rows ≡ 12 },
    ghost small: { all_fit rows ≡ true },
}

impl Sheet {
    /// The sheet of these rows; none where a row holds more than 999,999 kWh.
    pub fn new(rows: YearRows) -> Option<Sheet>
        ensures { option_map (λ s. s.rows) result ≡ all_fitting rows }
    {
        // No `then`: its closure would need a `requires` that the rows fit.
        if all_fit(&rows) {
            Some(Sheet { rows })
        } else {
            None
        }
    }

    /// Its rows, January first.
    pub fn rows(&self) -> &YearRows
        ensures { result.now ≡ self.now.rows }
    {
        &self.rows
    }
}
