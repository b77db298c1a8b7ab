//! What is said of arguments that are refused.
ghost use Rattle.std.specs.Prelude.{Some};
ghost use Rattle.bill.specs.Texts.{message};

use crate::household::ArgumentFault;
use std::error::Error;
use std::fmt;

// By hand: what `thiserror` derives has no contract, so the text would be stated nowhere.
impl fmt::Display for ArgumentFault {
    ghost output = { λ e. Some (message e) };

    fn fmt<W: fmt::Write>(&self, f: &mut fmt::Formatter<W>) -> fmt::Result {
        match self {
            ArgumentFault::Count { given } => {
                write!(
                    f,
                    "expected the kWh of 12 months, and perhaps a month: 12 or 13 arguments, not {given}"
                )
            }
            ArgumentFault::Kwh { month } => {
                write!(
                    f,
                    "argument {month}: the kWh of month {month} must be a whole number from 0 to 999999"
                )
            }
            ArgumentFault::Month => {
                write!(
                    f,
                    "argument 13: the month from which the household is multi-person must be a whole number from 1 to 12"
                )
            }
        }
    }
}

impl Error for ArgumentFault {}
