//! One household's year as it is given.
use sheet::quantity::Kwh;

/// The kWh of each month, and from which month on the household counts as multi-person, if it does.
#[derive(Clone, Copy)]
pub struct Household {
    pub kwh: [Kwh; 12],
    pub multi_from: Option<u64>,
}

/// Why the arguments of a command line are not a household's year.
#[derive(Clone, Copy, PartialEq, Eq, Debug)]
pub enum ArgumentFault {
    /// There are neither 12 nor 13 arguments.
    Count { given: usize },
    /// The argument of a month is no whole number from 0 to 999,999.
    Kwh { month: usize },
    /// The thirteenth argument is no whole number from 1 to 12.
    Month,
}
