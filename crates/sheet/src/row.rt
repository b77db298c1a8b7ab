//! One month of the year's sheet, and what is done to it: plain data.
use crate::quantity::Kwh;

/// One month: whether it counts for the allowance, whether it has the allowance of a multi-person household,
/// whether it is priced by time of use, and its kWh by peak register, valley register and purchase.
#[derive(Clone, Copy, PartialEq, Eq, Debug)]
pub struct Row {
    pub counted: bool,
    pub multi: bool,
    pub timed: bool,
    pub peak: Kwh,
    pub valley: Kwh,
    pub bought: Kwh,
}

/// The rows of a year, January first.
pub type YearRows = [Row; 12];

/// What is booked into a month's row.
// An enum and no closure: the rules name these kinds, and a contract says which one was asked for.
#[derive(Clone, Copy)]
pub enum Booking {
    /// The consumption of both registers.
    Reading { peak: Kwh, valley: Kwh },
    /// kWh bought on a card.
    Purchase { bought: Kwh },
}

/// What becomes of the marks of the rows after a month.
// An enum and no closure: the rules name these kinds, and a contract says which one was asked for.
#[derive(Clone, Copy)]
pub enum Marking {
    /// They no longer count.
    Uncount,
    /// They have the allowance of a multi-person household.
    MultiPerson,
    /// They are priced by time of use.
    TimeOfUse,
    /// They no longer are.
    NoTimeOfUse,
}

/// The marks of a blank year: counted and time of use from a month on, multi-person up to a month.
/// Month 0 comes before all rows and month 13 after them.
// No `Option`: months are ends of an interval here, and `None` would be a second way to say 13, or 0.
#[derive(Clone, Copy)]
pub struct YearMarks {
    pub counted_from: u64,
    pub multi_until: u64,
    pub timed_from: u64,
}
