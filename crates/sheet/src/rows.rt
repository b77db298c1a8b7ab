//! What is done to the rows of a year.
ghost use Rattle.std.specs.Prelude.{◌≡◌, ◌^◌, ◌<◌};
ghost use Rattle.sheet.specs.Rows as means;

use crate::quantity::Kwh;
use crate::row::{Booking, Marking, Row, YearMarks, YearRows};
use std::array;

/// The most kWh of a row.
pub const ROW_LIMIT: u64 = 999_999;

impl Booking {
    // In 128 bits: a caller's kWh may be anything.
    fn kwh(self) -> u128
        ensures is { result ≡ means.booked_kwh self }
        ensures bound { result < 2 ^ 66 }
    {
        match self {
            Booking::Reading { peak, valley } => u128::from(peak.kwh) + u128::from(valley.kwh),
            Booking::Purchase { bought } => u128::from(bought.kwh),
        }
    }
}

impl Row {
    /// All its kWh, in 128 bits since a row may hold anything.
    pub fn kwh(self) -> u128
        ensures is { result ≡ means.kwh self }
        ensures bound { result < 2 ^ 66 }
    {
        u128::from(self.peak.kwh) + u128::from(self.valley.kwh) + u128::from(self.bought.kwh)
    }

    /// Whether the row holds at most 999,999 kWh.
    pub fn fits(self) -> bool
        ensures { result ≡ means.fits self }
    {
        self.kwh() <= u128::from(ROW_LIMIT)
    }

    /// The row with the kWh booked, or none where it would hold more than 999,999 kWh.
    pub fn booked(self, booking: Booking) -> Option<Row>
        ensures { result ≡ means.fitting (means.booked booking self) }
    {
        if self.kwh() + booking.kwh() > u128::from(ROW_LIMIT) {
            return None;
        }
        let row = match booking {
            Booking::Reading { peak, valley } => Row {
                peak: Kwh {
                    kwh: self.peak.kwh + peak.kwh,
                },
                valley: Kwh {
                    kwh: self.valley.kwh + valley.kwh,
                },
                ..self
            },
            Booking::Purchase { bought } => Row {
                bought: Kwh {
                    kwh: self.bought.kwh + bought.kwh,
                },
                ..self
            },
        };
        Some(row)
    }

    /// The row with its marks changed.
    pub fn marked(self, marking: Marking) -> Row
        ensures { result ≡ means.marked marking self }
    {
        match marking {
            Marking::Uncount => Row {
                counted: false,
                ..self
            },
            Marking::MultiPerson => Row {
                multi: true,
                ..self
            },
            Marking::TimeOfUse => Row {
                timed: true,
                ..self
            },
            Marking::NoTimeOfUse => Row {
                timed: false,
                ..self
            },
        }
    }
}

impl YearMarks {
    fn row(self, month: u64) -> Row
        ensures { result ≡ means.blank_row self month }
    {
        let none = Kwh { kwh: 0 };
        Row {
            counted: self.counted_from <= month,
            multi: month <= self.multi_until,
            timed: self.timed_from <= month,
            peak: none,
            valley: none,
            bought: none,
        }
    }
}

/// Whether each row holds at most 999,999 kWh.
pub fn all_fit(rows: &[Row]) -> bool
    ensures { result ≡ means.all_fit rows.now }
{
    rows.iter().all(|row| row.fits())
}

/// The rows with the kWh booked into one month's row; none where there is no such month, or its row would hold
/// more than 999,999 kWh.
pub fn booked_in(rows: &YearRows, month: u64, booking: Booking) -> Option<YearRows>
    ensures { result ≡ means.booked_in month booking rows.now }
{
    let i = month.checked_sub(1)? as usize;
    let row = rows.get(i)?.booked(booking)?;
    let mut next = *rows;
    next[i] = row;
    Some(next)
}

/// The rows with the marks changed of those after a month.
pub fn marked_after(old: &YearRows, month: u64, marking: Marking) -> YearRows
    ensures { result ≡ means.after_month month (means.marked marking) old.now }
{
    // A copy, and marks written into it: rows made one by one take twice the time.
    let mut next = *old;
    for (i, row) in next.iter_mut().enumerate() {
        if i as u64 + 1 > month {
            *row = row.marked(marking);
        }
    }
    next
}

/// Twelve rows with no kWh and the given marks.
pub fn blank_year(marks: YearMarks) -> YearRows
    ensures { result ≡ means.blank_year marks }
{
    array::from_fn(|i| marks.row(i as u64 + 1))
}
