//! Bookings, marks and the six sums of a year.
use super::{booked, purchase, reading, sheet_of, with, year};
use sheet::quantity::Kwh;
use sheet::row::{Marking, Row};
use sheet::rows::marked_after;
use std::test::Fail;

#[test]
fn bookings_at_their_limits(rt: HostRuntime) -> Result<(), Fail> {
    let blank = year(1, 0, 13);
    let full = booked(&blank, 3, purchase(999_999))?;
    assert!(rt; sheet_of(full).is_ok());
    assert!(rt; booked(&blank, 3, purchase(1_000_000)).is_err());
    assert!(rt; booked(&full, 3, reading(0, 1)).is_err());
    assert!(rt; booked(&full, 3, reading(0, 0)).is_ok());
    assert!(rt; booked(&blank, 3, reading(400_000, 599_999)).is_ok());
    assert!(rt; booked(&blank, 3, reading(400_000, 600_000)).is_err());
    assert!(rt; booked(&blank, 3, reading(u64::MAX, u64::MAX)).is_err());
    let mut over = full;
    over[11] = Row {
        valley: Kwh { kwh: 1 },
        ..full[2]
    };
    assert!(rt; sheet_of(over).is_err());
    assert!(rt; booked(&blank, 0, purchase(5)).is_err());
    assert!(rt; booked(&blank, 13, purchase(5)).is_err());
    let first = booked(&blank, 1, purchase(5))?;
    let both = booked(&first, 12, reading(6, 7))?;
    assert_eq!(rt; both[0].bought.kwh, 5);
    assert_eq!(rt; both[11].peak.kwh, 6);
    assert_eq!(rt; both[11].valley.kwh, 7);
    assert_eq!(rt; sheet_of(both)?.total().kwh, 18);
    Ok(())
}

#[test]
fn marks_of_the_rows_after(rt: HostRuntime) -> Result<(), Fail> {
    let blank = year(1, 0, 13);
    let none = sheet_of(marked_after(&blank, 0, Marking::Uncount))?;
    let seven = sheet_of(marked_after(&blank, 7, Marking::Uncount))?;
    let all = sheet_of(marked_after(&blank, 12, Marking::Uncount))?;
    assert_eq!(rt; none.six_sums().counted, 0);
    assert_eq!(rt; seven.six_sums().counted, 7);
    assert_eq!(rt; all.six_sums().counted, 12);
    let large = sheet_of(marked_after(&blank, 5, Marking::MultiPerson))?;
    assert_eq!(rt; large.six_sums().multi, 7);
    assert_eq!(rt; large.six_sums().counted, 12);
    Ok(())
}

#[test]
fn heating_and_other_months(rt: HostRuntime) -> Result<(), Fail> {
    let from_april = marked_after(&year(1, 0, 13), 3, Marking::TimeOfUse);
    let april = booked(&from_april, 4, reading(1, 10))?;
    let may = booked(&april, 5, reading(2, 100))?;
    let november = booked(&may, 11, reading(4, 1_000))?;
    let timed = with(&november, 12, reading(8, 10_000))?;
    let sums = timed.six_sums();
    assert_eq!(rt; sums.peak.kwh, 15);
    assert_eq!(rt; sums.heating.kwh, 10_010);
    assert_eq!(rt; sums.other.kwh, 1_100);
    assert_eq!(rt; sums.total.kwh, 11_125);
    let ended = marked_after(timed.rows(), 5, Marking::NoTimeOfUse);
    let sums = sheet_of(ended)?.six_sums();
    assert_eq!(rt; sums.peak.kwh, 3);
    assert_eq!(rt; sums.heating.kwh, 10);
    assert_eq!(rt; sums.other.kwh, 100);
    Ok(())
}
