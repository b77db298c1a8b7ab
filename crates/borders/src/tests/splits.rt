//! What each of Shandong's three tiers takes of a year.
use super::{purchase, with, year};
use sheet::sheet::Sheet;
use std::test::Fail;
use tiers::published::shandong;

fn taken(sheet: &Sheet) -> Option<(u64, u64, u64)> {
    match shandong().split(sheet).shares() {
        [first, second, last] => Some((first.kwh.kwh, second.kwh.kwh, last.kwh.kwh)),
        _ => None,
    }
}

fn of_ordinary_year(kwh: u64) -> Option<(u64, u64, u64)> {
    taken(&with(&year(1, 0, 13), 1, purchase(kwh)).ok()?)
}

// Twelve times 210 are 2,520 and twelve times 400 are 4,800.
#[test]
fn kwh_by_tier(rt: HostRuntime) -> Result<(), Fail> {
    assert_eq!(rt; of_ordinary_year(0), Some((0, 0, 0)));
    assert_eq!(rt; of_ordinary_year(2_520), Some((2_520, 0, 0)));
    assert_eq!(rt; of_ordinary_year(2_521), Some((2_520, 1, 0)));
    assert_eq!(rt; of_ordinary_year(4_800), Some((2_520, 2_280, 0)));
    assert_eq!(rt; of_ordinary_year(4_801), Some((2_520, 2_280, 1)));
    let uncounted = with(&year(13, 0, 13), 1, purchase(500))?;
    assert_eq!(rt; taken(&uncounted), Some((0, 0, 500)));
    Ok(())
}
