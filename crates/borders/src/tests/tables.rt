//! Tier tables at each border of their rules: the number of the refusal, or none where a table stands.
use super::units;
use fault::refused;
use std::test::Fail;
use tariff::band::Band;
use tariff::tariff::Tariff;
use tiers::table::Tiers;

fn table(bands: &[Band], last: u64) -> Option<u8> {
    refused(Tiers::new(bands, units(last)))
}

#[test]
fn one_to_six_tiers(rt: HostRuntime) -> Result<(), Fail> {
    let tier = Band::new(100, 10, 20);
    assert_eq!(rt; table(&[], 100), None);
    assert_eq!(rt; table(&[tier; 5], 100), None);
    assert_eq!(rt; table(&[tier; 6], 100), Some(16));
    let one = Tiers::new(&[], units(7))?;
    assert_eq!(rt; one.cheapest().units, 7);
    assert_eq!(rt; one.dearest().units, 7);
    let three = Tiers::new(&[tier, Band::new(200, 30, 30)], units(300))?;
    assert_eq!(rt; three.bands().len(), 2);
    assert_eq!(rt; three.cheapest().units, 100);
    assert_eq!(rt; three.dearest().units, 300);
    Ok(())
}

#[test]
fn prices_of_tiers(rt: HostRuntime) {
    assert_eq!(rt; table(&[], 0), Some(16));
    assert_eq!(rt; table(&[], 1), None);
    assert_eq!(rt; table(&[], 20_000), None);
    assert_eq!(rt; table(&[], 20_001), Some(16));
    assert_eq!(rt; table(&[Band::new(0, 10, 20)], 100), Some(16));
    assert_eq!(rt; table(&[Band::new(1, 10, 20)], 100), None);
    assert_eq!(rt; table(&[Band::new(20_000, 10, 20)], 20_000), None);
    assert_eq!(rt; table(&[Band::new(20_001, 10, 20)], 20_001), Some(16));
    assert_eq!(rt; table(&[Band::new(100, 10, 20)], 99), Some(16));
    assert_eq!(rt;
        table(&[Band::new(100, 10, 20), Band::new(100, 11, 21)], 100),
        None
    );
    assert_eq!(rt;
        table(&[Band::new(100, 10, 20), Band::new(99, 11, 21)], 100),
        Some(16)
    );
}

#[test]
fn standards_of_tiers(rt: HostRuntime) {
    let first = Band::new(100, 10, 20);
    assert_eq!(rt; table(&[first, Band::new(101, 10, 20)], 102), None);
    assert_eq!(rt; table(&[first, Band::new(101, 9, 20)], 102), Some(16));
    assert_eq!(rt; table(&[first, Band::new(101, 10, 19)], 102), Some(16));
    assert_eq!(rt; table(&[Band::new(100, 0, 20)], 102), Some(16));
    assert_eq!(rt; table(&[Band::new(100, 1, 1)], 102), None);
    assert_eq!(rt; table(&[Band::new(100, 10_000, 10_000)], 102), None);
    assert_eq!(rt; table(&[Band::new(100, 10, 10_001)], 102), Some(16));
    assert_eq!(rt; table(&[Band::new(100, 10_001, 10_001)], 102), Some(16));
    assert_eq!(rt; table(&[Band::new(100, 20, 19)], 102), Some(16));
}
