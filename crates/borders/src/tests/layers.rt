//! Time of use over a flat price: its limits, cuts above the price, and layers upon layers.
use super::{reading, units, with, year};
use fault::refused;
use std::test::Fail;
use tariff::changes::Changes;
use tariff::flat::Flat;
use tariff::refusal::TariffFault;
use tariff::tariff::Tariff;
use tariff::time_of_use::TimeOfUse;

fn layer(rise: u64, ordinary: u64, heating: u64) -> Result<TimeOfUse<Flat>, TariffFault> {
    TimeOfUse::new(
        Flat::new(units(100))?,
        Changes::new(rise, ordinary, heating),
    )
}

#[test]
fn limits_of_changes(rt: HostRuntime) {
    assert_eq!(rt; refused(layer(0, 0, 0)), None);
    assert_eq!(rt; refused(layer(20_000, 20_000, 20_000)), None);
    assert_eq!(rt; refused(layer(20_001, 0, 0)), Some(16));
    assert_eq!(rt; refused(layer(0, 20_001, 0)), Some(16));
    assert_eq!(rt; refused(layer(0, 0, 20_001)), Some(16));
    assert_eq!(rt; refused(Flat::new(units(0))), Some(16));
    assert_eq!(rt; refused(Flat::new(units(1))), None);
    assert_eq!(rt; refused(Flat::new(units(20_000))), None);
    assert_eq!(rt; refused(Flat::new(units(20_001))), Some(16));
}

// A cut above the price of 100 takes 100: 15 * 100 + 5 * 7 - 10 * 100, and in May 15 * 100 + 5 * 7 - 10 * 30.
#[test]
fn cuts_above_the_price(rt: HostRuntime) -> Result<(), Fail> {
    let tariff = TimeOfUse::new(Flat::new(units(100))?, Changes::new(7, 30, 20_000))?;
    assert_eq!(rt; tariff.cheapest().units, 0);
    assert_eq!(rt; tariff.dearest().units, 107);
    let january = with(&year(1, 0, 1), 1, reading(5, 10))?;
    let may = with(&year(1, 0, 1), 5, reading(5, 10))?;
    let untimed = with(&year(1, 0, 13), 1, reading(5, 10))?;
    assert_eq!(rt; tariff.charge(&january)?.units, 535);
    assert_eq!(rt; tariff.charge(&may)?.units, 1_235);
    assert_eq!(rt; tariff.charge(&untimed)?.units, 1_500);
    Ok(())
}

// 20,000 and four times 20,000 are 100,000; a rise of 1 more is too much to charge by.
#[test]
fn layers_upon_layers(rt: HostRuntime) -> Result<(), Fail> {
    let peak = with(&year(1, 0, 1), 1, reading(1, 0))?;
    let rise = Changes::new(20_000, 0, 0);
    let two = TimeOfUse::new(TimeOfUse::new(Flat::new(units(20_000))?, rise)?, rise)?;
    let four = TimeOfUse::new(TimeOfUse::new(two, rise)?, rise)?;
    assert_eq!(rt; four.dearest().units, 100_000);
    assert_eq!(rt; four.charge(&peak)?.units, 100_000);
    let five = TimeOfUse::new(four, Changes::new(1, 0, 0))?;
    assert_eq!(rt; five.dearest().units, 100_001);
    assert_eq!(rt; five.cheapest().units, 20_000);
    assert_eq!(rt; refused(five.charge(&peak)), Some(11));
    Ok(())
}
