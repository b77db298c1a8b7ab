//! What years cost by the published tariffs.
use super::{fen, purchase, reading, sheet_of, with, year};
use sheet::quantity::Kwh;
use sheet::row::Marking;
use sheet::rows::marked_after;
use std::test::Fail;
use tariff::tariff::Tariff;
use tiers::published::{chargers, shandong, shandong_time_of_use, shared_meters};

fn ordinary_fen(kwh: u64) -> Option<i64> {
    fen(&shandong(), &with(&year(1, 0, 13), 1, purchase(kwh)).ok()?).ok()
}

#[test]
fn tiers_of_shandong(rt: HostRuntime) -> Result<(), Fail> {
    let full = with(&year(1, 0, 13), 1, purchase(2_520))?;
    assert_eq!(rt; shandong().charge(&full)?.units, 13_781_880);
    assert_eq!(rt; ordinary_fen(2_520), Some(137_819));
    assert_eq!(rt; ordinary_fen(2_521), Some(137_878));
    assert_eq!(rt; ordinary_fen(4_800), Some(273_912));
    assert_eq!(rt; ordinary_fen(4_801), Some(273_997));
    let large = with(&year(1, 12, 13), 1, purchase(3_720))?;
    assert_eq!(rt; fen(&shandong(), &large)?, 203_447);
    let march = with(&year(3, 0, 13), 3, purchase(1_100))?;
    assert_eq!(rt; fen(&shandong(), &march)?, 60_159);
    let filed = sheet_of(marked_after(&year(1, 0, 13), 5, Marking::MultiPerson))?;
    let split = shandong().split(&filed);
    assert!(rt; split.shares().len() == 3);
    assert_eq!(rt; split.shares()[0].limit, Some(Kwh { kwh: 3_220 }));
    let settled = sheet_of(marked_after(march.rows(), 7, Marking::Uncount))?;
    assert_eq!(rt; fen(&shandong(), &settled)?, 60_409);
    Ok(())
}

#[test]
fn time_of_use_and_flat_prices(rt: HostRuntime) -> Result<(), Fail> {
    let january = with(&year(1, 0, 1), 1, reading(100, 200))?;
    let june = with(&year(1, 0, 1), 6, reading(100, 200))?;
    assert_eq!(rt; fen(&shandong_time_of_use(), &january)?, 12_707);
    assert_eq!(rt; fen(&shandong_time_of_use(), &june)?, 13_307);
    let hundred = with(&year(1, 0, 13), 1, purchase(100))?;
    assert_eq!(rt; shared_meters().charge(&hundred)?.units, 555_000);
    assert_eq!(rt; chargers().charge(&january)?.units, 1_495_000);
    assert_eq!(rt; chargers().charge(&june)?.units, 1_495_000);
    Ok(())
}
