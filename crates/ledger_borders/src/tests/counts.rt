//! The counting ledger: numbers 1 to 64, and the free lines that it is given, up to 100,000.
use super::{bounds, enrols, purchase};
use fault::refused;
use ledger::counting::CountingLedger;
use ledger::ledger::Ledger;
use std::test::Fail;

#[test]
fn numbers_and_amounts(rt: HostRuntime) -> Result<(), Fail> {
    let mut ledger = CountingLedger::new(2);
    enrols(&rt, &mut ledger, 64, 65)?;
    bounds(&rt, &mut ledger)
}

#[test]
fn free_lines(rt: HostRuntime) -> Result<(), Fail> {
    let mut none = CountingLedger::new(0);
    none.enrol(1)?;
    assert_eq!(rt; refused(none.post(purchase(1, 1))), Some(14));
    assert_eq!(rt; CountingLedger::new(99_999).free(), 99_999);
    assert_eq!(rt; CountingLedger::new(100_000).free(), 100_000);
    assert_eq!(rt; CountingLedger::new(100_001).free(), 100_000);
    assert_eq!(rt; CountingLedger::new(u64::MAX).free(), 100_000);
    Ok(())
}
