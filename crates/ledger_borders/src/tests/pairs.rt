//! Two lines or none.
use super::{purchase, sum_of};
use fault::refused;
use ledger::both::post_both;
use ledger::counting::CountingLedger;
use ledger::ledger::Ledger;
use std::test::Fail;

#[test]
fn both_or_none(rt: HostRuntime) -> Result<(), Fail> {
    let mut ledger = CountingLedger::new(3);
    ledger.enrol(1)?;
    ledger.enrol(2)?;
    assert_eq!(rt;
        refused(post_both(&mut ledger, purchase(1, 5), purchase(3, 6))),
        Some(12)
    );
    assert_eq!(rt;
        refused(post_both(&mut ledger, purchase(3, 5), purchase(1, 6))),
        Some(12)
    );
    assert_eq!(rt;
        refused(post_both(&mut ledger, purchase(1, 5), purchase(1, 10_000_000_000_001))),
        Some(13)
    );
    assert_eq!(rt;
        refused(post_both(
            &mut ledger,
            purchase(1, -10_000_000_000_001),
            purchase(1, 5),
        )),
        Some(13)
    );
    assert_eq!(rt;
        refused(post_both(&mut ledger, purchase(1, 10_000_000_000_001), purchase(3, 5))),
        Some(12)
    );
    assert_eq!(rt; ledger.count(1)?, 0);
    assert_eq!(rt;
        refused(post_both(&mut ledger, purchase(1, 5), purchase(2, -6))),
        None
    );
    assert_eq!(rt; sum_of(&ledger, 1)?, 5);
    assert_eq!(rt; sum_of(&ledger, 2)?, -6);
    assert_eq!(rt; ledger.free(), 1);
    assert_eq!(rt;
        refused(post_both(&mut ledger, purchase(1, 5), purchase(1, -5))),
        Some(14)
    );
    assert_eq!(rt; ledger.count(1)?, 1);
    assert_eq!(rt; ledger.free(), 1);
    Ok(())
}
