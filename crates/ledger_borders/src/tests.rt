//! What the tests share: postings, and what every ledger must answer.
mod chains;
mod counts;
mod names;
mod pairs;

use chained::cell::Line;
use fault::refused;
use ledger::ledger::Ledger;
use ledger::posting::{Cause, Entry, Posting};
use ledger::refusal::LedgerFault;
use sheet::quantity::Fen;
use std::process::Abort;
use std::test::Fail;

const UNUSED: Line = Line {
    number: 0,
    next: 0,
    item: Entry {
        cause: Cause::Reading,
        year: 0,
        month: 0,
        fen: Fen { fen: 0 },
    },
};

fn purchase(number: u64, fen: i64) -> Posting {
    Posting {
        number,
        entry: Entry {
            cause: Cause::Purchase,
            year: 2023,
            month: 4,
            fen: Fen { fen },
        },
    }
}

fn sum_of<L: Ledger>(ledger: &L, number: u64) -> Result<i64, LedgerFault> {
    Ok(ledger.sum(number)?.fen)
}

// The numbers at both ends are enrolled once each, and those outside are not.
fn enrols<L: Ledger>(
    rt: &impl Abort,
    ledger: &mut L,
    greatest: u64,
    past: u64,
) -> Result<(), Fail> {
    assert_eq!(rt; L::GREATEST, greatest);
    assert_eq!(rt; L::largest(), greatest);
    for outside in [0, past, u64::MAX] {
        assert_eq!(rt; refused(ledger.enrol(outside)), Some(12));
        assert_eq!(rt; refused(ledger.count(outside)), Some(12));
        assert_eq!(rt; refused(ledger.post(purchase(outside, 1))), Some(12));
        assert!(rt; !ledger.enrolled(outside));
    }
    for number in [1, greatest] {
        assert_eq!(rt; refused(ledger.sum(number)), Some(12));
        assert_eq!(rt; refused(ledger.post(purchase(number, 1))), Some(12));
        assert_eq!(rt; refused(ledger.enrol(number)), None);
        assert_eq!(rt; refused(ledger.enrol(number)), Some(12));
        assert!(rt; ledger.enrolled(number));
        assert_eq!(rt; ledger.count(number)?, 0);
        assert_eq!(rt; sum_of(ledger, number)?, 0);
    }
    Ok(())
}

// With two lines free: amounts at the bound are posted and those past it refused, before and after the ledger is full.
fn bounds<L: Ledger>(rt: &impl Abort, ledger: &mut L) -> Result<(), Fail> {
    assert_eq!(rt; ledger.free(), 2);
    assert_eq!(rt;
        refused(ledger.post(purchase(1, 10_000_000_000_001))),
        Some(13)
    );
    assert_eq!(rt;
        refused(ledger.post(purchase(1, -10_000_000_000_001))),
        Some(13)
    );
    assert_eq!(rt; refused(ledger.post(purchase(1, i64::MIN))), Some(13));
    assert_eq!(rt;
        refused(ledger.post(purchase(2, 10_000_000_000_001))),
        Some(12)
    );
    assert_eq!(rt; refused(ledger.post(purchase(1, 10_000_000_000_000))), None);
    assert_eq!(rt; sum_of(ledger, 1)?, 10_000_000_000_000);
    assert_eq!(rt;
        refused(ledger.post(purchase(1, -10_000_000_000_000))),
        None
    );
    assert_eq!(rt; sum_of(ledger, 1)?, 0);
    assert_eq!(rt; ledger.count(1)?, 2);
    assert_eq!(rt; ledger.free(), 0);
    assert_eq!(rt; refused(ledger.post(purchase(1, 1))), Some(14));
    assert_eq!(rt;
        refused(ledger.post(purchase(1, 10_000_000_000_001))),
        Some(13)
    );
    assert_eq!(rt; refused(ledger.post(purchase(2, 1))), Some(12));
    Ok(())
}
