//! The chained ledger: numbers 1 to 200, tables of 0, 1, 2 and 3 cells, and the chains through them.
use super::{UNUSED, bounds, enrols, purchase};
use chained::chained::ChainedLedger;
use chained::lending::open_with_both;
use chained::linking::room;
use fault::refused;
use ledger::ledger::Ledger;
use std::test::Fail;

// A line that should be there.
#[derive(Clone, Copy, Debug)]
struct NoLine;

#[test]
fn numbers_and_amounts(rt: HostRuntime) -> Result<(), Fail> {
    let mut table = [UNUSED; 2];
    let mut ledger = ChainedLedger::new(&mut table);
    enrols(&rt, &mut ledger, 200, 201)?;
    bounds(&rt, &mut ledger)
}

#[test]
fn no_cells_and_one(rt: HostRuntime) -> Result<(), Fail> {
    let mut none = [UNUSED; 0];
    let mut empty = ChainedLedger::new(&mut none);
    empty.enrol(1)?;
    assert_eq!(rt; empty.free(), 0);
    assert_eq!(rt; refused(empty.post(purchase(1, 1))), Some(14));
    assert_eq!(rt; empty.newest(1)?, 0);
    assert_eq!(rt; refused(empty.newest(0)), Some(12));
    assert_eq!(rt; refused(empty.newest(201)), Some(12));
    let mut one = [UNUSED; 1];
    let mut small = ChainedLedger::new(&mut one);
    small.enrol(200)?;
    assert_eq!(rt; refused(small.post(purchase(200, -7))), None);
    assert_eq!(rt; refused(small.post(purchase(200, 1))), Some(14));
    assert_eq!(rt; small.newest(200)?, 1);
    assert_eq!(rt;
        refused(open_with_both(&mut [UNUSED; 1], 9, purchase(9, 5), purchase(9, 6))),
        Some(14)
    );
    assert_eq!(rt; one[0].number, 200);
    assert_eq!(rt; one[0].next, 0);
    assert_eq!(rt; one[0].item.fen.fen, -7);
    Ok(())
}

// Lines 1 and 3 are of number 7, and line 2 is of number 200: 5 - 9 = -4.
#[test]
fn two_chains(rt: HostRuntime) -> Result<(), Fail> {
    let mut table = [UNUSED; 3];
    let mut ledger = ChainedLedger::new(&mut table);
    ledger.enrol(7)?;
    ledger.enrol(200)?;
    ledger.post(purchase(7, 5))?;
    ledger.post(purchase(200, 6))?;
    ledger.post(purchase(7, -9))?;
    assert_eq!(rt; ledger.count(7)?, 2);
    assert_eq!(rt; ledger.sum(7)?.fen, -4);
    assert_eq!(rt; ledger.newest(7)?, 3);
    assert_eq!(rt; ledger.newest(200)?, 2);
    assert_eq!(rt; refused(ledger.newest(8)), Some(12));
    assert!(rt; ledger.line(0).is_none());
    assert!(rt; ledger.line(4).is_none());
    assert_eq!(rt; ledger.free(), 0);
    assert_eq!(rt; refused(ledger.post(purchase(7, 1))), Some(14));
    assert_eq!(rt; table[2].next, 1);
    assert_eq!(rt; table[1].next, 0);
    assert_eq!(rt; table[0].next, 0);
    Ok(())
}

// A line is found as it was posted.
#[test]
fn a_line(rt: HostRuntime) -> Result<(), Fail> {
    let mut table = [UNUSED; 3];
    let mut ledger = ChainedLedger::new(&mut table);
    ledger.enrol(7)?;
    ledger.post(purchase(7, 5))?;
    assert!(rt; ledger.line(2).is_none());
    let line = ledger.line(1).ok_or(NoLine)?;
    assert_eq!(rt; line.number, 7);
    assert_eq!(rt; line.next, 0);
    assert_eq!(rt; line.item.cause.letter(), 'B');
    assert_eq!(rt; line.item.year, 2023);
    assert_eq!(rt; line.item.month, 4);
    assert_eq!(rt; line.item.fen.fen, 5);
    Ok(())
}

// An index is at most 65,535, so a table has no more lines than that.
#[test]
fn room_of_large_tables(rt: HostRuntime) {
    assert_eq!(rt; room(0), 0);
    assert_eq!(rt; room(65_535), 65_535);
    assert_eq!(rt; room(65_536), 65_535);
}

#[test]
fn the_lenders_table(rt: HostRuntime) {
    let mut table = [UNUSED; 3];
    assert_eq!(rt;
        refused(open_with_both(&mut table, 201, purchase(201, 5), purchase(201, 6))),
        Some(12)
    );
    assert_eq!(rt;
        refused(open_with_both(&mut table, 9, purchase(9, 5), purchase(8, 6))),
        Some(12)
    );
    assert_eq!(rt; table[0].number, 0);
    assert_eq!(rt;
        refused(open_with_both(&mut table, 9, purchase(9, 5), purchase(9, 6))),
        None
    );
    assert_eq!(rt; table[0].item.fen.fen, 5);
    assert_eq!(rt; table[1].item.fen.fen, 6);
    assert_eq!(rt; table[1].next, 1);
    assert_eq!(rt; table[2].number, 0);
}
