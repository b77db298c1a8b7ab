//! The numbers of the refusals, and the letters of the causes.
use fault::{Code, Layer};
use ledger::posting::Cause;
use ledger::refusal::LedgerFault;

fn of_ledger(number: u8) -> Code {
    Code {
        number,
        layer: Layer::Ledger,
        place: 0,
    }
}

#[test]
fn refusals_and_causes(rt: HostRuntime) {
    assert_eq!(rt; LedgerFault::Number.code(), of_ledger(12));
    assert_eq!(rt; LedgerFault::Amount.code(), of_ledger(13));
    assert_eq!(rt; LedgerFault::Full.code(), of_ledger(14));
    assert_eq!(rt; Cause::Reading.letter(), 'R');
    assert_eq!(rt; Cause::Purchase.letter(), 'B');
    assert_eq!(rt; Cause::MultiPerson.letter(), 'M');
    assert_eq!(rt; Cause::TimeOfUse.letter(), 'U');
    assert_eq!(rt; Cause::Withdrawal.letter(), 'W');
    assert_eq!(rt; Cause::Payment.letter(), 'P');
    assert_eq!(rt; Cause::Settlement.letter(), 'S');
    assert_eq!(rt; Cause::Clearing.letter(), 'K');
}
