//! A ledger of counts and sums alone.
ghost use Rattle.std.specs.Prelude.{◌≡◌, min};
ghost use Rattle.ledger.specs.declared.counting.TheConstants.{NUMBERS};
ghost use Rattle.ledger.specs.Book as means;
ghost use Rattle.ledger.specs.Held.{counting_book};
ghost use Rattle.ledger.specs.Lawful.{lawful_book};

use crate::balances::Balances;
use crate::ledger::Ledger;
use crate::posting::Posting;
use crate::refusal::LedgerFault;
use sheet::quantity::Fen;

/// The greatest account number.
const NUMBERS: usize = 64;

/// Counts and sums of the numbers 1 to 64.
#[derive(Drop)]
pub struct CountingLedger {
    balances: Balances<NUMBERS>,
}

impl CountingLedger {
    /// No number enrolled, and the free lines given, or 100,000 if that is less.
    pub fn new(free: u64) -> CountingLedger
        ensures { counting_book result ≡ means.blank (min free means.line_limit) }
    {
        CountingLedger {
            balances: Balances::new(free),
        }
    }
}

impl Ledger for CountingLedger {
    const GREATEST: u64 = NUMBERS as u64;

    ghost top = { NUMBERS };

    ghost book = { counting_book };

    ghost lawful = { λ l. lawful_book l.balances };

    // Counts and sums are all its records.
    ghost wrote = { λ l p m. counting_book m ≡ means.with_line (counting_book l) p };

    ghost kept = { λ l n m. counting_book m ≡ means.with_number (counting_book l) n };

    ghost tells = { λ l p m w. w };

    ghost keeps = { λ l n m k. k };

    fn largest() -> u64
        ensures { result ≡ 64 }
    {
        Self::GREATEST
    }

    // Passed on in both ledgers: a trait to provide these four would need another for `Balances<N>`, with the same four in it.
    fn free(&self) -> u64 {
        self.balances.free()
    }

    fn enrolled(&self, number: u64) -> bool {
        self.balances.enrolled(number)
    }

    fn count(&self, number: u64) -> Result<u64, LedgerFault> {
        self.balances.count(number)
    }

    fn sum(&self, number: u64) -> Result<Fen, LedgerFault> {
        self.balances.sum(number)
    }

    fn enrol(&mut self, number: u64) -> Result<(), LedgerFault> {
        self.balances.enrol(number)
    }

    fn post(&mut self, posting: Posting) -> Result<(), LedgerFault> {
        self.balances.post(posting)
    }
}
