//! The counts and sums that every ledger keeps: asked, enrolled and posted to.
ghost use Rattle.std.specs.Prelude.{◌≡◌, ◌-◌, ◌*◌, ◌<◌, ◌≤◌, min, is_some, Ok, unsigned_abs};
ghost use Rattle.ledger.specs.Book as means;
ghost use Rattle.ledger.specs.Held.{book_of};
ghost use Rattle.ledger.specs.Rows as rowed;

use crate::balance::Balance;
use crate::balances::Balances;
use crate::numbers::place;
use crate::posting::Posting;
use crate::refusal::LedgerFault;
use sheet::quantity::Fen;

/// The most lines that a ledger holds, those that are free included.
const LINE_LIMIT: u64 = 100_000;

/// The largest amount of a line, in fen, either way.
const AMOUNT_LIMIT: u64 = 10_000_000_000_000;

impl<const N: usize> Balances<N> {
    /// No number enrolled, and the free lines given, or 100,000 if that is less.
    pub fn new(free: u64) -> Balances<N>
        ensures { book_of result ≡ means.blank (min free means.line_limit) }
    {
        let free = free.min(LINE_LIMIT);
        Balances {
            rows: [None; N],
            free,
        }
    }

    /// How many lines are free.
    pub fn free(&self) -> u64
        ensures { result ≡ (book_of self.now).free }
    {
        self.free // with the lines that are held, at most LINE_LIMIT
    }

    /// What is kept of a number: nothing where it is not enrolled.
    fn balance(&self, number: u64) -> Option<Balance>
        ensures row { result ≡ rowed.row self.now.rows number }
        ensures known { is_some result ≡ means.known N (book_of self.now) number }
    {
        self.rows[place(number, N)?]
    }

    /// Whether a number is enrolled.
    pub fn enrolled(&self, number: u64) -> bool
        ensures { result ≡ (book_of self.now).enrolled number }
    {
        self.balance(number).is_some()
    }

    /// What is kept of a number that is enrolled.
    fn known(&self, number: u64) -> Result<Balance, LedgerFault>
        ensures { result ≡ means.answer_about N (book_of self.now) number (record { count = (book_of self.now).count number; sum = record { fen = (book_of self.now).sum number } }) }
    {
        self.balance(number).ok_or(LedgerFault::Number)
    }

    /// How many lines a number has.
    pub fn count(&self, number: u64) -> Result<u64, LedgerFault>
        ensures { result ≡ means.answer_about N (book_of self.now) number ((book_of self.now).count number) }
    {
        Ok(self.known(number)?.count)
    }

    /// What the lines of a number come to.
    pub fn sum(&self, number: u64) -> Result<Fen, LedgerFault>
        ensures { result ≡ means.answer_about N (book_of self.now) number (record { fen = (book_of self.now).sum number }) }
    {
        Ok(self.known(number)?.sum)
    }

    /// Whether a number can be enrolled.
    pub fn check_enrol(&self, number: u64) -> Result<(), LedgerFault>
        ensures { result ≡ means.enrol_answer N (book_of self.now) number }
    {
        place(number, N).ok_or(LedgerFault::Number)?;
        if self.enrolled(number) {
            return Err(LedgerFault::Number);
        }
        Ok(())
    }

    /// Enrols a number that can be enrolled.
    fn start(&mut self, number: u64)
        requires { means.enrol_answer N (book_of self.old) number ≡ Ok tt }
        ensures { book_of self.new ≡ means.with_number (book_of self.old) number }
    {
        let i = place(number, N).unwrap();
        self.rows[i] = Some(Balance {
            count: 0,
            sum: Fen { fen: 0 },
        });
    }

    /// Enrols a number, with no lines.
    pub fn enrol(&mut self, number: u64) -> Result<(), LedgerFault>
        ensures answer { result ≡ means.enrol_answer N (book_of self.old) number }
        ensures after { book_of self.new ≡ means.after result (means.with_number (book_of self.old) number) (book_of self.old) }
        ensures refused { means.did result (Unit {0}) (self.new ≡ self.old) }
    {
        self.check_enrol(number)?;
        self.start(number);
        Ok(())
    }

    /// Whether a line can be posted.
    pub fn check_post(&self, posting: Posting) -> Result<(), LedgerFault>
        ensures { result ≡ means.post_answer N (book_of self.now) posting }
    {
        self.known(posting.number)?;
        if !payable(posting) {
            return Err(LedgerFault::Amount);
        }
        if self.free == 0 {
            return Err(LedgerFault::Full);
        }
        Ok(())
    }

    /// Posts a line that can be posted.
    fn add(&mut self, posting: Posting)
        requires { means.post_answer N (book_of self.old) posting ≡ Ok tt }
        ensures { book_of self.new ≡ means.with_line (book_of self.old) posting }
    {
        let old = self.balance(posting.number).unwrap();
        let new = old.grown(posting.entry.fen);
        let i = place(posting.number, N).unwrap();
        self.rows[i] = Some(new);
        self.free -= 1;
    }

    /// Posts a line: counts it and adds its amount.
    pub fn post(&mut self, posting: Posting) -> Result<(), LedgerFault>
        ensures answer { result ≡ means.post_answer N (book_of self.old) posting }
        ensures after { book_of self.new ≡ means.after result (means.with_line (book_of self.old) posting) (book_of self.old) }
        ensures refused { means.did result (Unit {0}) (self.new ≡ self.old) }
    {
        self.check_post(posting)?;
        self.add(posting);
        Ok(())
    }
}

impl Balance {
    /// The balance with one line more.
    fn grown(self, amount: Fen) -> Balance
        requires few { self.count < means.line_limit }
        requires bounded { unsigned_abs self.sum.fen ≤ self.count * means.amount_limit }
        requires payable { unsigned_abs amount.fen ≤ means.amount_limit }
        ensures { result ≡ rowed.grown self amount.fen }
    {
        let fen = self.sum.fen + amount.fen;
        Balance {
            count: self.count + 1,
            sum: Fen { fen },
        }
    }
}

/// Whether a line may hold the amount of a posting.
pub fn payable(posting: Posting) -> bool
    ensures { result ≡ means.payable posting }
{
    posting.entry.fen.fen.unsigned_abs() <= AMOUNT_LIMIT
}
