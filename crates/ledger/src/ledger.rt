//! What every ledger means and shows.
ghost use Rattle.std.specs.Prelude.{◌≡◌, ℕ};
ghost use Rattle.ledger.specs.Book.{Book, Lawful};
ghost use Rattle.ledger.specs.Book as means;
ghost use Rattle.ledger.specs.declared.posting.Posting.{Posting};

use crate::posting::Posting;
use crate::refusal::LedgerFault;
use sheet::quantity::Fen;

/// Anything that keeps the lines of account numbers: known by its meaning, and by what a posting does to its records.
pub trait Ledger {
    /// The greatest account number that this kind of ledger enrols.
    const GREATEST: u64;

    /// The same in contracts, which cannot name the constant where a ledger has a lifetime.
    ghost top: { ℕ };

    /// What it means: which numbers are enrolled, the line count and fen sum of each, and the free lines.
    ghost book: { Self → Book };

    /// Every ledger shows that its book keeps to the laws.
    ghost lawful: { (l : Self) → Lawful top (book l) };

    /// What a granted posting does to the ledger's own records.
    ghost wrote: { Self → Posting → Self → Type 0 };

    /// What the granted enrolment of a number does to the ledger's own records.
    ghost kept: { Self → ℕ → Self → Type 0 };

    /// What a posting did to the records tells the book after it.
    ghost tells: { (l : Self) (p : Posting) (m : Self) → wrote l p m → book m ≡ means.with_line (book l) p };

    /// And so does what an enrolment did.
    ghost keeps: { (l : Self) (n : ℕ) (m : Self) → kept l n m → book m ≡ means.with_number (book l) n };

    /// The greatest account number that this kind of ledger enrols. Each ledger answers its constant, and its contract
    /// says which number that is.
    fn largest() -> u64
        ensures { result ≡ top };

    /// How many lines are free.
    fn free(&self) -> u64
        ensures { result ≡ (book self.now).free };

    /// Whether a number is enrolled.
    fn enrolled(&self, number: u64) -> bool
        ensures { result ≡ (book self.now).enrolled number };

    /// How many lines a number has.
    fn count(&self, number: u64) -> Result<u64, LedgerFault>
        ensures { result ≡ means.answer_about top (book self.now) number ((book self.now).count number) };

    /// What the lines of a number come to.
    fn sum(&self, number: u64) -> Result<Fen, LedgerFault>
        ensures { result ≡ means.answer_about top (book self.now) number (record { fen = (book self.now).sum number }) };

    /// Enrols a number, with no lines; refused with 12.
    fn enrol(&mut self, number: u64) -> Result<(), LedgerFault>
        ensures answer { result ≡ means.enrol_answer top (book self.old) number }
        ensures after { book self.new ≡ means.after result (means.with_number (book self.old) number) (book self.old) }
        ensures records { means.did result (kept self.old number self.new) (self.new ≡ self.old) };

    /// Posts a line; refused with 12, 13 or 14.
    fn post(&mut self, posting: Posting) -> Result<(), LedgerFault>
        ensures answer { result ≡ means.post_answer top (book self.old) posting }
        ensures after { book self.new ≡ means.after result (means.with_line (book self.old) posting) (book self.old) }
        ensures records { means.did result (wrote self.old posting self.new) (self.new ≡ self.old) };
}
