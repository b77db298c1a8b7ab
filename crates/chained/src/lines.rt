//! Lines posted into the table, and read from it.
ghost use Rattle.std.specs.Prelude.{◌≡◌, List, length, replicate, IfOk};
ghost use Rattle.ledger.specs.Book as means;
ghost use Rattle.ledger.specs.Lawful.{lawful_book};
ghost use Rattle.ledger.specs.Postings.{Step, Recorded};
ghost use Rattle.chained.specs.declared.chained.ChainedLedger.{ChainedLedger};
ghost use Rattle.chained.specs.declared.links.TheConstants.{NUMBERS};
ghost use Rattle.chained.specs.Chain as chain;
ghost use Rattle.chained.specs.Lines as lines;
ghost use Rattle.chained.specs.Linked as link;
ghost use Rattle.chained.specs.Telling.{wrote_tells};

use crate::cell::Line;
use crate::chained::ChainedLedger;
use crate::linking::room;
use crate::links::{Links, NUMBERS};
use ledger::balances::Balances;
use ledger::ledger::Ledger;
use ledger::posting::Posting;
use ledger::refusal::LedgerFault;
use sheet::quantity::Fen;

impl<'a> ChainedLedger<'a> {
    /// No number enrolled; the free lines are the cells of the table, or 65,535 if that is less. Whatever is done to the
    /// ledger, its table is the one that was lent, and holds the lines posted since.
    pub fn new(table: &'a mut [Line]) -> ChainedLedger<'a>
        ensures book { lines.chained_book result ≡ means.blank (link.room (length table.old)) }
        ensures used { result.links.used ≡ 0 }
        ensures heads { result.links.heads ≡ replicate NUMBERS 0 }
        ensures table { result.table.now ≡ table.old }
        ensures lent { result.table.ghost_name ≡ table.entry.ghost_name }
        ensures lender { (m : ChainedLedger) (steps : List Step) → Recorded lines.Wrote lines.Kept result steps m → (m.table.now ≡ lines.filled table.old 0 steps) × (m.table.ghost_name ≡ table.entry.ghost_name) }
    {
        let free = room(table.len()) as u64;
        ChainedLedger {
            table,
            links: Links::new(),
            balances: Balances::new(free),
        }
    }

    /// The index of a number's newest line; 0 where it has none. Walked from there by `next`, its chain has exactly its
    /// lines, newest first, as many as its count, and they come to its sum.
    // No `Option`: a walk begins with this index and ends at 0, as a line's next does.
    pub fn newest(&self, number: u64) -> Result<u16, LedgerFault>
        ensures answer { result ≡ means.answer_about NUMBERS (lines.chained_book self.now) number (chain.newest_of self.now.table.now self.now.links.used number) }
        ensures chain { IfOk result (λ i. chain.ChainOf lines.fen_of self.now.table.now self.now.links.used number i ((lines.chained_book self.now).count number) ((lines.chained_book self.now).sum number)) }
    {
        self.count(number)?;
        Ok(self.links.newest(number))
    }

    /// The line at an index, counted from 1 as posted; none where there is no such line.
    pub fn line(&self, index: u16) -> Option<Line>
        ensures { result ≡ link.cell_at self.now.links self.now.table.now index }
    {
        self.links.cell_at(self.table, index)
    }
}

impl<'a> Ledger for ChainedLedger<'a> {
    const GREATEST: u64 = NUMBERS as u64;

    ghost top = { NUMBERS };

    ghost book = { lines.chained_book };

    ghost lawful = { λ l. lawful_book l.balances };

    ghost wrote = { lines.Wrote };

    ghost kept = { lines.Kept };

    ghost tells = { wrote_tells };

    ghost keeps = { λ l n m k. k.book };

    fn largest() -> u64
        ensures { result ≡ 200 }
    {
        Self::GREATEST
    }

    // Passed on in both ledgers: a trait to provide these four would need another for `Balances<N>`, with the same four in it.
    fn free(&self) -> u64 {
        self.balances.free()
    }

    fn enrolled(&self, number: u64) -> bool {
        self.balances.enrolled(number)
    }

    fn count(&self, number: u64) -> Result<u64, LedgerFault> {
        self.balances.count(number)
    }

    fn sum(&self, number: u64) -> Result<Fen, LedgerFault> {
        self.balances.sum(number)
    }

    fn enrol(&mut self, number: u64) -> Result<(), LedgerFault> {
        // Asked before anything is lent, so that a refusal leaves the whole ledger as it was.
        self.balances.check_enrol(number)?;
        self.balances.enrol(number)
    }

    fn post(&mut self, posting: Posting) -> Result<(), LedgerFault> {
        // Asked first, as in `enrol`.
        self.balances.check_post(posting)?;
        let cells = self.table.len();
        // A free line is a free cell, so there is a place.
        let (place, line) = self
            .links
            .next_cell(posting.number, posting.entry, cells)
            .unwrap();
        self.table[place] = line;
        self.links.link(posting.number);
        self.balances.post(posting)
    }
}
