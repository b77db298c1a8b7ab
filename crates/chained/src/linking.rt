//! Records of any kind put into chains, and found again.
ghost use Rattle.std.specs.Prelude.{◌≡◌, replicate, MatchBool};
ghost use Rattle.chained.specs.Chain as chain;
ghost use Rattle.chained.specs.Linked as link;

use crate::cell::Cell;
use crate::links::{Links, NUMBERS};
use ledger::numbers::place;

/// The greatest index of a record.
const GREATEST_INDEX: usize = u16::MAX as usize;

/// How many of a table's cells can be used: all, or 65,535 if that is less.
pub fn room(cells: usize) -> usize
    ensures { result ≡ link.room cells }
{
    cells.min(GREATEST_INDEX)
}

impl Links {
    /// No records yet.
    pub fn new() -> Links
        ensures used { result.used ≡ 0 }
        ensures heads { result.heads ≡ replicate NUMBERS 0 }
    {
        Links {
            used: 0,
            heads: [0; NUMBERS],
        }
    }

    /// The cell of a new record and its place in a table of so many cells; none where the number has no chain, or no
    /// cell is left that an index can name.
    pub fn next_cell<R: Copy>(&self, number: u64, item: R, cells: usize) -> Option<(usize, Cell<R>)>
        ensures { result ≡ link.next_cell self.now number item cells }
    {
        let i = place(number, NUMBERS)?;
        if self.used >= room(cells) {
            return None;
        }
        let next = self.heads[i];
        Some((self.used, Cell { number, next, item }))
    }

    /// Puts the next place at the front of a number's chain; all stays as it is where the number has no chain, or no
    /// index is left.
    pub fn link(&mut self, number: u64)
        ensures { MatchBool (link.may_link self.old number) (link.Linked number self.old self.new) (self.new ≡ self.old) }
    {
        let Some(i) = place(number, NUMBERS) else {
            return;
        };
        if self.used >= GREATEST_INDEX {
            return;
        }
        self.used += 1;
        self.heads[i] = self.used as u16;
    }

    /// The index of a number's newest record; 0 where it has none.
    // No `Option`: this is the next index of the record to come, where 0 is the chain's end.
    pub fn newest(&self, number: u64) -> u16
        ensures { result ≡ chain.head self.now.heads number }
    {
        place(number, NUMBERS).map_or(0, |i| self.heads[i])
    }

    /// The cell of a table at an index, counted from 1; none where no record has that index.
    pub fn cell_at<R: Copy>(&self, table: &[Cell<R>], index: u16) -> Option<Cell<R>>
        ensures { result ≡ link.cell_at self.now table.now index }
    {
        table.get(place(u64::from(index), self.used)?).copied()
    }
}
