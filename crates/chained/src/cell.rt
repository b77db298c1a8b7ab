//! The cells of a table that holds records in chains.
use ledger::posting::Entry;

/// A record of an account number, and the index of the number's record before it: 0 where there is none.
// A plain index, 0 for none: the rules have a chain lead by indices through a lent table, and 0 end it.
#[derive(Clone, Copy)]
pub struct Cell<R> {
    pub number: u64,
    pub next: u16,
    pub item: R,
}

/// A line of a ledger.
pub type Line = Cell<Entry>;
