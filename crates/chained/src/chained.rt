//! A ledger whose lines stand in a lent table.
ghost use Rattle.std.specs.Prelude.{◌≡◌, ◌+◌, length};
ghost use Rattle.ledger.specs.Held.{book_of};
ghost use Rattle.chained.specs.Chain as chain;
ghost use Rattle.chained.specs.Linked as link;

use crate::cell::Line;
use crate::links::{Links, NUMBERS};
use ledger::balances::Balances;

/// Enrols the numbers 1 to 200. The lines of each number are chained through the table, and its count and sum are those
/// of its lines.
#[derive(Drop)]
pub struct ChainedLedger<'a> {
    pub(crate) table: &'a mut [Line],
    pub(crate) links: Links,
    pub(crate) balances: Balances<NUMBERS>,
    ghost room: { links.used + (book_of balances).free ≡ link.room (length table.now) },
    ghost headed: { chain.Heads links.heads (chain.number_at table.now) links.used },
    ghost nexts: { chain.Nexts (chain.number_at table.now) (chain.next_at table.now) links.used },
    ghost counted: { chain.Counts (book_of balances).count table.now links.used },
    ghost summed: { chain.Sums (λ e. e.fen.fen) (book_of balances).sum table.now links.used },
}
