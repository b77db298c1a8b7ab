//! Counts and sums of the account numbers 1 to N, and how many lines are free.
ghost use Rattle.std.specs.Prelude.{◌≡◌, ℕ, ◌+◌, ◌*◌, ◌≤◌, length, None, sum_by, slice_index_or, unsigned_abs};
ghost use Rattle.ledger.specs.Book.{line_limit, amount_limit};
ghost use Rattle.ledger.specs.Rows as rowed;

use crate::balance::Balance;

/// The balance of each enrolled number, and the free lines: at most 100,000 lines in all, and no sum beyond its count
/// times 10,000,000,000,000 fen.
// Clauses say `book_of`: a model's value cannot hold functions, as a book does, so clauses would still name the book by one.
#[derive(Drop)]
pub struct Balances<const N: usize> {
    pub(crate) rows: [Option<Balance>; N],
    pub(crate) free: u64,
    ghost sized: { length rows ≡ N },
    ghost room: { sum_by rowed.count_of rows + free ≤ line_limit },
    ghost bounded: { (k : ℕ) → unsigned_abs (rowed.sum_of (slice_index_or rows k None)) ≤ rowed.count_of (slice_index_or rows k None) * amount_limit },
}
