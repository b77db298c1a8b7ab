//! What is kept of one account number: how many lines it has, and their sum.
use sheet::quantity::Fen;

/// The line count and the fen sum of an account number.
#[derive(Clone, Copy)]
pub struct Balance {
    pub count: u64,
    pub sum: Fen,
}
