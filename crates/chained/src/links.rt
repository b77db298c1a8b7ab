//! How the records of account numbers are chained through a table.
ghost use Rattle.std.specs.Prelude.{◌≡◌, length};
ghost use Rattle.chained.specs.declared.links.TheConstants.{NUMBERS};

/// The greatest account number that has a chain.
pub(crate) const NUMBERS: usize = 200;

/// The chains of the account numbers 1 to 200: how many cells of the table are used, and the index of each number's
/// newest record, 0 where it has none.
// Plain indices, 0 for none, as in a cell: what a head says is written as the next index of a record.
#[derive(Drop)]
pub struct Links {
    // Where the next record goes, beside the lent table: the length of a slice counts its unused cells too.
    pub(crate) used: usize,
    pub(crate) heads: [u16; NUMBERS],
    ghost sized: { length heads ≡ NUMBERS },
}
