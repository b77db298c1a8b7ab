//! Where an account number stands in a table that has a place for each.
ghost use Rattle.std.specs.Prelude.{◌≡◌};
ghost use Rattle.ledger.specs.Rows as rowed;

/// The place of an account number among those from 1 to `n`; none outside them.
pub fn place(number: u64, n: usize) -> Option<usize>
    ensures { result ≡ rowed.place number n }
{
    let i = number.checked_sub(1)?;
    (i < n as u64).then_some(i as usize)
}
