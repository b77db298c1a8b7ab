//! Two lines or none, in any ledger.
ghost use Rattle.std.specs.Prelude.{◌≡◌, List, [], ◌∷◌};
ghost use Rattle.ledger.specs.Postings as postings;
ghost use Rattle.ledger.specs.Postings.{Step, posts};

use crate::balancing::payable;
use crate::ledger::Ledger;
use crate::posting::Posting;
use crate::refusal::LedgerFault;

/// Whether two lines can be posted, one after the other.
// Two parameters and no array, of which each clause would have to say which place it means.
pub fn check_both<L: Ledger>(ledger: &L, first: Posting, second: Posting) -> Result<(), LedgerFault>
    ensures { result ≡ postings.both_answer L.Ledger.top (L.Ledger.book ledger.now) first second }
{
    ledger.count(first.number)?;
    ledger.count(second.number)?;
    if !payable(first) || !payable(second) {
        return Err(LedgerFault::Amount);
    }
    if ledger.free() < 2 {
        return Err(LedgerFault::Full);
    }
    Ok(())
}

/// Posts two lines, or none.
// Two parameters, as in `check_both`.
pub fn post_both<L: Ledger>(
    ledger: &mut L,
    first: Posting,
    second: Posting,
) -> Result<(), LedgerFault>
    ensures answer { result ≡ postings.both_answer L.Ledger.top (L.Ledger.book ledger.old) first second }
    ensures after { L.Ledger.book ledger.new ≡ postings.book_after (L.Ledger.book ledger.old) (postings.steps_of result (posts first ∷ posts second ∷ [])) }
    ensures records { postings.Recorded L.Ledger.wrote L.Ledger.kept ledger.old (postings.steps_of result (posts first ∷ posts second ∷ [])) ledger.new }
    ensures runs { (l m : L) (steps : List Step) → postings.Recorded L.Ledger.wrote L.Ledger.kept l steps m → L.Ledger.book m ≡ postings.book_after (L.Ledger.book l) steps }
{
    check_both(ledger, first, second)?;
    ledger.post(first)?;
    ledger.post(second)
}
