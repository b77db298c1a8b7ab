//! What the lender of a table knows of it when the ledger is gone.
ghost use Rattle.std.specs.Prelude.{◌≡◌, [], ◌∷◌, length};
ghost use Rattle.ledger.specs.Postings.{posts, steps_of};
ghost use Rattle.chained.specs.Lines.{filled, opened_answer};

use crate::cell::Line;
use crate::chained::ChainedLedger;
use ledger::both::post_both;
use ledger::ledger::Ledger;
use ledger::posting::Posting;
use ledger::refusal::LedgerFault;

/// Enrols a number in a new ledger over a table, and posts two lines or none.
// Two parameters, as in `check_both`.
pub fn open_with_both(
    table: &mut [Line],
    number: u64,
    first: Posting,
    second: Posting,
) -> Result<(), LedgerFault>
    ensures answer { result ≡ opened_answer (length table.old) number first second }
    ensures table { table.new ≡ filled table.old 0 (steps_of result (posts first ∷ posts second ∷ [])) }
{
    let mut ledger = ChainedLedger::new(table);
    ledger.enrol(number)?;
    post_both(&mut ledger, first, second)
}
