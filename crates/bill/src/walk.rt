//! The lines of a bill, one after the other.
ghost use Rattle.std.specs.Prelude.{◌≡◌};
ghost use Rattle.std.specs.Iterator.{YieldsFirst, item_count};
ghost use Rattle.bill.specs.Lines.{lines};
ghost use Rattle.bill.specs.Walks.{to_come};

use crate::bill::Bill;
use crate::lines::Line;
use std::ops::Range;

/// The lines of a bill that are still to come.
// By places: what is left of the four kinds would be four fields, the months' with the rows' limit as its invariant.
#[derive(Drop)]
pub struct Lines<'a> {
    bill: &'a Bill,
    places: Range<usize>,
}

impl Iterator for Lines<'_> {
    type Item = Line;

    ghost next_gives = { YieldsFirst to_come };

    ghost remaining = { item_count to_come };

    #[tactic(auto, using(crate::proofs::Listed::walked, crate::proofs::Listed::walk_goes))]
    fn next(&mut self) -> Option<Line> {
        self.bill.line(self.places.next()?)
    }
}

impl Bill {
    /// Its lines, one after the other.
    pub fn lines(&self) -> Lines<'_>
        ensures { to_come result ≡ lines self.now.sheet.rows }
    {
        Lines {
            bill: self,
            places: 0..self.len(),
        }
    }
}
