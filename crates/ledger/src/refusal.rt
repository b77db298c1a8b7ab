//! Why a ledger refuses.
ghost use Rattle.std.specs.Prelude.{◌≡◌};
ghost use Rattle.ledger.specs.Codes.{code};

use fault::{Code, Layer, Refusal};

/// Why a ledger refuses.
#[derive(Clone, Copy, PartialEq, Eq, Debug)]
pub enum LedgerFault {
    /// The number is outside 1 to the greatest; already enrolled, when enrolling; not enrolled, in any other call.
    Number,
    /// The amount of the line is outside ±10,000,000,000,000 fen.
    Amount,
    /// No line is free, or fewer than are wanted.
    Full,
}

impl LedgerFault {
    /// Its number, layer and place.
    // A method of its own beside the trait's, so that a caller need not import the trait.
    pub fn code(self) -> Code
        ensures { result ≡ code self }
    {
        let number = match self {
            LedgerFault::Number => 12,
            LedgerFault::Amount => 13,
            LedgerFault::Full => 14,
        };
        Code {
            number,
            layer: Layer::Ledger,
            place: 0,
        }
    }
}

impl Refusal for LedgerFault {
    ghost code = { code };

    fn code(self) -> Code {
        LedgerFault::code(self)
    }
}
