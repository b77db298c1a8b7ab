//! A line as it is posted.
ghost use Rattle.std.specs.Prelude.{◌≡◌};
ghost use Rattle.ledger.specs.Codes.{letter};

use sheet::quantity::Fen;

/// What a line was posted for.
#[derive(Clone, Copy)]
pub enum Cause {
    Reading,
    Purchase,
    /// The filing of a multi-person household.
    MultiPerson,
    /// The filing of time of use.
    TimeOfUse,
    /// The withdrawal of time of use.
    Withdrawal,
    Payment,
    /// The recount of a clearing.
    Settlement,
    /// What a clearing takes.
    Clearing,
}

impl Cause {
    /// The letter that stands for it.
    // No `From<Cause> for char`, which is no shorter: the method's name says which char it is.
    pub fn letter(self) -> char
        ensures { result ≡ letter self }
    {
        match self {
            Cause::Reading => 'R',
            Cause::Purchase => 'B',
            Cause::MultiPerson => 'M',
            Cause::TimeOfUse => 'U',
            Cause::Withdrawal => 'W',
            Cause::Payment => 'P',
            Cause::Settlement => 'S',
            Cause::Clearing => 'K',
        }
    }
}

/// What a line says: its cause, its year and month, and its amount.
#[derive(Clone, Copy)]
pub struct Entry {
    pub cause: Cause,
    pub year: u64,
    pub month: u64,
    pub fen: Fen,
}

/// An entry to be posted under an account number.
#[derive(Clone, Copy)]
pub struct Posting {
    pub number: u64,
    pub entry: Entry,
}
