//! What every refusal tells: its number, the layer it comes from and its place.

#![tactic(auto)]

ghost use Rattle.std.specs.Prelude.{◌≡◌};
ghost use Rattle.fault.specs.Refusals.{refused};
ghost use Rattle.fault.specs.declared.Code.{Code};

/// The layer that a refusal comes from.
#[derive(Clone, Copy, PartialEq, Eq, Debug)]
pub enum Layer {
    Account,
    Tariff,
    Ledger,
    Text,
}

/// The number of a refusal, its layer, and its place within what was refused (0 where it has none).
// No `Option` for the place: the rules write 0 there.
#[derive(Clone, Copy, PartialEq, Eq, Debug)]
pub struct Code {
    pub number: u8,
    pub layer: Layer,
    pub place: u64,
}

/// A reason for which a call is refused.
pub trait Refusal: Copy {
    /// What each reason tells.
    ghost code: { Self → Code };

    /// Its number, layer and place.
    fn code(self) -> Code
        ensures { result ≡ code self };
}

/// The number of the refusal that a reply is, if it is one.
pub fn refused<T: Drop, F: Refusal>(reply: Result<T, F>) -> Option<u8>
    ensures { result ≡ refused F.Refusal.code reply }
{
    Some(reply.err()?.code().number)
}
