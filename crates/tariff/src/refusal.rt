//! Why a tariff refuses.
ghost use Rattle.std.specs.Prelude.{◌≡◌};
ghost use Rattle.tariff.specs.Faults.{code};

use fault::{Code, Layer, Refusal};

/// Why a tariff refuses.
#[derive(Clone, Copy, PartialEq, Eq, Debug)]
pub enum TariffFault {
    /// Asked for a charge, the dearest price is above 100,000.
    TooDear,
    /// The values of a tariff are outside the rules.
    Unlawful,
}

impl TariffFault {
    /// Its number, layer and place.
    // A method of its own beside the trait's, so that a caller need not import the trait.
    pub fn code(self) -> Code
        ensures { result ≡ code self }
    {
        let number = match self {
            TariffFault::TooDear => 11,
            TariffFault::Unlawful => 16,
        };
        Code {
            number,
            layer: Layer::Tariff,
            place: 0,
        }
    }
}

impl Refusal for TariffFault {
    ghost code = { code };

    fn code(self) -> Code {
        TariffFault::code(self)
    }
}
