//! The three quantities, kept apart: energy in kWh, charges in units of 0.0001 yuan, money in fen of 100 units.
ghost use Rattle.std.specs.Prelude.{◌≡◌, pos};
ghost use Rattle.sheet.specs.Money.{rounded};

/// Energy in whole kWh.
#[derive(Clone, Copy, PartialEq, Eq, PartialOrd, Ord, Debug)]
pub struct Kwh {
    pub kwh: u64,
}

/// A price per kWh, or a charge, in units of 0.0001 yuan.
#[derive(Clone, Copy, PartialEq, Eq, PartialOrd, Ord, Debug)]
pub struct Units {
    pub units: u64,
}

/// Money in fen, 100 to the yuan. A negative amount is owed to the household.
#[derive(Clone, Copy, PartialEq, Eq, PartialOrd, Ord, Debug)]
pub struct Fen {
    pub fen: i64,
}

impl Units {
    /// The one way from units to fen: to the nearest fen, a half up.
    // No `From`: it loses what it rounds, and one function is to go from units to fen.
    pub fn to_fen(self) -> Fen
        ensures { result.fen ≡ pos (rounded self.units) }
    {
        // In 128 bits, so that the half added cannot overflow.
        Fen {
            fen: ((u128::from(self.units) + 50) / 100) as i64,
        }
    }
}
