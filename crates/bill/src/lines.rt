//! The lines of a bill: plain data.
use sheet::quantity::{Fen, Kwh, Units};
use tariff::band::Share;

/// A line of a bill.
#[derive(Clone, Copy)]
pub enum Line {
    /// What one month used, and whether it has the larger allowance.
    Month { month: u64, kwh: Kwh, multi: bool },
    /// What the year used.
    Total { kwh: Kwh },
    /// How far one tier reaches, what it took, at which price, and what that costs.
    Tier { tier: u64, share: Share },
    /// What all tiers cost, and that in whole fen.
    Sum { charge: Units, fen: Fen },
}
