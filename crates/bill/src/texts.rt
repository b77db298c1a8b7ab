//! How a bill and its lines are printed.
ghost use Rattle.std.specs.Prelude.{Some};
ghost use Rattle.bill.specs.Lines.{lines};
ghost use Rattle.bill.specs.Texts as texts;

use crate::bill::Bill;
use crate::lines::Line;
use sheet::quantity::{Fen, Kwh, Units};
use std::fmt;

/// Units as yuan, with four decimals.
#[derive(Clone, Copy)]
pub struct UnitsAsYuan(pub Units);

impl fmt::Display for UnitsAsYuan {
    ghost output = { λ y. Some (texts.units_as_yuan y.0.units) };

    #[tactic(auto, using(crate::proofs::Digits::last_four))]
    fn fmt<W: fmt::Write>(&self, f: &mut fmt::Formatter<W>) -> fmt::Result {
        let units = self.0.units;
        write!(f, "{}.{:04}", units / 10_000, units % 10_000)
    }
}

/// Fen as yuan, with two decimals.
#[derive(Clone, Copy)]
pub struct FenAsYuan(pub Fen);

impl fmt::Display for FenAsYuan {
    ghost output = { λ y. Some (texts.fen_as_yuan y.0.fen) };

    #[tactic(auto, using(crate::proofs::Digits::last_two))]
    fn fmt<W: fmt::Write>(&self, f: &mut fmt::Formatter<W>) -> fmt::Result {
        let fen = self.0.fen;
        let sign = if fen < 0 { "-" } else { "" };
        let size = fen.unsigned_abs();
        write!(f, "{sign}{}.{:02}", size / 100, size % 100)
    }
}

/// How far a tier reaches, if not to the end.
#[derive(Clone, Copy)]
pub struct Reach(pub Option<Kwh>);

impl fmt::Display for Reach {
    ghost output = { λ r. Some (texts.reach r.0) };

    fn fmt<W: fmt::Write>(&self, f: &mut fmt::Formatter<W>) -> fmt::Result {
        match self.0 {
            Some(limit) => write!(f, "up to {} kWh", limit.kwh),
            None => write!(f, "the rest"),
        }
    }
}

impl fmt::Display for Line {
    ghost output = { λ l. Some (texts.line l) };

    fn fmt<W: fmt::Write>(&self, f: &mut fmt::Formatter<W>) -> fmt::Result {
        match *self {
            Line::Month { month, kwh, multi } => {
                let note = if multi { ", multi-person" } else { "" };
                write!(f, "month {month}: {} kWh{note}", kwh.kwh)
            }
            Line::Total { kwh } => write!(f, "year: {} kWh", kwh.kwh),
            Line::Tier { tier, share } => write!(
                f,
                "tier {tier} ({}): {} kWh at {} yuan = {} yuan",
                Reach(share.limit),
                share.kwh.kwh,
                UnitsAsYuan(share.price),
                UnitsAsYuan(share.charge)
            ),
            Line::Sum { charge, fen } => write!(
                f,
                "sum: {} yuan, to pay {} yuan",
                UnitsAsYuan(charge),
                FenAsYuan(fen)
            ),
        }
    }
}

impl fmt::Display for Bill {
    ghost output = { λ b. Some (texts.page (lines b.sheet.rows)) };

    fn fmt<W: fmt::Write>(&self, f: &mut fmt::Formatter<W>) -> fmt::Result {
        for line in self.lines() {
            writeln!(f, "{line}")?;
        }
        Ok(())
    }
}
