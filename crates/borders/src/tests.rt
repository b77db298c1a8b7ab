//! What the tests build: years, sheets, tiers and time of use.
mod arguments;
mod layers;
mod money;
mod sheets;
mod splits;
mod tables;
mod years;

use sheet::quantity::{Kwh, Units};
use sheet::row::{Booking, YearMarks, YearRows};
use sheet::rows::{blank_year, booked_in};
use sheet::sheet::Sheet;
use tariff::refusal::TariffFault;
use tariff::tariff::Tariff;

// Twelve rows with no kWh.
fn year(counted_from: u64, multi_until: u64, timed_from: u64) -> YearRows {
    blank_year(YearMarks {
        counted_from,
        multi_until,
        timed_from,
    })
}

fn purchase(kwh: u64) -> Booking {
    Booking::Purchase {
        bought: Kwh { kwh },
    }
}

fn reading(peak: u64, valley: u64) -> Booking {
    Booking::Reading {
        peak: Kwh { kwh: peak },
        valley: Kwh { kwh: valley },
    }
}

// Rows or a sheet that cannot be.
#[derive(Clone, Copy, Debug)]
struct Unfit;

fn booked(rows: &YearRows, month: u64, booking: Booking) -> Result<YearRows, Unfit> {
    booked_in(rows, month, booking).ok_or(Unfit)
}

fn sheet_of(rows: YearRows) -> Result<Sheet, Unfit> {
    Sheet::new(rows).ok_or(Unfit)
}

// The sheet of rows with one booking.
fn with(rows: &YearRows, month: u64, booking: Booking) -> Result<Sheet, Unfit> {
    sheet_of(booked(rows, month, booking)?)
}

fn units(units: u64) -> Units {
    Units { units }
}

fn fen<T: Tariff>(tariff: &T, sheet: &Sheet) -> Result<i64, TariffFault> {
    Ok(tariff.charge(sheet)?.to_fen().fen)
}
