//! Rates one household's year by Shandong's tiers: `year KWH1 .. KWH12 [MONTH]`, the kWh of each month and, if the
//! household is multi-person, the month from which it is. Prints the bill.

#![tactic(auto)]

use anyhow::{Context, Result};
use bill::arguments::household;
use bill::bill::Bill;
use std::env;
use std::process::ExitCode;

fn run(rt: &HostRuntime) -> Result<()> {
    let arguments: Vec<String> = env::args(rt)
        .context("the arguments cannot be read as UTF-8 text")?
        .skip(1)
        .collect(rt.alloc())?;
    let year = household(&arguments)?;
    // Cannot fail: `household` takes no month above 999,999 kWh.
    let bill = Bill::new(&year).context("a month has more than 999999 kWh")?;
    print!(rt; "{bill}")?;
    Ok(())
}

fn main(rt: HostRuntime) -> ExitCode {
    match run(&rt) {
        Ok(()) => ExitCode::SUCCESS,
        Err(error) => {
            // The status tells the failure even where this line cannot be written.
            let _ = eprintln!(rt; "year: {error}");
            ExitCode::FAILURE
        }
    }
}
