//! A household's year from the arguments of a command line.
ghost use Rattle.std.specs.Prelude.{map, string_bytes, MatchResult};
ghost use Rattle.bill.specs.Arguments.{Read, Months, Fault, Parsed};

use crate::household::{ArgumentFault, Household};
use sheet::quantity::Kwh;
use sheet::rows::ROW_LIMIT;

/// The whole number that an argument writes, if it lies within these limits.
// Two numbers, as callers know them: a `Range` ends one past the limit, and a `RangeInclusive` that was used has lost its end.
pub fn number(argument: &str, least: u64, most: u64) -> Option<u64>
    ensures { Read least most argument.now result }
{
    argument
        .parse::<u64>()
        .ok()
        .filter(|n| (least..=most).contains(n))
}

// The kWh of the twelve months.
fn months(year: &[String; 12]) -> Result<[Kwh; 12], ArgumentFault>
    ensures { MatchResult result (λ kwh. Months (map string_bytes year.now) 12 kwh) (λ e. Fault (map string_bytes year.now) e) }
{
    // No `try_map`: of its error no clause says that the months before it could be read.
    let mut kwh = [Kwh { kwh: 0 }; 12];
    for (i, argument) in year.iter().enumerate() {
        let n = number(argument, 0, ROW_LIMIT).ok_or(ArgumentFault::Kwh { month: i + 1 })?;
        kwh[i] = Kwh { kwh: n };
    }
    Ok(kwh)
}

/// The household's year that the arguments give: the kWh of twelve months, and perhaps the month from which it is multi-person.
#[tactic(auto, using(crate::proofs::Argued::passed_on))]
pub fn household(arguments: &[String]) -> Result<Household, ArgumentFault>
    ensures { Parsed (map string_bytes arguments.now) result }
{
    match arguments.split_first_chunk::<12>() {
        Some((year, [])) => Ok(Household {
            kwh: months(year)?,
            multi_from: None,
        }),
        Some((year, [month])) => {
            let kwh = months(year)?;
            let month = number(month, 1, 12).ok_or(ArgumentFault::Month)?;
            Ok(Household {
                kwh,
                multi_from: Some(month),
            })
        }
        _ => Err(ArgumentFault::Count {
            given: arguments.len(),
        }),
    }
}
