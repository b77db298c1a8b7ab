//! What every tariff means and shows; a flat price; time of use over any tariff.

#![tactic(auto)]

pub mod band;
pub mod changes;
pub mod flat;
pub mod refusal;
pub mod tariff;
pub mod time_of_use;
