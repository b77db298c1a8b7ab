//! Quantities, and the sheet of a year: twelve months of marks and kWh.

#![tactic(auto)]

pub mod quantity;
pub mod row;
pub mod rows;
pub mod sheet;
pub mod sums;
