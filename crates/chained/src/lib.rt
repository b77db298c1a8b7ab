//! Chains of records through a lent table, and a ledger that writes its lines into one.

#![tactic(auto)]

pub mod cell;
pub mod chained;
pub mod lending;
pub mod lines;
pub mod linking;
pub mod links;
