//! Tier tables, what each tier takes of a year, and the published tariffs.

#![tactic(auto)]

pub mod published;
pub mod shares;
pub mod split;
pub mod table;
pub mod tiers;
