//! One household's year, rated by Shandong's tiers and explained line by line.

#![tactic(auto)]

pub mod arguments;
pub mod bill;
pub mod household;
pub mod lines;
pub mod messages;
pub mod rating;
pub mod texts;
pub mod walk;
