//! Tests of the ledgers at the borders of their rules, with values worked out by hand.

#![tactic(auto)]

#[cfg(test)]
mod tests;
