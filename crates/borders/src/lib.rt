//! Tests at the borders of the rules, with values worked out by hand.

#![tactic(auto)]

#[cfg(test)]
mod tests;
