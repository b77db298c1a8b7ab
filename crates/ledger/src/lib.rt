//! What every ledger means and shows; counts and sums, written once; a ledger of counts and sums alone.

#![tactic(auto)]

pub mod balance;
pub mod balances;
pub mod balancing;
pub mod both;
pub mod counting;
pub mod ledger;
pub mod numbers;
pub mod posting;
pub mod refusal;
