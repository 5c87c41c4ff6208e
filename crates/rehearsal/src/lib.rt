#![tactic(auto)]

mod judge;
mod piles;
mod responder;
pub mod run;
mod serving;
mod verdict;
