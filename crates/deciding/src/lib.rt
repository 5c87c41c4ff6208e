#![tactic(auto)]

pub mod object;
pub mod questions;
pub mod record;
pub mod refusable;
