#![tactic(auto)]

pub mod command;
pub mod pile;
pub mod reader;
