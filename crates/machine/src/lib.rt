#![tactic(auto)]

pub mod machine;
pub mod marks;
pub mod protocol;
pub mod status;
