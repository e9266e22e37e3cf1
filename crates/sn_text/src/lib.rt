// SN texts, part by part, written and measured from tokens.
#![tactic(auto)]

pub mod sn;
pub mod three;
