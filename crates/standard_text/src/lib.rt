// Standard texts, part by part, written and measured from tokens.
#![tactic(auto)]

pub mod piece;
pub mod standard;
pub mod three;
