// What is read off a chart's measures.
#![tactic(auto)]

pub mod active;
pub mod chart;
pub mod class;
pub mod tokens;
