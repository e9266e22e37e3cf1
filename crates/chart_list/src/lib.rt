// What the programs share: an input is read whole, the charts and cases of a list are found, lines of answers are put together.
#![tactic(auto)]

pub mod cases;
pub mod charts;
pub mod line;
pub mod read;
pub mod stream;
#[cfg(test)]
mod tests;
