// Texts in a buffer: bytes, runs and gaps, and the table of words.
#![tactic(auto)]

pub mod buffer;
pub mod gap;
pub mod put;
pub mod run;
pub mod three;
pub mod words;
