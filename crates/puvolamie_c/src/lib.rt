// The exported calls for C and Rust, under the prefix `pv_`. A slice passes as pointer and length, an answer by value; all slices stand first.
// Each call has the promise of the one that it hands on; a part of a slice is told by place and length, a mode, level or class by its number.
#![tactic(auto)]

pub mod charts;
pub mod texts;
