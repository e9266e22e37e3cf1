// The texts of a breakdown, written at a place of a lent slice, and measured.
#![tactic(auto)]

pub mod form;
pub mod length;
pub mod parts;
pub mod text;
pub mod total;
