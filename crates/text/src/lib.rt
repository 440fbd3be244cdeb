// Bytes put one after the other into a lent slice and looked for in a text; numbers written in decimals, and read.
#![tactic(auto)]

pub mod bytes;
pub mod decimal;
pub mod number;
pub mod put;
