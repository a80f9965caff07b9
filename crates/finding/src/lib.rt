// Change request 2026-07: the numbers of a reason found, for each refusal of reading. What they are is said in the crate reasons. None of
// these functions requires anything: differences stop at 0, and sums are taken in 64 bits.
#![tactic(auto)]

pub mod call;
pub mod entries;
mod kinds;
