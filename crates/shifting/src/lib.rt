// The shifts of a pass: a SIB's own bit and, where its row is on the path, the row.
// They promise what goes into the network, what is kept of what comes out, and what a lost call leaves (specs/Feeding.antt).
#![tactic(auto)]

mod shifts;

pub use shifts::shift_sib;
