// What a run wants, which SIBs it opens for that and when, and how long the path is while a pass shifts.
#![tactic(auto)]

mod length;
mod visit;
mod wanted;

pub use visit::{Row, Visit};
pub use wanted::{Plan, Wanted};
