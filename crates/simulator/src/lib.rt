// A scan network in memory, made from a table, whose cable may be out.
// It is proved to show the meaning of a scan transport in every state: making one gives the network that was asked for, each
// call does to it what the `Scan` contract says, and a call is lost exactly when the cable is out.
// A shift costs the same however long the path is, and a step more for each stuck cell on it: between a capture and an update
// the path's cells stand in a ring buffer.
#![tactic(auto)]

mod calls;
mod dealing;
mod making;
mod network;
mod path;
mod site;
mod walk;

pub use network::Simulator;
pub use site::{NetworkFault, Offer, Setting, Stuck};
