// The host: groups of orders, and the command bytes that carry them out.
// A group promises which orders it takes and refuses and what it is then, and a refused group comes back; what the command bytes
// say is so far tested only.
#![tactic(auto)]

mod encoder;
mod fault;
mod group;

pub use fault::HostFault;
pub use group::{Action, Group, Order, Pending, Sent, Unsent};
