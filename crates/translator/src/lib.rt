// The translator: control chooses instruments, data writes and reads them in one run, drop forgets the choice.
// The table is passed beside the transport at each call, and so are the buffers; no object owns any of them.
// Control and drop promise their answer and the table afterwards; data is so far proved to be safe and to end, and tested.
#![tactic(auto)]

mod choice;
mod group;

pub use choice::{control, drop_choice};
pub use group::{Applied, data};
