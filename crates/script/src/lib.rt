// Runs a text of statements on a simulated die, from the bytes of the text to the lines that a program prints.
// So far its functions are proved to be safe and to end, and the lines of many texts are tested.
#![tactic(auto)]

mod die;
mod line;
mod session;

pub use line::Line;
pub use session::{MOST_TEXT, run_text};
