// Reads a text of statements from standard input, runs it on the simulated die, and prints what went out and what came back.
#![tactic(auto)]

use script::{MOST_TEXT, run_text};
use std::io::Read;

fn main(rt: HostRuntime) -> anyhow::Result<()> {
    let mut text = Vec::new(rt.alloc());
    // One byte more than a text may have tells a text that is too long. (`as`: `u64` has no `From<usize>`.)
    let _ = rt
        .stdin()
        .take(MOST_TEXT as u64 + 1)
        .read_to_end(&mut text)?;
    for line in run_text(rt.alloc(), text.as_slice())?.iter() {
        println!(rt; "{line}")?;
    }
    Ok(())
}
