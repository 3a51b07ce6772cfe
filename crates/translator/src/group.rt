// The call that applies a chosen group.
use passes::run_group;
use refusal::Refusal;
use reply::{measure, put_list};
use scan::Scan;
use table::{Record, clear_choice};

// What an accepted group answers: how many bytes of the buffer its reply takes, and how many bits it shifted. The buffer is
// the caller's, and longer than the reply where he likes: the translator asks for no memory.
#[derive(Clone, Copy, Debug, PartialEq, Eq)]
pub struct Applied {
    pub reply: usize,
    pub shifted: u64,
}

// Applies the chosen group: writes the sent bits, reads, and packs the reply. Accepted, it empties the choice; a lost call
// leaves the choice and, as far as the reply would have reached, zeros; any other refusal leaves everything.
pub fn data<S: Scan>(
    table: &mut [Record],
    scan: &mut S,
    sent: &[u8],
    reply: &mut [u8],
) -> Result<Applied, Refusal> {
    let size = measure(table)?;
    if size.chosen == 0 {
        return Err(Refusal::NothingChosen);
    }
    if sent.len() != size.sent {
        return Err(Refusal::DataLength);
    }
    if reply.len() < size.reply {
        return Err(Refusal::TooSmall { needed: size.reply });
    }
    reply[..size.reply].fill(0);
    let run = run_group(scan, table, sent, reply);
    // A run begins with a reset, so it fails only where a call is lost. The buffer is cleared before the fault goes up; a closure
    // that does so under `map_err` reads no plainer.
    if run.is_err() {
        reply[..size.reply].fill(0);
    }
    let shifted = run?;
    put_list(reply, table, size);
    clear_choice(table);
    Ok(Applied {
        reply: size.reply,
        shifted,
    })
}
