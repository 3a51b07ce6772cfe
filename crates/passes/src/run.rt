// What a run shifts.
ghost use Rattle.std.specs.Prelude.{◌≡◌, ℕ, ◌≤◌, length};
ghost use Rattle.bits.specs.Order.{row_bits};
ghost use Rattle.scan.specs.Network.{rest};
ghost use Rattle.scan.specs.Calls.{Once};
ghost use Rattle.plan.specs.Order.{shapes};
ghost use Rattle.plan.specs.Plans.{table_of, depth_of};
ghost use Rattle.shifting.specs.Orders.{orders};
ghost use Rattle.passes.specs.Runs.{RunDoes};
ghost use Rattle.shifting.specs.Passes.{PassesTest, PassDoes, string_of, sieve_of};

use bits::BitPlace;
use plan::{Plan, Wanted};
use refusal::ScanFault;
use scan::Scan;
use shifting::shift_sib;
use table::Record;

// One pass: a capture, a shift for each cell of the path, and an update. It keeps in `body` what comes out of the instruments
// read; answers how many bits it shifted, modulo 2^64. (Pass 256, which only a table that breaks a rule has, counts as the pass
// before it, without the rows.)
fn pass<S: Scan>(
    scan: &mut S,
    plan: &Plan,
    pass: u16,
    sent: &[u8],
    body: &mut [u8],
) -> Result<u64, ScanFault>
    ensures did { pass ≤ 255 → PassesTest (table_of plan.now) → S.valid scan.old → (S.network scan.old).phase ≡ rest → PassDoes S.losses (S.network scan.old) (string_of plan.now (row_bits sent.now) pass) (sieve_of plan.now (row_bits sent.now) pass) (row_bits body.old) result (S.network scan.new) (row_bits body.new) }
    ensures kept { S.valid scan.old → S.valid scan.new }
{
    scan.capture()?;
    let mut reach: u16 = 1;
    let mut from = BitPlace::start();
    let mut to = BitPlace::start();
    // By number, which is a SIB's name, from N down as the path runs.
    for number in (1..=plan.len()).rev() {
        if let Some(visit) = plan.visit(pass, reach, number) {
            reach = visit.reach;
            to = shift_sib(scan, visit, sent, from, body, to)?;
        }
        // A write that is excluded, or not on the path, has bits in `sent` too.
        let bits = plan.sent_bits(number);
        if bits > 0 {
            from = from.skip(bits);
        }
    }
    scan.update()?;
    Ok(plan.path_len(pass.min(255)))
}

// Writes and reads the chosen instruments that are not excluded; answers how many bits it shifted.
pub fn run_group<S: Scan>(
    scan: &mut S,
    records: &[Record],
    sent: &[u8],
    kept: &mut [u8],
) -> Result<u64, ScanFault>
    ensures did { PassesTest records.now → RunDoes S.losses (depth_of Wanted.Chosen records.now) (shapes records.now (length records.now)) (orders Wanted.Chosen records.now (row_bits sent.now)) (S.network scan.old) (row_bits kept.old) result (S.network scan.new) (row_bits kept.new) }
    ensures made { PassesTest records.now → Once result (S.valid scan.new) }
    ensures kept { S.valid scan.old → S.valid scan.new }
{
    let plan = Plan::new(records, Wanted::Chosen);
    scan.reset()?;
    let mut shifted: u64 = 0;
    for done in 0..plan.passes() {
        shifted = shifted.wrapping_add(pass(scan, &plan, done + 1, sent, kept)?);
    }
    Ok(shifted)
}
