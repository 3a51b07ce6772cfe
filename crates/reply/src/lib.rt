// The reply of a group: how long it is, its list of excluded numbers and its trailer.
// `measure` promises the size of every part, for every table that passes its test.
#![tactic(auto)]

ghost use Rattle.std.specs.Prelude.{◌≡◌, ℕ, ◌+◌, ◌-◌, ◌*◌, ◌^◌, ◌<◌, ◌≤◌, Bool, true, false, not, ◌&&◌, length, if◌then◌else◌, is_some, List, [], ◌∷◌, ◌++◌};
ghost use Rattle.refusal.specs.Checks.{answered};
ghost use Rattle.table.specs.Rules.{table_fault};
ghost use Rattle.reply.specs.Sizes.{total, in_bytes, chosen_at, sent_at, kept_at, listed_at, group_size};
ghost use Rattle.reply.specs.Numbers.{has_room, with_number, with_numbers, listed};

use refusal::TableFault;
use table::{Record, check_table, counts_excluded};

// The chosen instruments' count, and the bytes of a group's data, of its reply's parts and of the whole reply.
#[derive(Clone, Copy, Debug, PartialEq, Eq)]
pub struct GroupSize {
    pub chosen: usize,
    pub sent: usize,
    pub body: usize,
    pub list: usize,
    pub reply: usize,
}

// Over the records so far.
#[derive(Clone, Copy, Default)]
struct Counts {
    chosen: usize,
    sent_bits: usize,
    kept_bits: usize,
    listed: usize,
}

fn bits_if(counts: bool, length: u16) -> usize
    ensures { result ≡ (if counts then length else 0) }
{
    if counts { usize::from(length) } else { 0 }
}

// What one record adds.
fn counts_of(sib: Record, excluded: bool) -> Counts
    ensures chosen { result.chosen ≡ (if sib.chosen then 1 else 0) }
    ensures sent { result.sent_bits ≡ (if sib.chosen && sib.write then sib.length else 0) }
    ensures kept { result.kept_bits ≡ (if sib.chosen && (not sib.write && not excluded) then sib.length else 0) }
    ensures listed { result.listed ≡ (if sib.chosen && excluded then 1 else 0) }
    ensures bound { (result.chosen ≤ 1) × (result.sent_bits ≤ 65535) × (result.kept_bits ≤ 65535) × (result.listed ≤ 1) }
{
    Counts {
        chosen: usize::from(sib.chosen),
        sent_bits: bits_if(sib.chosen && sib.write, sib.length),
        kept_bits: bits_if(sib.chosen && !sib.write && !excluded, sib.length),
        listed: usize::from(sib.chosen && excluded),
    }
}

fn count_choice(records: &[Record]) -> Counts
    requires { length records.now ≤ 16382 }
    ensures chosen { result.chosen ≡ total (chosen_at records.now) (length records.now) }
    ensures sent { result.sent_bits ≡ total (sent_at records.now) (length records.now) }
    ensures kept { result.kept_bits ≡ total (kept_at records.now) (length records.now) }
    ensures listed { result.listed ≡ total (listed_at records.now) (length records.now) }
    ensures bound { (result.sent_bits < 2 ^ 31) × (result.kept_bits < 2 ^ 31) × (result.listed ≤ 16382) }
{
    let mut sum = Counts::default();
    for (i, record) in records.iter().enumerate() {
        let one = counts_of(*record, counts_excluded(records, i + 1));
        sum.chosen += one.chosen;
        sum.sent_bits += one.sent_bits;
        sum.kept_bits += one.kept_bits;
        sum.listed += one.listed;
    }
    sum
}

// Tests the table, then measures the group that its marks choose.
pub fn measure(records: &[Record]) -> Result<GroupSize, TableFault>
    ensures { result ≡ answered (group_size records.now) (table_fault records.now) }
{
    check_table(records)?;
    let counts = count_choice(records);
    let body = counts.kept_bits.div_ceil(8);
    let list = 2 * counts.listed;
    Ok(GroupSize {
        chosen: counts.chosen,
        sent: counts.sent_bits.div_ceil(8),
        body,
        list,
        reply: body + list + 2,
    })
}

// Puts a number into a reply; None, and nothing is put, where it has no room or no form.
pub fn put_number(reply: &mut [u8], at: usize, number: usize) -> Option<()>
    ensures test { is_some result ≡ has_room reply.old at number }
    ensures after { reply.new ≡ with_number reply.old at number }
{
    let [high, low] = u16::try_from(number).ok()?.to_be_bytes();
    // Indices after a test: what a `get_mut` leaves of the slice no answer can cite.
    if at >= reply.len() || reply.len() - at < 2 {
        return None;
    }
    reply[at] = high;
    reply[at + 1] = low;
    Some(())
}

// Puts what follows the body: each chosen excluded number, the highest first, and the trailer, which says how many bytes
// before it that list starts.
pub fn put_list(reply: &mut [u8], records: &[Record], size: GroupSize)
    ensures { reply.new ≡ with_numbers reply.old size.body (listed records.now (length records.now) ++ size.list ∷ []) }
{
    let mut at = size.body;
    // By number, which is what the list names.
    for number in (1..=records.len()).rev() {
        if records[number - 1].chosen && counts_excluded(records, number) {
            let _ = put_number(reply, at, number);
            at = at.saturating_add(2);
        }
    }
    let _ = put_number(reply, at, size.list);
}
