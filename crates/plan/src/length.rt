// The length of the active path while a pass shifts.
// The private functions go by numbers that are known to be in the table, and say so one by one: a type for such a number would
// hold the plan, and each step down would prove it anew.
ghost use Rattle.std.specs.Prelude.{◌≡◌, ℕ, suc, ◌+◌, ◌-◌, ◌%◌, ◌^◌, ◌<◌, ◌≤◌, Bool, true, false, length, reverse, take_while, nat_lt};
ghost use Rattle.retarget.specs.Shapes.{Formed};
ghost use Rattle.plan.specs.Plans.{table_of, plan_shapes, open_at};
ghost use Rattle.plan.specs.Order.{shape_at};
ghost use Rattle.plan.specs.Length.{section, run, seen_at, seen, sib, path_span};

use crate::wanted::Plan;
use table::{Kind, Record};

// How many records, from the last down, stand deeper than this.
fn deeper_below(records: &[Record], depth: u8) -> usize
    ensures { result ≡ length (take_while (λ r. nat_lt depth r.depth) (reverse records.now)) }
{
    records
        .iter()
        .rev()
        .take_while(|record| record.depth > depth)
        .count()
}

impl<'a> Plan<'a> {
    // Whether a SIB is open while a pass shifts.
    fn is_open(&self, pass: u16, number: usize) -> bool
        requires { (1 ≤ number) × (number ≤ length (table_of self.now)) }
        ensures { result ≡ open_at self.now pass number }
    {
        let before = u16::from(self.records[number - 1].depth) < pass;
        (before && self.needs(number)) || (pass > u16::from(self.depth) && self.wants(number))
    }

    // How many SIBs above `bottom` stand behind this one: the deeper ones among the next lower numbers.
    fn behind(&self, number: usize, bottom: usize) -> usize
        requires { (bottom < number) × (number ≤ length (table_of self.now)) }
        ensures within { bottom + result < number }
        ensures count { (pass : ℕ) → result ≡ run (shape_at (table_of self.now) number).depth (seen self.now pass (number - 1) bottom) }
    {
        deeper_below(
            &self.records[bottom..number - 1],
            self.records[number - 1].depth,
        )
    }

    // A section, here the numbers from `top` down to the one above `bottom`, is as long as its SIBs. How far the loop goes down at
    // each turn is how many stand behind a SIB, so no iterator counts it.
    #[cycle(section_len_sib_len)]
    fn section_len(&self, pass: u16, top: usize, bottom: usize) -> u64
        requires { (bottom ≤ top) × (top ≤ length (table_of self.now)) }
        ensures { result ≡ section false 0 (seen self.now pass top bottom) % 2 ^ 64 }
    {
        let mut sum: u64 = 0;
        let mut number = top;
        while number > bottom {
            let last = number - 1 - self.behind(number, bottom);
            sum = sum.wrapping_add(self.sib_len(pass, number, last));
            number = last;
        }
        sum
    }

    // A SIB is one cell and, when open, what stands behind it: an instrument's row, or a section down to the one above `bottom`.
    #[cycle(section_len_sib_len)]
    fn sib_len(&self, pass: u16, number: usize, bottom: usize) -> u64
        requires { (bottom < number) × (number ≤ length (table_of self.now)) }
        ensures { result ≡ sib (seen_at self.now pass number) (seen self.now pass (number - 1) bottom) % 2 ^ 64 }
    {
        if !self.is_open(pass, number) {
            return 1;
        }
        let record = self.records[number - 1];
        match record.kind {
            Kind::Instrument => u64::from(record.length).wrapping_add(1),
            Kind::Doorway => self.section_len(pass, number - 1, bottom).wrapping_add(1),
        }
    }

    // How many cells the active path has while a pass shifts, modulo 2^64.
    pub fn path_len(&self, pass: u16) -> u64
        ensures { Formed 1 (plan_shapes self.now (length (table_of self.now))) → result ≡ path_span self.now pass % 2 ^ 64 }
    {
        self.section_len(pass, self.records.len(), 0)
    }
}
