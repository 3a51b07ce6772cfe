// What a run wants, and the doorways that it needs for that.
ghost use Rattle.std.specs.Prelude.{◌≡◌, ℕ, ◌+◌, ◌-◌, ◌<◌, ◌≤◌, Bool, true, false, ◌&&◌, length};
ghost use Rattle.retarget.specs.Runs.{passes};
ghost use Rattle.table.specs.Marks.{names_sib};
ghost use Rattle.plan.specs.Order.{wanted_at};
ghost use Rattle.plan.specs.Plans.{table_of, depth_of, needed_in, deeper_at};

use table::{Kind, Record, counts_excluded, find_instrument, find_sib};

// Which instruments a run wants: data and no closure, so that contracts can name it and one place can ask it.
#[derive(Clone, Copy, Debug, PartialEq, Eq)]
pub enum Wanted {
    // The chosen ones that are not excluded.
    Chosen,
    // All that are not excluded.
    Sound,
    // This number alone.
    Only(usize),
}

// Passes count from 1 to `depth`, the greatest depth of a wanted instrument; the pass after the last of them is the data pass.
#[derive(Clone, Copy)]
pub struct Plan<'a> {
    pub(crate) records: &'a [Record],
    pub(crate) wanted: Wanted,
    pub(crate) depth: u8,
}

impl Wanted {
    // Whether the number is that of an instrument that is wanted.
    fn takes(self, records: &[Record], number: usize) -> bool
        ensures { result ≡ wanted_at self records.now number }
    {
        find_instrument(records, number).is_some_and(|record| match self {
            Wanted::Chosen => record.chosen && !counts_excluded(records, number),
            Wanted::Sound => !counts_excluded(records, number),
            Wanted::Only(only) => number == only,
        })
    }
}

impl<'a> Plan<'a> {
    pub fn new(records: &'a [Record], wanted: Wanted) -> Plan<'a>
        ensures table { table_of result ≡ records.now }
        ensures wanted { result.wanted ≡ wanted }
        ensures depth { result.depth ≡ depth_of wanted records.now }
    {
        // The greatest depth so far; `enumerate` counts.
        let mut depth = 0;
        for (i, record) in records.iter().enumerate() {
            if wanted.takes(records, i + 1) {
                depth = record.depth.max(depth);
            }
        }
        Plan {
            records,
            wanted,
            depth,
        }
    }

    // How many SIBs the table has.
    pub fn len(&self) -> usize
        ensures { result ≡ length (table_of self.now) }
    {
        self.records.len()
    }

    pub fn depth(&self) -> u8
        ensures { result ≡ self.now.depth }
    {
        self.depth
    }

    // How many passes a run has: one that configures for each depth, and the data pass. With nothing wanted there is none.
    // (A depth is a byte, but the number of a pass is not: in a table that breaks a rule there may be 256 of them.)
    pub fn passes(&self) -> u16
        ensures { result ≡ passes self.now.depth }
    {
        match self.depth {
            0 => 0,
            depth => u16::from(depth) + 1,
        }
    }

    pub(crate) fn wants(&self, number: usize) -> bool
        ensures { result ≡ wanted_at self.now.wanted (table_of self.now) number }
    {
        self.wanted.takes(self.records, number)
    }

    // A doorway is needed when a wanted instrument stands behind it. (A pass asks this of each SIB on its path.)
    #[inline]
    pub(crate) fn needs(&self, number: usize) -> bool
        requires { (1 ≤ number) × (number ≤ length (table_of self.now)) }
        ensures { result ≡ needed_in self.now number }
    {
        let record = self.records[number - 1];
        // Read once, before a loop that may be long.
        let wanted = self.wanted;
        match record.kind {
            Kind::Instrument => false,
            // Down from the doorway, so that it ends at the first that is wanted.
            Kind::Doorway => (1..number)
                .rev()
                .take_while(|below| self.lies_deeper(*below, record.depth))
                .any(|below| wanted.takes(self.records, below)),
        }
    }

    // Whether the number is that of a SIB that stands deeper than this.
    fn lies_deeper(&self, number: usize, depth: u8) -> bool
        ensures { result ≡ deeper_at (table_of self.now) depth number }
    {
        find_sib(self.records, number).is_some_and(|record| record.depth > depth)
    }
}
