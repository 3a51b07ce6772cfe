// What a pass does at each SIB.
ghost use Rattle.std.specs.Prelude.{◌≡◌, ℕ, ◌+◌, ◌≤◌, Bool, true, false, ◌&&◌, length};
ghost use Rattle.plan.specs.Plans.{table_of, Visits, sent_to, open_at};

use crate::wanted::Plan;
use table::find_sib;

// The row of a SIB's instrument in a pass. Three cases and no `Option` of two: they are told apart in one `match`.
#[derive(Clone, Copy, Debug, PartialEq, Eq)]
pub enum Row {
    // It is not on the path.
    Hidden,
    Read { cells: u16 },
    Write { cells: u16 },
}

#[derive(Clone, Copy, Debug, PartialEq, Eq)]
pub struct Visit {
    // What the SIB's own cell gets.
    pub bit: bool,
    // How deep the next lower number may stand to be on the path too.
    pub reach: u16,
    pub row: Row,
}

impl<'a> Plan<'a> {
    // What a pass does at a SIB; none where it is not on the path, which reaches as deep as `reach`.
    pub fn visit(&self, pass: u16, reach: u16, number: usize) -> Option<Visit>
        ensures { Visits self.now pass reach number result }
    {
        let record = find_sib(self.records, number)?;
        if u16::from(record.depth) > reach {
            return None;
        }
        let needed = self.needs(number);
        let wanted = self.wants(number);
        // An instrument that opened before the last configuration pass would be written by it.
        let bit = needed || (wanted && pass >= u16::from(self.depth));
        let reach = if needed && u16::from(record.depth) < pass {
            u16::from(record.depth) + 1
        } else {
            u16::from(record.depth)
        };
        let row = match (wanted && pass > u16::from(self.depth), record.write) {
            (false, _) => Row::Hidden,
            (true, false) => Row::Read {
                cells: record.length,
            },
            (true, true) => Row::Write {
                cells: record.length,
            },
        };
        Some(Visit { bit, reach, row })
    }

    // How many bits a data command has for this number: those of a chosen write, excluded or not.
    pub fn sent_bits(&self, number: usize) -> u16
        ensures { result ≡ sent_to (table_of self.now) number }
    {
        find_sib(self.records, number)
            .filter(|record| record.chosen && record.write)
            .map_or(0, |record| record.length)
    }
}
