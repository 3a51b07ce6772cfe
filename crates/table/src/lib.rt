// The SIB table: its records, its rules, and the marks on them. It is a flat list that its owner keeps; a SIB's number, which
// commands and refusals speak of, is its place in the list, counted from 1.
// It promises which fault the test of a table answers, for every table (specs/Rules.antt), and the table afterwards, to the last
// mark, of whatever changes marks (specs/Marks.antt).
#![tactic(auto)]

ghost use Rattle.std.specs.Prelude.{◌≡◌, ℕ, ◌+◌, ◌-◌, ◌<◌, ◌≤◌, Bool, true, false, List, map, Some, None};
ghost use Rattle.refusal.specs.Checks.{answered, left, first_failing};
ghost use Rattle.table.specs.Rules.{fits, floor_under, highest_broken, table_fault, SaysOfTable};
ghost use Rattle.table.specs.Marks.{FindsSib, FindsInstrument, unmarked, unchosen, choosing, choice_checks, is_excluded};

mod marks;

use refusal::{Refusal, TableFault};

// A doorway is a SIB behind which other SIBs stand; an instrument has a row of cells of its own.
#[derive(Clone, Copy, Debug, Default, PartialEq, Eq)]
pub enum Kind {
    #[default]
    Doorway,
    Instrument,
}

#[derive(Clone, Copy, Debug, Default, PartialEq, Eq)]
pub struct Record {
    pub kind: Kind,
    pub depth: u8,
    // In bits; 0 for a doorway.
    pub length: u16,
    // Three marks side by side: a table with a write mark on a SIB that is not chosen is accepted, and an `Option` of the two
    // could not hold it.
    pub chosen: bool,
    // Chosen to be written, and not to be read.
    pub write: bool,
    pub excluded: bool,
}

// Numbers are 1 to this one.
pub const MOST_SIBS: usize = 16_382;

impl Record {
    pub fn doorway(depth: u8) -> Record
        ensures { result ≡ record { kind = Kind.Doorway; depth = depth; length = 0; chosen = false; write = false; excluded = false } }
    {
        Record {
            kind: Kind::Doorway,
            depth,
            ..Record::default()
        }
    }

    pub fn instrument(depth: u8, length: u16) -> Record
        ensures { result ≡ record { kind = Kind.Instrument; depth = depth; length = length; chosen = false; write = false; excluded = false } }
    {
        Record {
            kind: Kind::Instrument,
            depth,
            length,
            ..Record::default()
        }
    }

    // Whether the record obeys the rules that look at no other.
    fn fits(&self) -> bool
        ensures { result ≡ fits self.now }
    {
        let length_fits = match self.kind {
            Kind::Doorway => self.length == 0 && !self.chosen,
            Kind::Instrument => (1..=256).contains(&self.length),
        };
        (1..=8).contains(&self.depth) && length_fits
    }

    // How deep the next lower number may stand.
    fn floor(&self) -> u16
        ensures { result ≡ floor_under self.now }
    {
        match self.kind {
            Kind::Doorway => u16::from(self.depth) + 1,
            Kind::Instrument => u16::from(self.depth),
        }
    }
}

// The highest number whose record breaks a rule. A record too deep under the next higher one shows only there, and counts
// for the lower number; so the last that is found is the highest. The loop has the index and carries the depth before.
fn highest_broken(records: &[Record]) -> Option<usize>
    ensures { result ≡ highest_broken 1 records.now }
{
    let mut broken = None;
    let mut depth_before: u16 = 0;
    for (i, record) in records.iter().enumerate() {
        if !record.fits() {
            broken = Some(i + 1);
        } else if depth_before > record.floor() {
            broken = Some(i);
        }
        depth_before = u16::from(record.depth);
    }
    if depth_before > 1 {
        Some(records.len())
    } else {
        broken
    }
}

// Tests all records: first how many they are, then the rules of each.
pub fn check_table(records: &[Record]) -> Result<(), TableFault>
    ensures value { result ≡ answered tt (table_fault records.now) }
    ensures meaning { SaysOfTable records.now result }
{
    if records.is_empty() || records.len() > MOST_SIBS {
        return Err(TableFault::Size);
    }
    // A `match`: the fault is made of the number, and a `map_or` would read no plainer.
    match highest_broken(records) {
        Some(number) => Err(TableFault::Broken { number }),
        None => Ok(()),
    }
}

// Takes a table into use: it is tested, and all its marks are cleared. (A `for`, and no closure under `iter_mut`: the library says
// nothing of what that leaves. For the same reason this loop and that of `clear_choice` stand each for itself.)
pub fn attach(records: &mut [Record]) -> Result<(), TableFault>
    ensures value { result ≡ answered tt (table_fault records.old) }
    ensures after { records.new ≡ left (table_fault records.old) (map unmarked records.old) records.old }
{
    check_table(records)?;
    for record in records.iter_mut() {
        *record = record.unmarked();
    }
    Ok(())
}

// The record of this number, if the table has it: numbers count from 1.
pub fn find_sib(records: &[Record], number: usize) -> Option<&Record>
    ensures { FindsSib records.now number result }
{
    records.get(number.checked_sub(1)?)
}

// The instrument of this number; none where the number is a doorway's or nobody's.
pub fn find_instrument(records: &[Record], number: usize) -> Option<&Record>
    ensures { FindsInstrument records.now number result }
{
    find_sib(records, number).filter(|record| record.kind == Kind::Instrument)
}

// Chooses an instrument, to be written or read.
pub fn choose(records: &mut [Record], number: usize, write: bool) -> Result<(), Refusal>
    ensures value { result ≡ answered tt (first_failing (choice_checks records.old number)) }
    ensures after { records.new ≡ left (first_failing (choice_checks records.old number)) (choosing records.old number write) records.old }
{
    let record = find_instrument(records, number).ok_or(Refusal::NoInstrument)?;
    if record.chosen {
        return Err(Refusal::AlreadyChosen);
    }
    let chosen = record.chosen_for(write);
    // The look-up has tested the number.
    records[number - 1] = chosen;
    Ok(())
}

// Empties the choice; exclusions stay.
pub fn clear_choice(records: &mut [Record])
    ensures { records.new ≡ map unchosen records.old }
{
    for record in records.iter_mut() {
        *record = record.unchosen();
    }
}

// Whether an instrument counts as excluded: the one place that says so.
pub fn counts_excluded(records: &[Record], number: usize) -> bool
    ensures { result ≡ is_excluded records.now number }
{
    find_sib(records, number).is_some_and(|record| record.excluded)
}
