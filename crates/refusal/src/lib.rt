// Every answer that says no, as an enum with the values that belong to it.
// Two definitions in specs/Numbers.antt give each case its number and the value that it carries; `number` and `detail` answer them.
#![tactic(auto)]

ghost use Rattle.std.specs.Prelude.{◌≡◌};
ghost use Rattle.refusal.specs.Numbers.{refusal_number, table_number, scan_number, refusal_detail};
ghost use Rattle.refusal.specs.declared.Refusal.TheVariants.{Table, Scan};

// Why a table of SIBs is refused.
#[derive(Clone, Copy, Debug, PartialEq, Eq)]
pub enum TableFault {
    // It has no record, or more than the numbers reach.
    Size,
    // A record breaks a rule; the highest such number.
    Broken { number: usize },
}

// The part that lost a call, and how many parts (chip, cutter, driver) its answer came up through, modulo 2^64.
#[derive(Clone, Copy, Debug, PartialEq, Eq)]
pub enum Loss {
    Network { passed: u64 },
    Cutter { passed: u64 },
}

// Why a call of a scan transport is refused.
#[derive(Clone, Copy, Debug, PartialEq, Eq)]
pub enum ScanFault {
    Lost(Loss),
    WrongPhase,
}

#[derive(Clone, Copy, Debug, PartialEq, Eq)]
pub enum Refusal {
    Table(TableFault),
    // The input ends inside a command.
    CutShort,
    // The number names no instrument.
    NoInstrument,
    AlreadyChosen,
    NothingChosen,
    // The data bytes are not as many as the chosen writes fill.
    DataLength,
    // A buffer is too small; the size that it needs.
    TooSmall { needed: usize },
    Scan(ScanFault),
    NotStatement,
    // The digits of a write are not as many as its instrument has bits.
    DigitCount,
    // A group's data does not fit one data command.
    GroupTooLong,
    // No translator could have sent this reply.
    BadReply,
}

// The value that a refusal carries beside its number.
#[derive(Clone, Copy, Debug, PartialEq, Eq)]
pub enum Detail {
    // The highest number whose record breaks a rule.
    Record { number: usize },
    // The size that a buffer needs.
    Needed { size: usize },
    LostBy(Loss),
}

// Written out, since clauses read `from_gives`, which a derive would not have.
impl From<TableFault> for Refusal {
    ghost from_gives = { λ f r. r ≡ Table f };

    fn from(fault: TableFault) -> Refusal {
        Refusal::Table(fault)
    }
}

impl From<ScanFault> for Refusal {
    ghost from_gives = { λ f r. r ≡ Scan f };

    fn from(fault: ScanFault) -> Refusal {
        Refusal::Scan(fault)
    }
}

impl TableFault {
    pub fn number(self) -> u8
        ensures { result ≡ table_number self }
    {
        match self {
            TableFault::Size => 1,
            TableFault::Broken { .. } => 2,
        }
    }
}

impl ScanFault {
    pub fn number(self) -> u8
        ensures { result ≡ scan_number self }
    {
        match self {
            ScanFault::Lost(_) => 9,
            ScanFault::WrongPhase => 14,
        }
    }
}

impl Refusal {
    // The number by which documents and the program's `E` line know the refusal; no code goes by it.
    pub fn number(self) -> u8
        ensures { result ≡ refusal_number self }
    {
        match self {
            Refusal::Table(fault) => fault.number(),
            Refusal::CutShort => 3,
            Refusal::NoInstrument => 4,
            Refusal::AlreadyChosen => 5,
            Refusal::NothingChosen => 6,
            Refusal::DataLength => 7,
            Refusal::TooSmall { .. } => 8,
            Refusal::Scan(fault) => fault.number(),
            Refusal::NotStatement => 10,
            Refusal::DigitCount => 11,
            Refusal::GroupTooLong => 12,
            Refusal::BadReply => 13,
        }
    }

    pub fn detail(self) -> Option<Detail>
        ensures { result ≡ refusal_detail self }
    {
        match self {
            Refusal::Table(TableFault::Broken { number }) => Some(Detail::Record { number }),
            Refusal::TooSmall { needed } => Some(Detail::Needed { size: needed }),
            Refusal::Scan(ScanFault::Lost(loss)) => Some(Detail::LostBy(loss)),
            _ => None,
        }
    }
}
