// A line of output.
use refusal::Refusal;
use std::fmt;

#[derive(Drop)]
pub enum Line {
    // The bytes of a group's commands, and of its reply.
    Command(Vec<u8>),
    Reply(Vec<u8>),
    // Why a statement was refused, and the offset of its first byte.
    Refused { refusal: Refusal, at: usize },
}

fn fmt_bytes<W: fmt::Write>(f: &mut fmt::Formatter<W>, letter: &str, bytes: &[u8]) -> fmt::Result {
    write!(f, "{letter}")?;
    for byte in bytes {
        write!(f, " {byte:02X}")?;
    }
    Ok(())
}

impl fmt::Display for Line {
    fn fmt<W: fmt::Write>(&self, f: &mut fmt::Formatter<W>) -> fmt::Result {
        match self {
            Line::Command(bytes) => fmt_bytes(f, "C", bytes.as_slice()),
            Line::Reply(bytes) => fmt_bytes(f, "R", bytes.as_slice()),
            Line::Refused { refusal, at } => write!(f, "E {} {at}", refusal.number()),
        }
    }
}
