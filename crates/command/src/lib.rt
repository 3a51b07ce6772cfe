// The bytes of commands: read one after the other, and written word by word.
// The reader says which command comes next, which bytes are its data and what is left; the format is in specs/Words.antt.
#![tactic(auto)]

ghost use Rattle.std.specs.Prelude.{◌≡◌, ℕ, ◌+◌, ◌-◌, ◌*◌, ◌<◌, ◌≤◌, Bool, true, false, length, if◌then◌else◌, Some, None, nat_le};
ghost use Rattle.command.specs.Words.{word_of, control_word, data_word, fits_control, following, bytes_of, Reads, Gives};

use refusal::Refusal;

#[derive(Clone, Copy, Debug, PartialEq, Eq)]
pub enum Command<'a> {
    Control { number: usize, write: bool },
    Test,
    Localise,
    // Its bytes are a part of the input.
    Data(&'a [u8]),
}

// A command and what is left of the input: a record of its own, since its part's name says more than a generic pair's would.
#[derive(Clone, Copy, Debug, PartialEq, Eq)]
pub struct Next<'a> {
    pub command: Command<'a>,
    pub rest: &'a [u8],
}

// A data command has at most this many bytes.
pub const MOST_DATA: usize = 32_767;

// A control word holds at most this number.
const MOST_NUMBER: u16 = 16_383;

const WRITE: u16 = 0x4000;

const DATA: u16 = 0x8000;

// How many bytes follow a word.
fn following(word: u16) -> usize
    ensures { result ≡ following word }
{
    usize::from(word.saturating_sub(DATA))
}

// The command that a word begins and what is left of the bytes after it, which are known to be there.
fn command_of(word: u16, after: &[u8]) -> (Command<'_>, &[u8])
    requires { following word ≤ length after.now }
    ensures { Reads word after.now result.0 result.1.now }
{
    match word {
        0 => (Command::Test, after),
        WRITE => (Command::Localise, after),
        DATA..=0xFFFF => {
            let (bytes, rest) = after.split_at(following(word));
            (Command::Data(bytes), rest)
        }
        number if word < WRITE => (
            Command::Control {
                number: usize::from(number),
                write: false,
            },
            after,
        ),
        _ => (
            Command::Control {
                number: usize::from(word - WRITE),
                write: true,
            },
            after,
        ),
    }
}

// The next command of the input, with the rest. No bytes left is an absence.
pub fn next_command(input: &[u8]) -> Result<Option<Next<'_>>, Refusal>
    ensures { Gives input.now result }
{
    match input {
        [] => Ok(None),
        [_] => Err(Refusal::CutShort),
        [high, low, after @ ..] => {
            let word = u16::from_be_bytes([*high, *low]);
            if after.len() < following(word) {
                return Err(Refusal::CutShort);
            }
            let (command, rest) = command_of(word, after);
            Ok(Some(Next { command, rest }))
        }
    }
}

// The two bytes of a control word, for a number that it can hold.
pub fn control_bytes(number: usize, write: bool) -> Option<[u8; 2]>
    ensures { result ≡ (if fits_control number then Some (bytes_of (control_word number write)) else None) }
{
    let number = u16::try_from(number).ok()?;
    if !(1..=MOST_NUMBER).contains(&number) {
        return None;
    }
    let word = if write { WRITE + number } else { number };
    Some(word.to_be_bytes())
}

// The two bytes that begin a data command of n bytes.
pub fn data_bytes(n: usize) -> Option<[u8; 2]>
    ensures { result ≡ (if nat_le n 32767 then Some (bytes_of (data_word n)) else None) }
{
    if n > MOST_DATA {
        return None;
    }
    let n = u16::try_from(n).ok()?;
    Some((DATA + n).to_be_bytes())
}
