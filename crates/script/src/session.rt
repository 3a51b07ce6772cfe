// Statements are carried out one after the other; the first that is refused ends the text.
ghost use Rattle.std.specs.Prelude.{◌<◌, length, IfSome, IfOk};

use crate::die::Die;
use crate::line::Line;
use host::{Group, HostFault};
use pdl::{Statement, next_statement, number_of, skip_blanks};
use refusal::Refusal;
use std::alloc::{AllocError, Global};
use std::mem;

// A text has at most this many bytes.
pub const MOST_TEXT: usize = 4_096;

#[derive(Drop)]
struct Session {
    die: Die,
    group: Group,
    lines: Vec<Line>,
}

// The bits of binary digits. (The tests have one that skips blanks.)
fn bits_of(heap: Global, digits: &[u8]) -> Result<Vec<bool>, AllocError> {
    digits.iter().map(|digit| *digit == b'1').collect(heap)
}

// The number that digits name. One that is too large to be held names no instrument.
fn number_named(digits: &[u8]) -> Result<usize, Refusal> {
    number_of(digits).ok_or(Refusal::NoInstrument)
}

impl Session {
    // Sends the group, and begins another.
    fn apply(&mut self, heap: Global) -> Result<(), HostFault> {
        let group = mem::replace(&mut self.group, Group::new(heap));
        let sent = group.apply(heap).map_err(|unsent| unsent.fault)?;
        let reply = self.die.reply_to(heap, sent.command.as_slice())?;
        self.lines.push(Line::Command(sent.command))?;
        self.lines.push(Line::Reply(reply))?;
        sent.pending.write_off();
        Ok(())
    }

    // A statement is data, and is taken apart here alone.
    fn carry_out(&mut self, heap: Global, statement: Statement) -> Result<(), HostFault> {
        match statement {
            Statement::Write { number, digits } => {
                let bits = bits_of(heap, digits)?;
                self.group
                    .write(self.die.records(), number_named(number)?, bits.as_slice())
            }
            Statement::Get { number } => self.group.get(self.die.records(), number_named(number)?),
            Statement::Apply => self.apply(heap),
        }
    }

    // Carries out the next statement and answers what follows it; None where only blanks are left.
    fn step<'a>(&mut self, heap: Global, text: &'a [u8]) -> Result<Option<&'a [u8]>, HostFault>
        ensures { IfOk result (λ o. IfSome o (λ rest. length rest.now < length text.now)) }
    {
        let Some(next) = next_statement(text)? else {
            return Ok(None);
        };
        self.carry_out(heap, next.statement)?;
        Ok(Some(next.rest))
    }

    // Carries out statements up to the end of the text or the first that is refused.
    fn run(&mut self, heap: Global, text: &[u8]) -> Result<(), AllocError> {
        let mut rest = text;
        loop {
            match self.step(heap, rest) {
                Ok(Some(after)) => rest = after,
                Ok(None) => return Ok(()),
                Err(HostFault::Refused(refusal)) => {
                    let at = text.len() - skip_blanks(rest).len();
                    self.lines.push(Line::Refused { refusal, at })?;
                    return Ok(());
                }
                Err(HostFault::Memory(error)) => return Err(error),
            }
        }
    }
}

// The lines of a text. Want of memory is the only error.
pub fn run_text(heap: Global, text: &[u8]) -> Result<Vec<Line>, AllocError> {
    let needed = text.len();
    if needed > MOST_TEXT {
        let refusal = Refusal::TooSmall { needed };
        return Ok(vec![in heap; Line::Refused { refusal, at: 0 }]?);
    }
    // Where no die can be made, memory is wanting: `Die::new` promises that. A `match` over all faults of a network would have
    // arms that never come, and an `AllocError` has one value.
    let die = Die::new(heap).map_err(|_| AllocError)?;
    let mut session = Session {
        die,
        group: Group::new(heap),
        lines: Vec::new(heap),
    };
    session.run(heap, text)?;
    Ok(session.lines)
}
