// Reads the statements of a PDL text: `iWrite iN 0bDDD;`, `iGet iN;` and `iApply;`, with blanks between them.
// It promises that what it answers is what the bytes spell, that every part points into the text, and that it
// refuses only where no statement stands.
#![tactic(auto)]

ghost use Rattle.std.specs.Prelude.{◌≡◌, ℕ, ◌+◌, ◌-◌, ◌*◌, IsTrue, ◌^◌, ◌<◌, List, ◌++◌, take_while, option_map, option_copied, SomeIff};
ghost use Rattle.pdl.specs.Text.{blank, digit, AllOf, Stops, Blanks, Gives, Shorter, decimal};
ghost use Rattle.pdl.specs.Parse.{member, behind, unblanked, past, run, numbered, after_gap, number_after, digits_after, write_at, get_at, apply_at, stated, reading, parts, told, heard};

use refusal::Refusal;

// What a statement says, by the bytes of the text: a number's decimal digits and a write's binary ones, bare.
#[derive(Clone, Copy, Debug, PartialEq, Eq)]
pub enum Statement<'a> {
    Write { number: &'a [u8], digits: &'a [u8] },
    Get { number: &'a [u8] },
    Apply,
}

// A statement and what is left of the text: a record of its own, as that of commands is, for the name of its part.
#[derive(Clone, Copy, Debug, PartialEq, Eq)]
pub struct Next<'a> {
    pub statement: Statement<'a>,
    // What follows the statement's `;`.
    pub rest: &'a [u8],
}

// The bytes that come in runs. An enum and no closure, since clauses name a class's test by `member`; a closure's would be one
// more ghost argument of each caller.
#[derive(Clone, Copy)]
enum Class {
    Blank,
    Digit,
    Bit,
}

impl Class {
    fn has(self, byte: u8) -> bool
        ensures { result ≡ member self byte }
    {
        match self {
            Class::Blank => matches!(byte, b' ' | b'\n'),
            Class::Digit => byte.is_ascii_digit(),
            Class::Bit => matches!(byte, b'0' | b'1'),
        }
    }
}

// The longest front of one class, and what is behind it.
fn split<'a>(text: &'a [u8], class: Class) -> (&'a [u8], &'a [u8])
    ensures first { result.0.now ≡ take_while (member class) text.now }
    ensures second { result.1.now ≡ behind (member class) text.now }
{
    let front = text.iter().take_while(|byte| class.has(**byte)).count();
    text.split_at(front)
}

// The text from its first byte that is not a blank.
pub fn skip_blanks(text: &[u8]) -> &[u8]
    ensures cut { (before : List ℕ) × Blanks before × (text.now ≡ before ++ result.now) }
    ensures stops { Stops blank result.now }
    ensures same { result.now ≡ unblanked text.now }
{
    split(text, Class::Blank).1
}

// The rest after a word that the text begins with.
fn strip<'a>(text: &'a [u8], word: &[u8]) -> Option<&'a [u8]>
    ensures { option_copied result ≡ past word.now text.now }
{
    text.strip_prefix(word)
}

// One byte or more of a class, and the rest.
fn run_of<'a>(text: &'a [u8], class: Class) -> Option<(&'a [u8], &'a [u8])>
    ensures { option_map parts result ≡ run (member class) text.now }
{
    let (bytes, rest) = split(text, class);
    (!bytes.is_empty()).then_some((bytes, rest))
}

// A number's digits, of which the first is not 0, and the rest.
fn number(text: &[u8]) -> Option<(&[u8], &[u8])>
    ensures { option_map parts result ≡ numbered text.now }
{
    match text {
        [b'0', ..] => None,
        _ => run_of(text, Class::Digit),
    }
}

// The rest after a gap and a word.
fn after_gap<'a>(text: &'a [u8], word: &[u8]) -> Option<&'a [u8]>
    ensures { option_copied result ≡ after_gap word.now text.now }
{
    let (_, after) = run_of(text, Class::Blank)?;
    strip(after, word)
}

// A gap, `i` and a number: the number, and the rest.
fn number_after(text: &[u8]) -> Option<(&[u8], &[u8])>
    ensures { option_map parts result ≡ number_after text.now }
{
    number(after_gap(text, b"i")?)
}

// A gap, `0b` and binary digits: the digits, and the rest.
fn digits_after(text: &[u8]) -> Option<(&[u8], &[u8])>
    ensures { option_map parts result ≡ digits_after text.now }
{
    run_of(after_gap(text, b"0b")?, Class::Bit)
}

// A write that the text begins with.
fn write_at(text: &[u8]) -> Option<Next<'_>>
    ensures { option_map told result ≡ write_at text.now }
{
    let (number, after) = number_after(strip(text, b"iWrite")?)?;
    let (digits, after) = digits_after(after)?;
    let rest = strip(after, b";")?;
    Some(Next {
        statement: Statement::Write { number, digits },
        rest,
    })
}

// A get that the text begins with.
fn get_at(text: &[u8]) -> Option<Next<'_>>
    ensures { option_map told result ≡ get_at text.now }
{
    let (number, after) = number_after(strip(text, b"iGet")?)?;
    let rest = strip(after, b";")?;
    Some(Next {
        statement: Statement::Get { number },
        rest,
    })
}

// An apply that the text begins with.
fn apply_at(text: &[u8]) -> Option<Next<'_>>
    ensures { option_map told result ≡ apply_at text.now }
{
    let rest = strip(text, b"iApply;")?;
    Some(Next {
        statement: Statement::Apply,
        rest,
    })
}

// The statement that the text begins with, with no blanks before it.
fn statement_at(text: &[u8]) -> Option<Next<'_>>
    ensures { option_map told result ≡ stated text.now }
{
    write_at(text)
        .or_else(|| get_at(text))
        .or_else(|| apply_at(text))
}

// The next statement and what follows it; `Ok(None)` where only blanks are left.
#[tactic(auto, using(crate::proofs::Laws::heard_gives, crate::proofs::Laws::heard_shorter))]
pub fn next_statement(text: &[u8]) -> Result<Option<Next<'_>>, Refusal>
    ensures gives { Gives text.now result }
    ensures shorter { Shorter text.now result }
    ensures same { heard result ≡ reading text.now }
{
    let after = skip_blanks(text);
    if after.is_empty() {
        return Ok(None);
    }
    statement_at(after).map(Some).ok_or(Refusal::NotStatement)
}

// The number that one more digit makes of the number before it. `None` where it is 2^64 or more, or the byte is no digit.
fn with_digit(value: usize, byte: u8) -> Option<usize>
    ensures { SomeIff result (IsTrue (digit byte) × (value * 10 + (byte - 48) < 2 ^ 64)) (value * 10 + (byte - 48)) }
{
    if !Class::Digit.has(byte) {
        return None;
    }
    value.checked_mul(10)?.checked_add(usize::from(byte - b'0'))
}

// The value of decimal digits, however many (of none it is 0). `None` where it is 2^64 or more, or a byte is no digit.
pub fn number_of(digits: &[u8]) -> Option<usize>
    ensures { SomeIff result (AllOf digit digits.now × (decimal digits.now < 2 ^ 64)) (decimal digits.now) }
{
    digits
        .iter()
        .try_fold(0, |value, byte| with_digit(value, *byte))
}
