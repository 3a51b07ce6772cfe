// Single bits of a row of bytes. This crate alone knows the order of bits in a byte: from the high end.
// It promises that a bit is read where it stands in the row, and that a stored bit changes that place alone.
#![tactic(auto)]

ghost use Rattle.std.specs.Prelude.{◌≡◌, ℕ, ◌+◌, ◌-◌, ◌*◌, ◌<◌, Bool, true, false, length, is_some};
ghost use Rattle.bits.specs.Place.{next_place, skipped, FlatAfter};
ghost use Rattle.bits.specs.Order.{weight, bit_at, with_bit, has_place, taken, stored, ReadsItsPlace, ChangesItsPlace};

// What the bit at a place counts for in its byte.
fn weight_of(place: usize) -> u8
    requires { place < 8 }
    ensures { result ≡ weight place }
{
    1 << (7 - place)
}

fn bit_in(byte: u8, place: usize) -> bool
    requires { place < 8 }
    ensures { result ≡ bit_at byte place }
{
    (byte >> (7 - place)) % 2 == 1
}

fn with_bit(byte: u8, place: usize, bit: bool) -> u8
    requires { place < 8 }
    ensures { result ≡ with_bit byte place bit }
{
    match (bit_in(byte, place), bit) {
        (true, false) => byte - weight_of(place),
        (false, true) => byte + weight_of(place),
        _ => byte,
    }
}

// The bit at a place of the row, if the row has it.
pub fn take_bit(bytes: &[u8], at: BitPlace) -> Option<bool>
    ensures value { result ≡ taken bytes.now at.byte at.place }
    ensures in_row { ReadsItsPlace bytes.now at.byte at.place result }
{
    if at.place >= 8 {
        return None;
    }
    let byte = bytes.get(at.byte)?;
    Some(bit_in(*byte, at.place))
}

// Stores a bit at a place of the row; None where the row has no such place.
pub fn store_bit(bytes: &mut [u8], at: BitPlace, bit: bool) -> Option<()>
    ensures test { is_some result ≡ has_place bytes.old at.byte at.place }
    ensures after { bytes.new ≡ stored bytes.old at.byte at.place bit }
    ensures in_row { ChangesItsPlace bytes.old at.byte at.place bit bytes.new }
{
    // An index after a test, and no `get_mut`: with that the proof did not close, since no answer can cite what it leaves.
    if at.byte >= bytes.len() || at.place >= 8 {
        return None;
    }
    bytes[at.byte] = with_bit(bytes[at.byte], at.place, bit);
    Some(())
}

// A place in a row of bits, as a byte and the place inside it, so that going on takes no division.
#[derive(Clone, Copy, Debug, PartialEq, Eq, PartialOrd, Ord)]
pub struct BitPlace {
    pub byte: usize,
    pub place: usize,
}

impl BitPlace {
    pub fn start() -> BitPlace
        ensures { result ≡ record { byte = 0; place = 0 } }
    {
        BitPlace { byte: 0, place: 0 }
    }

    // The place after this one.
    pub fn next(self) -> BitPlace
        ensures value { result ≡ next_place self }
        ensures flat { FlatAfter self 1 result }
    {
        if self.place < 7 {
            return BitPlace {
                place: self.place + 1,
                ..self
            };
        }
        BitPlace {
            byte: self.byte.wrapping_add(1),
            place: 0,
        }
    }

    // The place a number of bits further on.
    pub fn skip(self, count: u16) -> BitPlace
        ensures value { result ≡ skipped self count }
        ensures flat { FlatAfter self count result }
    {
        let places = self.place % 8 + usize::from(count);
        BitPlace {
            byte: self.byte.wrapping_add(places / 8),
            place: places % 8,
        }
    }
}
