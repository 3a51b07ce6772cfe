// What the tests of several modules set up.
use refusal::{Loss, ScanFault};
use simulator::{Offer, Setting, Simulator};
use std::alloc::{AllocError, Global};
use std::test::Fail;
use table::Record;

pub(crate) const KEEPS: Setting = Setting {
    offer: Offer::Keeps,
    fault: None,
};

pub(crate) const INVERTS: Setting = Setting {
    offer: Offer::Inverts,
    fault: None,
};

// The network itself lost a call.
pub(crate) const LOST: ScanFault = ScanFault::Lost(Loss::Network { passed: 0 });

// The bits of binary digits; blanks part them for the eye.
pub(crate) fn bits_of(heap: Global, digits: &[u8]) -> Result<Vec<bool>, AllocError> {
    digits
        .iter()
        .filter(|digit| **digit != b' ')
        .map(|digit| *digit == b'1')
        .collect(heap)
}

// A network that holds digits at first.
pub(crate) fn network_of(
    heap: Global,
    records: &[Record],
    settings: &[Setting],
    held: &[u8],
) -> Result<Simulator, Fail> {
    let bits = bits_of(heap, held)?;
    Ok(Simulator::new(heap, records, settings, bits.as_slice())?)
}
