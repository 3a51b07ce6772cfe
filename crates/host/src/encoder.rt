// From orders to command bytes.
use crate::fault::HostFault;
use crate::group::{Action, Order};
use bits::{BitPlace, store_bit};
use command::{control_bytes, data_bytes};
use refusal::Refusal;
use std::alloc::{AllocError, Global};
use std::cmp::Reverse;

impl Order {
    // The bits that are to be written, among those of the group.
    fn bits<'a>(&self, held: &'a [bool]) -> Option<&'a [bool]> {
        match self.action {
            Action::Read => None,
            Action::Write { first } => held.get(first..)?.get(..self.length),
        }
    }
}

// The bits of the writes among the orders, each with its number, the highest number first. No two orders have one number.
fn writes_of<'a>(
    heap: Global,
    orders: &[Order],
    held: &'a [bool],
) -> Result<Vec<(usize, &'a [bool])>, AllocError> {
    let mut writes: Vec<(usize, &[bool])> = orders
        .iter()
        .filter_map(|order| Some((order.number, order.bits(held)?)))
        .collect(heap)?;
    writes.sort_unstable_by_key(|(number, _)| Reverse(*number));
    Ok(writes)
}

// How many bytes the bits fill.
fn data_size(writes: &[(usize, &[bool])]) -> usize {
    writes
        .iter()
        .fold(0usize, |count, (_, bits)| count.saturating_add(bits.len()))
        .div_ceil(8)
}

// The bits in so many bytes, and zero pad bits.
fn packed(heap: Global, writes: &[(usize, &[bool])], size: usize) -> Result<Vec<u8>, AllocError> {
    let mut data = vec![in heap; 0u8; size]?;
    // The place goes on bit by bit, with no division.
    let mut at = BitPlace::start();
    for (_, bits) in writes {
        for bit in *bits {
            let _ = store_bit(data.as_mut_slice(), at, *bit);
            at = at.next();
        }
    }
    Ok(data)
}

// The command bytes of a group: a control word for each order as given, then one data command.
pub(crate) fn encode(heap: Global, orders: &[Order], bits: &[bool]) -> Result<Vec<u8>, HostFault> {
    if orders.is_empty() {
        return Err(Refusal::NothingChosen.into());
    }
    let writes = writes_of(heap, orders, bits)?;
    let size = data_size(writes.as_slice());
    let data_word = data_bytes(size).ok_or(Refusal::GroupTooLong)?;
    let mut command = Vec::new(heap);
    for order in orders {
        let write = matches!(order.action, Action::Write { .. });
        let word = control_bytes(order.number, write).ok_or(Refusal::NoInstrument)?;
        command.extend_from_slice(&word)?;
    }
    command.extend_from_slice(&data_word)?;
    command.extend_from_slice(packed(heap, writes.as_slice(), size)?.as_slice())?;
    Ok(command)
}
