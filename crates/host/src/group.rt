// A group takes orders; iApply ends it and gives its command bytes and a pending reply.
ghost use Rattle.std.specs.Prelude.{◌≡◌, [], ◌∷◌, ◌++◌, length, OnOk, OnErr, MatchResult, is_ok, if◌then◌else◌};
ghost use Rattle.refusal.specs.Checks.{answered, first_failing};
ghost use Rattle.table.specs.Marks.{numbered};
ghost use Rattle.host.specs.Orders.{ordered, order_checks, digit_check, Answers, IsRead, IsWrite, Takes};

use crate::encoder::encode;
use crate::fault::HostFault;
use refusal::Refusal;
use std::alloc::{AllocError, Global};
use table::{Record, check_table, find_instrument};

#[derive(Clone, Copy, Debug, PartialEq, Eq)]
pub enum Action {
    Read,
    // Its bits begin here among the group's. The first of them is shifted first.
    Write { first: usize },
}

// An order keeps what it needs of its instrument, so that nothing after it asks for the table. It is a plain value: the bits of
// all writes stand in the group, one write after the other.
#[derive(Clone, Copy, Debug, PartialEq, Eq)]
pub struct Order {
    pub number: usize,
    pub length: usize,
    pub action: Action,
}

#[derive(Drop)]
pub struct Group {
    orders: Vec<Order>,
    bits: Vec<bool>,
}

// A reply that is still to come, for these orders. A type of its own beside `Group`: what was sent takes no more orders.
#[derive(Drop)]
pub struct Pending {
    orders: Vec<Order>,
}

#[derive(Drop)]
pub struct Sent {
    pub command: Vec<u8>,
    pub pending: Pending,
}

// A group that was not sent comes back.
#[derive(Drop)]
pub struct Unsent {
    pub group: Group,
    pub fault: HostFault,
}

impl Group {
    pub fn new(heap: Global) -> Group
        ensures { (result.orders.items ≡ []) × (result.bits.items ≡ []) }
    {
        Group {
            orders: Vec::new(heap),
            bits: Vec::new(heap),
        }
    }

    fn has_ordered(&self, number: usize) -> bool
        ensures { result ≡ ordered self.now.orders.items number }
    {
        self.orders.iter().any(|order| order.number == number)
    }

    // The length of the instrument that an order names, which no earlier order has named.
    fn look_up(&self, table: &[Record], number: usize) -> Result<usize, Refusal>
        ensures { result ≡ answered (numbered table.now number).length (first_failing (order_checks table.now self.now.orders.items number)) }
    {
        check_table(table)?;
        // `let .. else`: a rule of the project for the look-up of an order (docs/DECISIONS.md).
        let Some(record) = find_instrument(table, number) else {
            return Err(Refusal::NoInstrument);
        };
        if self.has_ordered(number) {
            return Err(Refusal::AlreadyChosen);
        }
        Ok(usize::from(record.length))
    }

    // Orders an instrument to be read. Refused, the group stays as it was.
    pub fn get(&mut self, table: &[Record], number: usize) -> Result<(), HostFault>
        ensures value { Answers (first_failing (order_checks table.now self.old.orders.items number)) result }
        ensures taken { OnOk result (Takes self.old.orders.items number (numbered table.now number).length IsRead self.new.orders.items) }
        ensures refused { OnErr result (self.new.orders.items ≡ self.old.orders.items) }
        ensures bits { self.new.bits.items ≡ self.old.bits.items }
    {
        let order = Order {
            number,
            length: self.look_up(table, number)?,
            action: Action::Read,
        };
        self.orders.push(order)?;
        Ok(())
    }

    // Orders an instrument to be written; the first of the bits is shifted first. Refused, the group stays as it was.
    pub fn write(&mut self, table: &[Record], number: usize, bits: &[bool]) -> Result<(), HostFault>
        ensures value { Answers (first_failing (order_checks table.now self.old.orders.items number ++ digit_check table.now number (length bits.now) ∷ [])) result }
        ensures taken { OnOk result (Takes self.old.orders.items number (numbered table.now number).length (IsWrite self.new.bits.items bits.now) self.new.orders.items) }
        ensures refused { OnErr result (self.new.orders.items ≡ self.old.orders.items) }
        ensures bits { self.new.bits.items ≡ (if is_ok result then self.old.bits.items ++ bits.now else self.old.bits.items) }
    {
        let length = self.look_up(table, number)?;
        if bits.len() != length {
            return Err(Refusal::DigitCount.into());
        }
        let first = self.bits.len();
        // Room for the order comes first, so that nothing has to be undone.
        self.orders.reserve(1)?;
        self.bits.extend_from_slice(bits)?;
        self.orders.push_reserved(Order {
            number,
            length,
            action: Action::Write { first },
        });
        Ok(())
    }

    // Ends the group: its command bytes go out, and its reply is pending.
    pub fn apply(self, heap: Global) -> Result<Sent, Unsent>
        ensures { MatchResult result (λ s. s.pending.orders ≡ self.orders) (λ u. u.group ≡ self) }
    {
        // No `?`: a refused group goes back with its refusal.
        match encode(heap, self.orders.as_slice(), self.bits.as_slice()) {
            Ok(command) => {
                let Group { orders, bits: _ } = self;
                Ok(Sent {
                    command,
                    pending: Pending { orders },
                })
            }
            Err(fault) => Err(Unsent { group: self, fault }),
        }
    }

    // Gives an unsent group up.
    pub fn abandon(self) {
        drop(self);
    }
}

impl Pending {
    // Gives the reply up unread.
    pub fn write_off(self) {
        drop(self);
    }
}
