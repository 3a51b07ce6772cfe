// Why the host cannot go on.
ghost use Rattle.std.specs.Prelude.{◌≡◌};
ghost use Rattle.refusal.specs.declared.Refusal.TheVariants.{Table};
ghost use Rattle.host.specs.declared.fault.HostFault.TheVariants.{Refused, Memory};

use refusal::{Refusal, TableFault};
use std::alloc::{AllocError, AllocFailed};

#[derive(Clone, Copy, Debug, PartialEq, Eq)]
pub enum HostFault {
    Refused(Refusal),
    // Want of memory has no number: it is nobody's mistake.
    Memory(AllocError),
}

// By hand, since the `From` that thiserror derives has no contract.
impl From<Refusal> for HostFault {
    ghost from_gives = { λ e r. r ≡ Refused e };

    fn from(refusal: Refusal) -> HostFault {
        HostFault::Refused(refusal)
    }
}

impl From<TableFault> for HostFault {
    ghost from_gives = { λ e r. r ≡ Refused (Table e) };

    fn from(fault: TableFault) -> HostFault {
        HostFault::Refused(fault.into())
    }
}

// The library has two errors for want of memory, and `?` asks for each.
impl From<AllocError> for HostFault {
    ghost from_gives = { λ e r. r ≡ Memory e };

    fn from(error: AllocError) -> HostFault {
        HostFault::Memory(error)
    }
}

impl<T: Drop> From<AllocFailed<T>> for HostFault {
    ghost from_gives = { λ _ r. (e : _) × (r ≡ Memory e) };

    fn from(failed: AllocFailed<T>) -> HostFault {
        HostFault::Memory(failed.into())
    }
}
