// A scan transport: whatever carries single bits to and from a network of SIBs and instruments.
// A transport means a network (specs/Network.antt); each call says by its contract what it does to that network.
#![tactic(auto)]

ghost use Rattle.refusal.specs.declared.Loss.{Loss};
ghost use Rattle.scan.specs.Network.{Network, Fits, Each};
ghost use Rattle.scan.specs.Calls.{Resets, Captures, Shifts, Updates, Once};

mod laws;

pub use laws::{
    calls_change_only_their_part, pass_reads_and_writes, path_takes_open_doorways,
    sound_path_is_a_queue, what_is_put_is_shown,
};
use refusal::ScanFault;

pub trait Scan {
    ghost network: { Self → Network };

    // A state that making the transport and its calls can give. A reset that went through gives one from any state, so it is no
    // invariant of the type, and each call names it.
    ghost valid: { Self → Type 0 };

    // Which losses the transport can answer, so that whoever calls it can only hand on what it was given.
    ghost losses: { Loss → Type 0 };

    // Closes every SIB; works in every phase.
    fn reset(&mut self) -> Result<(), ScanFault>
        ensures did { Resets losses (network self.old) result (network self.new) }
        ensures made { Once result (valid self.new) }
        ensures kept { valid self.old → valid self.new };

    // At rest: the cells of the active path take what their SIBs and instruments offer.
    fn capture(&mut self) -> Result<(), ScanFault>
        ensures did { valid self.old → Captures losses (network self.old) result (network self.new) }
        ensures kept { valid self.old → valid self.new };

    // In scan: the first cell's bit comes out, and the given bit goes in at the end.
    fn shift(&mut self, bit: bool) -> Result<bool, ScanFault>
        ensures did { valid self.old → Shifts losses (network self.old) bit result (network self.new) }
        ensures kept { valid self.old → valid self.new };

    // In scan: SIBs and instruments on the active path take what their cells show.
    fn update(&mut self) -> Result<(), ScanFault>
        ensures did { valid self.old → Updates losses (network self.old) result (network self.new) }
        ensures kept { valid self.old → valid self.new };

    ghost fits: { (x : Self) → Each Fits (network x).sites };
}
