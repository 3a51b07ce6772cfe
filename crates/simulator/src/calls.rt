// The calls of the simulated network.
ghost use Rattle.std.specs.Prelude.{◌≡◌};
ghost use Rattle.refusal.specs.declared.Loss.{Loss};
ghost use Rattle.scan.specs.Calls.{Resets, Captures, Shifts, Updates, Once};
ghost use Rattle.scan.specs.Moves.{reset};
ghost use Rattle.simulator.specs.Simulated.{network, by_network, Begins, BeginsIn, Emptied, Filled, Turned, is_lost};
ghost use Rattle.simulator.specs.NetworkFits.{network_fits};

use crate::dealing::{close_all, deal, update_all};
use crate::network::Simulator;
use crate::site::Phase;
use refusal::{Loss, ScanFault};
use scan::Scan;

impl Simulator {
    // Pulls the cable, or puts it back; the network stays as it is.
    pub fn pull_cable(&mut self, out: bool)
        ensures network { network self.new ≡ network self.old }
        ensures cable { self.new.cable_out ≡ out }
    {
        self.cable_out = out;
    }

    // Begins a call, which is lost where the cable is out.
    #[inline]
    fn begin(&mut self) -> Result<(), ScanFault>
        ensures { Begins self.old result self.new }
    {
        if !self.cable_out {
            return Ok(());
        }
        self.lost = self.lost.wrapping_add(1);
        self.phase = Phase::Broken;
        Err(ScanFault::Lost(Loss::Network { passed: 0 }))
    }

    // Begins a call that is refused in any phase but one.
    #[inline]
    #[tactic(auto, using(crate::proofs::Standing::lost_call))]
    fn begin_in(&mut self, phase: Phase) -> Result<(), ScanFault>
        ensures begins { BeginsIn phase self.old result self.new }
        ensures lost { is_lost result ≡ self.old.cable_out }
        ensures cable { self.new.cable_out ≡ self.old.cable_out }
    {
        self.begin()?;
        if self.phase != phase {
            return Err(ScanFault::WrongPhase);
        }
        Ok(())
    }

    // Deals the path's bits out again; the network is at rest then.
    fn empty_path(&mut self)
        requires { self.old.phase ≡ Phase.Scan }
        ensures { Emptied self.old self.new }
    {
        self.phase = Phase::Rest;
        deal(&mut self.sites, self.path.bits.make_contiguous());
    }

    // Gathers what the path offers; the network is in scan then.
    fn fill_path(&mut self)
        requires { self.old.phase ≡ Phase.Rest }
        ensures { Filled self.old self.new }
    {
        self.path.gather(&self.sites);
        self.phase = Phase::Scan;
    }

    // Shifts one bit through the path, whose stuck cells show their bits.
    #[inline]
    fn turn(&mut self, bit: bool) -> bool
        requires { self.old.phase ≡ Phase.Scan }
        ensures { Turned self.old bit result self.new }
    {
        self.path.shift(bit)
    }
}

// The clauses `lost` and `cable` stand at each call: they speak of its answer, so no field can hold them.
impl Scan for Simulator {
    ghost network = { network };

    ghost valid = { λ _. Unit {0} };

    ghost losses = { by_network };

    ghost fits = { λ s. network_fits s };

    #[tactic(auto, using(crate::proofs::Standing::lost_call))]
    fn reset(&mut self) -> Result<(), ScanFault>
        ensures did { Resets by_network (network self.old) result (network self.new) }
        ensures made { Once result (Unit {0}) }
        ensures kept { Unit {0} → Unit {0} }
        ensures lost { is_lost result ≡ self.old.cable_out }
        ensures cable { self.new.cable_out ≡ self.old.cable_out }
    {
        self.begin()?;
        if self.phase == Phase::Scan {
            self.empty_path();
        }
        close_all(&mut self.sites);
        self.phase = Phase::Rest;
        Ok(())
    }

    fn capture(&mut self) -> Result<(), ScanFault>
        ensures did { Unit {0} → Captures by_network (network self.old) result (network self.new) }
        ensures kept { Unit {0} → Unit {0} }
        ensures lost { is_lost result ≡ self.old.cable_out }
        ensures cable { self.new.cable_out ≡ self.old.cable_out }
    {
        self.begin_in(Phase::Rest)?;
        self.fill_path();
        Ok(())
    }

    #[inline]
    fn shift(&mut self, bit: bool) -> Result<bool, ScanFault>
        ensures did { Unit {0} → Shifts by_network (network self.old) bit result (network self.new) }
        ensures kept { Unit {0} → Unit {0} }
        ensures lost { is_lost result ≡ self.old.cable_out }
        ensures cable { self.new.cable_out ≡ self.old.cable_out }
    {
        self.begin_in(Phase::Scan)?;
        Ok(self.turn(bit))
    }

    fn update(&mut self) -> Result<(), ScanFault>
        ensures did { Unit {0} → Updates by_network (network self.old) result (network self.new) }
        ensures kept { Unit {0} → Unit {0} }
        ensures lost { is_lost result ≡ self.old.cable_out }
        ensures cable { self.new.cable_out ≡ self.old.cable_out }
    {
        self.begin_in(Phase::Scan)?;
        self.phase = Phase::Rest;
        update_all(&mut self.sites, self.path.bits.make_contiguous());
        Ok(())
    }
}
