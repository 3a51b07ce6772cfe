// What one site adds to a path, and what it takes from one.
ghost use Rattle.std.specs.Prelude.{◌≡◌, ℕ, ◌+◌, ◌^◌, ◌<◌, ◌≤◌, Bool, false, List, ◌++◌, length, drop, vec_len, vec_capacity};
ghost use Rattle.std.specs.Option.{option_to_list};
ghost use Rattle.scan.specs.Network.{live};
ghost use Rattle.scan.specs.Path.{offered, flaws_of, reach_after};
ghost use Rattle.scan.specs.Moves.{closed, put, updated};
ghost use Rattle.simulator.specs.Meaning.{meaning, holding, offered_bit, stuck_at};

use crate::site::{Offer, Site, StuckPlace};
use table::Kind;

impl Offer {
    fn bit(self, held: bool) -> bool
        ensures { result ≡ offered_bit self held }
    {
        match self {
            Offer::Keeps => held,
            Offer::Inverts => !held,
        }
    }
}

impl Site {
    // Whether it is an open instrument, whose row is then on the path with it.
    pub(crate) fn is_live(&self) -> bool
        ensures { result ≡ live (meaning self.now) }
    {
        match self.kind {
            Kind::Doorway => false,
            Kind::Instrument => self.latch,
        }
    }

    // How deep a SIB below it may stand to be on the path.
    pub(crate) fn reach(&self) -> u16
        ensures { (before : ℕ) → self.now.depth ≤ before → result ≡ reach_after before (meaning self.now).build self.now.latch }
    {
        match self.kind {
            Kind::Doorway if self.latch => u16::from(self.depth) + 1,
            _ => u16::from(self.depth),
        }
    }

    pub(crate) fn close(&mut self)
        ensures { meaning self.new ≡ closed (meaning self.old) }
    {
        self.latch = false;
    }

    // Adds what it offers to a path that is captured.
    pub(crate) fn offer_onto(&self, path: &mut Vec<bool>)
        requires { vec_len path.old + length (flaws_of (meaning self.now)) ≤ vec_capacity path.old }
        ensures bits { path.new.items ≡ path.old.items ++ offered (meaning self.now) }
        ensures len { vec_len path.new ≡ vec_len path.old + length (flaws_of (meaning self.now)) }
        ensures room { vec_capacity path.new ≡ vec_capacity path.old }
    {
        path.push_reserved(self.latch);
        if self.is_live() {
            for held in &self.held {
                path.push_reserved(self.offer.bit(*held));
            }
        }
    }

    // Its stuck cell, where the SIB's own cell has this place on the path and its row is on the path with it.
    #[tactic(auto, using(crate::proofs::Places::stuck_part, std::proofs::lemmas::Bool::Decides::nat_tests))]
    pub(crate) fn stuck_on(&self, place: usize) -> Option<StuckPlace>
        requires { place + length (flaws_of (meaning self.now)) < 2 ^ 64 }
        ensures { option_to_list result ≡ stuck_at place self.now }
    {
        let stuck = self.fault?;
        if !self.is_live() || stuck.cell >= self.row.len() {
            return None;
        }
        Some(StuckPlace {
            place: place + 1 + stuck.cell,
            bit: stuck.bit,
        })
    }

    // Takes its part from the front of a path's bits into its cells; answers the bits that are left.
    pub(crate) fn take<'a>(&mut self, bits: &'a [bool]) -> &'a [bool]
        requires { length (flaws_of (meaning self.old)) ≤ length bits.now }
        ensures site { meaning self.new ≡ put (meaning self.old) bits.now }
        ensures rest { result.now ≡ drop (length (flaws_of (meaning self.old))) bits.now }
    {
        let (cell, rest) = bits.split_first().unwrap();
        self.cell = *cell;
        if !self.is_live() {
            return rest;
        }
        let (row, rest) = rest.split_at(self.row.len());
        self.row.copy_from_slice(row);
        rest
    }

    // An instrument holds what its cells show.
    #[tactic(auto, using(crate::proofs::Rows::shown_row, std::proofs::lemmas::List::set_past))]
    fn hold(&mut self)
        ensures { meaning self.new ≡ holding (meaning self.old) }
    {
        self.held.copy_from_slice(&self.row);
        if let Some(stuck) = self.fault {
            if let Some(bit) = self.held.get_mut(stuck.cell) {
                *bit = stuck.bit;
            }
        }
    }

    // An open instrument holds what its cells show, and the latch takes what the SIB's cell shows.
    pub(crate) fn update(&mut self)
        ensures { meaning self.new ≡ updated (meaning self.old) }
    {
        if self.is_live() {
            self.hold();
        }
        self.latch = self.cell;
    }
}
