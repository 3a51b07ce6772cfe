// The active path while it is in scan: gathered at a capture, shifted, and dealt out again.
ghost use Rattle.std.specs.Prelude.{◌≡◌, ◌+◌, ◌<◌, ◌≤◌, [], ◌++◌, length, IfOk, vec_len, vec_capacity};
ghost use Rattle.std.specs.Option.{option_to_list};
ghost use Rattle.std.specs.VecDeque.{deque_len, deque_capacity};
ghost use Rattle.scan.specs.Path.{path_offered, path_flaws};
ghost use Rattle.scan.specs.Moves.{first, moved};
ghost use Rattle.simulator.specs.Meaning.{meanings, all_cells, stuck_places, forced, SameRoom};

use crate::site::{Site, StuckPlace};
use std::alloc::{AllocError, Global};
use std::collections::VecDeque;
use std::mem;

// The bits of its cells, and its stuck cells, from the first on.
#[derive(Drop)]
pub(crate) struct Path {
    pub(crate) bits: VecDeque<bool>,
    pub(crate) stuck: Vec<StuckPlace>,
}

// Lists a stuck cell, if there is one.
fn note(stuck: &mut Vec<StuckPlace>, cell: Option<StuckPlace>)
    requires { vec_len stuck.old < vec_capacity stuck.old }
    ensures cells { stuck.new.items ≡ stuck.old.items ++ option_to_list cell }
    ensures len { vec_len stuck.new ≤ vec_len stuck.old + 1 }
    ensures room { vec_capacity stuck.new ≡ vec_capacity stuck.old }
{
    if let Some(place) = cell {
        stuck.push_reserved(place);
    }
}

// Has every stuck cell of a path show its bit.
#[inline]
fn force_all(bits: &mut VecDeque<bool>, stuck: &[StuckPlace])
    ensures bits { bits.new.items ≡ forced bits.old.items stuck.now }
    ensures len { deque_len bits.new ≡ deque_len bits.old }
    ensures room { deque_capacity bits.new ≡ deque_capacity bits.old }
{
    for cell in stuck {
        if let Some(bit) = bits.get_mut(cell.place) {
            *bit = cell.bit;
        }
    }
}

impl Path {
    // An empty path with room for a number of cells, at most one of each site stuck.
    pub(crate) fn new(heap: Global, cells: usize, sites: usize) -> Result<Path, AllocError>
        ensures { IfOk result (λ p. (p.bits.items ≡ []) × (p.stuck.items ≡ []) × (cells ≤ deque_capacity p.bits) × (sites ≤ vec_capacity p.stuck)) }
    {
        let bits = VecDeque::with_capacity(heap, cells)?;
        let stuck = Vec::with_capacity(heap, sites)?;
        Ok(Path { bits, stuck })
    }

    // Holds what the sites on it offer, and lists its stuck cells.
    pub(crate) fn gather(&mut self, sites: &[Site])
        requires { (all_cells sites.now ≤ deque_capacity self.old.bits) × (length sites.now ≤ vec_capacity self.old.stuck) }
        ensures bits { self.new.bits.items ≡ path_offered (meanings sites.now) }
        ensures len { deque_len self.new.bits ≡ length (path_flaws (meanings sites.now)) }
        ensures stuck { self.new.stuck.items ≡ stuck_places 0 (path_flaws (meanings sites.now)) }
        ensures room { SameRoom self.old self.new }
    {
        self.bits.clear();
        self.stuck.clear();
        // Gathered as a plain row, which takes a bit without asking where its room ends. It begins at the front of that room, so
        // that after a whole pass the bits lie in order, or are put in order by two moves.
        let empty = VecDeque::new(*self.bits.allocator());
        let mut bits = mem::replace(&mut self.bits, empty).into_vec();
        let mut reach = 1;
        for site in sites {
            if u16::from(site.depth) <= reach {
                note(&mut self.stuck, site.stuck_on(bits.len()));
                site.offer_onto(&mut bits);
                reach = site.reach();
            }
        }
        self.bits = VecDeque::from_vec(bits);
    }

    // Moves a bit in at the end; what the first cell showed comes out.
    #[inline]
    pub(crate) fn shift(&mut self, bit: bool) -> bool
        ensures out { result ≡ first (forced self.old.bits.items self.old.stuck.items) bit }
        ensures bits { self.new.bits.items ≡ moved (forced self.old.bits.items self.old.stuck.items) bit }
        ensures len { deque_len self.new.bits ≡ deque_len self.old.bits }
        ensures stuck { self.new.stuck ≡ self.old.stuck }
        ensures room { SameRoom self.old self.new }
    {
        force_all(&mut self.bits, &self.stuck);
        let Some(out) = self.bits.pop_front() else {
            return bit;
        };
        self.bits.push_back_reserved(bit);
        out
    }
}
