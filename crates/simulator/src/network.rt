// The network as a whole: what it stands for is `network_of` its fields.
ghost use Rattle.std.specs.Prelude.{◌≡◌, ◌≤◌, vec_len, vec_capacity};
ghost use Rattle.std.specs.VecDeque.{deque_len, deque_capacity};
ghost use Rattle.simulator.specs.Meaning.{all_cells, scan_length, scan_stuck};

use crate::path::Path;
use crate::site::{Phase, Site};

#[derive(Drop)]
pub struct Simulator {
    // From SIB N down, as the path runs. In scan the cells on the path are those of `path`.
    pub(crate) sites: Vec<Site>,
    pub(crate) path: Path,
    pub(crate) phase: Phase,
    pub(crate) cable_out: bool,
    pub(crate) lost: u64,
    ghost room: { all_cells sites.items ≤ deque_capacity path.bits },
    ghost places: { vec_len sites ≤ vec_capacity path.stuck },
    ghost cells: { scan_length phase sites.items (deque_len path.bits) ≡ deque_len path.bits },
    ghost listed: { scan_stuck phase sites.items path.stuck.items ≡ path.stuck.items },
}
