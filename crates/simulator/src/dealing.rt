// What a reset and an update do to all sites.
ghost use Rattle.std.specs.Prelude.{◌≡◌, ◌<◌, length};
ghost use Rattle.scan.specs.Path.{on, path_flaws};
ghost use Rattle.scan.specs.Moves.{fill, reset, update};
ghost use Rattle.simulator.specs.Meaning.{meanings, SameSize};

use crate::site::Site;

// Deals the path's bits out to the cells of the sites on it.
pub(crate) fn deal(sites: &mut [Site], bits: &[bool])
    requires { length bits.now ≡ length (path_flaws (meanings sites.old)) }
    ensures size { SameSize sites.old sites.new }
    ensures sites { meanings sites.new ≡ fill (on (meanings sites.old)) (meanings sites.old) bits.now }
{
    let mut reach = 1;
    let mut rest = bits;
    for site in sites {
        if u16::from(site.depth) <= reach {
            reach = site.reach();
            rest = site.take(rest);
        }
    }
}

// The same, and updates the sites on the path, as the latches were before: one walk, so that each row is still at hand. The walk
// over the path stands here, in `deal` and in `Path::gather`: as one function that takes a closure it would need a contract for
// each state that the closure passes through.
pub(crate) fn update_all(sites: &mut [Site], bits: &[bool])
    requires { length bits.now ≡ length (path_flaws (meanings sites.old)) }
    ensures size { SameSize sites.old sites.new }
    ensures sites { meanings sites.new ≡ update (fill (on (meanings sites.old)) (meanings sites.old) bits.now) }
{
    let mut reach = 1;
    let mut rest = bits;
    for site in sites {
        if u16::from(site.depth) <= reach {
            reach = site.reach();
            rest = site.take(rest);
            site.update();
        }
    }
}

// Closes every latch.
pub(crate) fn close_all(sites: &mut [Site])
    ensures size { SameSize sites.old sites.new }
    ensures sites { meanings sites.new ≡ reset (meanings sites.old) }
{
    for site in sites {
        site.close();
    }
}
