// Passes and runs over any scan transport.
// A run wants some instruments: it opens the way to them one level at a time, and then shifts through them.
// `run_group` promises, for every transport and every table that passes its test, what a run leaves of the network and of the
// buffer, and how many bits it shifts; or at which pass a call was lost (specs/Runs.antt).
#![tactic(auto)]

mod run;

pub use run::run_group;
