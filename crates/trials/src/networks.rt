// The simulated network, call by call, against the bits that its rules give by hand.
// Bits are digits in the order in which they are shifted, held bits those of the lowest number first; blanks part them for the eye.
use crate::setup::{INVERTS, KEEPS, LOST, bits_of, network_of};
use refusal::{ScanFault, TableFault};
use scan::Scan;
use simulator::{NetworkFault, Offer, Setting, Simulator, Stuck};
use std::alloc::Global;
use std::process::Abort;
use std::test::Fail;
use table::Record;

fn stuck_at(cell: usize, bit: bool) -> Setting {
    Setting {
        offer: Offer::Keeps,
        fault: Some(Stuck { cell, bit }),
    }
}

// Shifts digits in, and holds what comes out to other digits.
fn check_shifts(
    rt: &impl Abort,
    heap: Global,
    network: &mut Simulator,
    sent: &[u8],
    out: &[u8],
) -> Result<(), Fail> {
    let mut came = Vec::new(heap);
    for bit in bits_of(heap, sent)?.iter() {
        came.push(network.shift(*bit)?)?;
    }
    assert_eq!(rt; came, bits_of(heap, out)?);
    Ok(())
}

// Passes one after the other: what is shifted in between a capture and an update, and what comes out.
fn check_passes(
    rt: &impl Abort,
    heap: Global,
    network: &mut Simulator,
    passes: &[(&[u8], &[u8])],
) -> Result<(), Fail> {
    for (sent, out) in passes {
        assert_eq!(rt; network.capture(), Ok(()));
        check_shifts(rt, heap, network, sent, out)?;
        assert_eq!(rt; network.update(), Ok(()));
    }
    Ok(())
}

// SIB 4 is a doorway, SIB 3 a doorway behind it, SIB 2 stands behind both, SIB 1 beside SIB 4.
#[test]
fn the_way_opens_level_by_level(rt: HostRuntime) -> Result<(), Fail> {
    let heap = rt.alloc();
    let records = [
        Record::instrument(1, 1),
        Record::instrument(3, 2),
        Record::doorway(2),
        Record::doorway(1),
    ];
    let settings = [KEEPS, INVERTS, KEEPS, KEEPS];
    let mut network = network_of(heap, &records, &settings, b"1 10")?;
    assert_eq!(rt; network.reset(), Ok(()));
    check_passes(
        &rt,
        heap,
        &mut network,
        &[
            (b"1 0", b"0 0"),
            (b"1 1 0", b"1 0 0"),
            (b"1 1 1 0", b"1 1 0 0"),
            // SIB 1 opens, and its instrument does not hold bits by the same update.
            (b"1 1 1 11 1", b"1 1 1 01 0"),
            (b"1 1 1 01 0 0", b"1 1 1 00 1 1"),
            // SIB 1 closes; then both doorways do, and SIB 2 is open behind them.
            (b"0 0 1 10 1", b"1 1 1 10 0"),
            (b"1 0 1", b"0 1 0"),
            // SIB 3 opens as SIB 4 closes.
            (b"0 1 0", b"1 0 0"),
            (b"1 1", b"0 0"),
            // The latches of 3 and 2 and what 2 holds stayed as they were.
            (b"1 1 1 10 1 1", b"1 1 1 01 1 1"),
            // With no shift between, an instrument holds what it offered.
            (b"", b""),
            (b"1 1 1 10 1 1", b"1 1 1 10 1 1"),
        ],
    )?;
    // A reset in scan closes all, and what was shifted goes nowhere.
    assert_eq!(rt; network.capture(), Ok(()));
    check_shifts(&rt, heap, &mut network, b"000", b"111")?;
    assert_eq!(rt; network.reset(), Ok(()));
    check_passes(
        &rt,
        heap,
        &mut network,
        &[
            (b"1 1", b"0 0"),
            (b"1 1 1 1", b"1 0 1 1"),
            (b"1 1 1 1 1", b"1 1 0 1 1"),
            (b"1 1 1 00 1 1", b"1 1 1 01 1 1"),
            // A path that is shifted through twice gives what went in.
            (b"1 1 1 00 1 1 0 1 0 11 0 0", b"1 1 1 11 1 1 1 1 1 00 1 1"),
            (b"0 0", b"0 0"),
        ],
    )
}

const LONGEST: usize = 12;

// Shifts a bit in as often as the longest path has cells; answers how many ones come out before the first zero.
fn fill(network: &mut Simulator, bit: bool) -> Result<usize, Fail> {
    let mut came = [false; LONGEST];
    for out in came.iter_mut() {
        *out = network.shift(bit)?;
    }
    Ok(came.iter().take_while(|out| **out).count())
}

// Counts the ones that are captured before the first zero, and the path's cells; then the update opens all that is on the path.
fn measure(rt: &impl Abort, network: &mut Simulator) -> Result<(usize, Option<usize>), Fail> {
    assert_eq!(rt; network.capture(), Ok(()));
    let ones = fill(network, false)?;
    assert_eq!(rt; network.shift(true), Ok(false));
    let cells = (1..=LONGEST).find(|_| network.shift(false) == Ok(true));
    assert_eq!(rt; fill(network, true)?, 0);
    assert_eq!(rt; network.update(), Ok(()));
    Ok((ones, cells))
}

// Measures of a network that keeps and holds zeros.
fn check_measures(
    rt: &impl Abort,
    heap: Global,
    records: &[Record],
    held: &[u8],
    measures: &[(usize, usize)],
) -> Result<(), Fail> {
    let settings = vec![in heap; KEEPS; records.len()]?;
    let mut network = network_of(heap, records, settings.as_slice(), held)?;
    for (ones, cells) in measures {
        assert_eq!(rt; measure(rt, &mut network)?, (*ones, Some(*cells)));
    }
    Ok(())
}

#[test]
fn paths_are_as_long_as_their_rules_say(rt: HostRuntime) -> Result<(), Fail> {
    let heap = rt.alloc();
    // Doorways with nothing behind them: alone, last, first, behind another, and between.
    check_measures(
        &rt,
        heap,
        &[Record::doorway(1)],
        b"",
        &[(0, 1), (1, 1), (1, 1)],
    )?;
    check_measures(
        &rt,
        heap,
        &[Record::doorway(1), Record::instrument(1, 3)],
        b"000",
        &[(0, 2), (1, 5), (5, 5)],
    )?;
    check_measures(
        &rt,
        heap,
        &[Record::instrument(1, 1), Record::doorway(1)],
        b"0",
        &[(0, 2), (2, 3), (3, 3)],
    )?;
    check_measures(
        &rt,
        heap,
        &[Record::doorway(2), Record::doorway(1)],
        b"",
        &[(0, 1), (1, 2), (2, 2)],
    )?;
    check_measures(
        &rt,
        heap,
        &[
            Record::instrument(1, 1),
            Record::doorway(2),
            Record::doorway(1),
            Record::doorway(1),
        ],
        b"0",
        &[(0, 3), (2, 5), (5, 5)],
    )?;
    // A chain eight deep opens one level at a time.
    check_measures(
        &rt,
        heap,
        &[
            Record::instrument(8, 1),
            Record::doorway(7),
            Record::doorway(6),
            Record::doorway(5),
            Record::doorway(4),
            Record::doorway(3),
            Record::doorway(2),
            Record::doorway(1),
        ],
        b"0",
        &[
            (0, 1),
            (1, 2),
            (2, 3),
            (3, 4),
            (4, 5),
            (5, 6),
            (6, 7),
            (7, 8),
            (8, 9),
            (9, 9),
        ],
    )
}

fn check_stuck(
    rt: &impl Abort,
    heap: Global,
    setting: Setting,
    held: &[u8],
    passes: &[(&[u8], &[u8])],
) -> Result<(), Fail> {
    let records = [Record::instrument(1, 4)];
    let mut network = network_of(heap, &records, &[setting], held)?;
    check_passes(rt, heap, &mut network, passes)
}

#[test]
fn all_that_passes_a_stuck_cell_shows_its_bit(rt: HostRuntime) -> Result<(), Fail> {
    let heap = rt.alloc();
    // A SIB's bit comes through its row: so one stuck at 1 stays open, and one stuck at 0 closes.
    check_stuck(
        &rt,
        heap,
        stuck_at(0, true),
        b"0000",
        &[
            (b"1", b"0"),
            (b"0 0000 0101", b"1 1111 1111"),
            (b"0 0000", b"1 1111"),
            (b"", b""),
            (b"0", b"1"),
            (b"00", b"11"),
        ],
    )?;
    check_stuck(
        &rt,
        heap,
        stuck_at(0, false),
        b"1111",
        &[
            (b"1", b"0"),
            (b"1 1111 1010", b"1 0000 0000"),
            (b"1", b"0"),
            (b"1", b"1"),
            (b"1", b"0"),
        ],
    )?;
    check_stuck(
        &rt,
        heap,
        stuck_at(3, false),
        b"1111",
        &[
            (b"1", b"0"),
            (b"", b""),
            (b"1", b"1"),
            (b"1 1111 1111", b"1 1100 0000"),
            (b"1", b"0"),
            (b"1 1111", b"1 0000"),
        ],
    )?;
    check_stuck(
        &rt,
        heap,
        stuck_at(3, true),
        b"1000",
        &[
            (b"1", b"0"),
            (b"0 0000 0000", b"1 1001 1111"),
            (b"0 0000", b"1 1111"),
        ],
    )?;
    check_stuck(
        &rt,
        heap,
        stuck_at(1, false),
        b"1111",
        &[
            (b"1", b"0"),
            (b"1 1111 1", b"1 1000 0"),
            (b"1", b"0"),
            (b"1 1111", b"1 0000"),
        ],
    )
}

// SIB 2 is sound, and SIB 1, whose first cell is stuck, stands between it and scan-in.
#[test]
fn a_stuck_cell_spoils_its_path_only_while_it_is_open(rt: HostRuntime) -> Result<(), Fail> {
    let heap = rt.alloc();
    let records = [Record::instrument(1, 4), Record::instrument(1, 2)];
    let settings = [stuck_at(0, false), KEEPS];
    let mut network = network_of(heap, &records, &settings, b"1111 10")?;
    check_passes(
        &rt,
        heap,
        &mut network,
        &[
            (b"1 1", b"0 0"),
            (b"1 01 1 0110", b"1 10 1 0000"),
            (b"1 0", b"0 0"),
            (b"1 11 0", b"1 00 0"),
            (b"1 01 1", b"1 11 0"),
            (b"1 11 1 1111", b"1 01 1 0000"),
            (b"0 0", b"0 0"),
        ],
    )
}

// The phase that a test begins in: a name that several tests share, so no closure.
#[derive(Clone, Copy)]
enum Phase {
    Rest,
    Scan,
    Broken,
}

// A network of one open instrument that holds 10, in a phase.
fn network_in(rt: &impl Abort, heap: Global, phase: Phase) -> Result<Simulator, Fail> {
    let records = [Record::instrument(1, 2)];
    let mut network = network_of(heap, &records, &[KEEPS], b"10")?;
    check_passes(rt, heap, &mut network, &[(b"1", b"0")])?;
    match phase {
        Phase::Rest => {}
        Phase::Scan => {
            assert_eq!(rt; network.capture(), Ok(()));
            check_shifts(rt, heap, &mut network, b"0", b"1")?;
        }
        Phase::Broken => {
            network.pull_cable(true);
            assert_eq!(rt; network.update(), Err(LOST));
            network.pull_cable(false);
        }
    }
    Ok(network)
}

fn check_still_held(rt: &impl Abort, heap: Global, network: &mut Simulator) -> Result<(), Fail> {
    assert_eq!(rt; network.reset(), Ok(()));
    check_passes(rt, heap, network, &[(b"1", b"0"), (b"0 10", b"1 10")])
}

fn check_broken(rt: &impl Abort, network: &mut Simulator) {
    assert_eq!(rt; network.capture(), Err(ScanFault::WrongPhase));
    assert_eq!(rt; network.shift(true), Err(ScanFault::WrongPhase));
    assert_eq!(rt; network.update(), Err(ScanFault::WrongPhase));
}

// A call that is lost, made in a phase.
fn check_loss<F: Fn(&mut Simulator) -> Result<(), ScanFault>>(
    rt: &impl Abort,
    heap: Global,
    phase: Phase,
    call: F,
) -> Result<(), Fail>
    requires { F.IsAlwaysCallable call }
{
    let mut network = network_in(rt, heap, phase)?;
    network.pull_cable(true);
    assert_eq!(rt; call(&mut network), Err(LOST));
    assert_eq!(rt; call(&mut network), Err(LOST));
    network.pull_cable(false);
    check_broken(rt, &mut network);
    check_broken(rt, &mut network);
    check_still_held(rt, heap, &mut network)
}

fn check_losses(rt: &impl Abort, heap: Global, phase: Phase) -> Result<(), Fail> {
    check_loss(rt, heap, phase, |network| network.reset())?;
    check_loss(rt, heap, phase, |network| network.capture())?;
    check_loss(rt, heap, phase, |network| network.shift(true).map(|_| ()))?;
    check_loss(rt, heap, phase, |network| network.update())?;
    // All calls one after the other, with the cable out.
    let mut network = network_in(rt, heap, phase)?;
    network.pull_cable(true);
    assert_eq!(rt; network.reset(), Err(LOST));
    assert_eq!(rt; network.capture(), Err(LOST));
    assert_eq!(rt; network.shift(true), Err(LOST));
    assert_eq!(rt; network.update(), Err(LOST));
    network.pull_cable(false);
    check_broken(rt, &mut network);
    check_still_held(rt, heap, &mut network)
}

#[test]
fn a_lost_call_breaks_the_phase_until_a_reset(rt: HostRuntime) -> Result<(), Fail> {
    let heap = rt.alloc();
    check_losses(&rt, heap, Phase::Rest)?;
    check_losses(&rt, heap, Phase::Scan)?;
    check_losses(&rt, heap, Phase::Broken)?;
    // A cable that is pulled and put back between two calls loses nothing.
    let mut network = network_in(&rt, heap, Phase::Scan)?;
    network.pull_cable(true);
    network.pull_cable(false);
    check_shifts(&rt, heap, &mut network, b"11", b"10")?;
    assert_eq!(rt; network.update(), Ok(()));
    Ok(())
}

const WRONG_PHASE: Result<(), ScanFault> = Err(ScanFault::WrongPhase);

// The answers of reset, capture, shift and update, each in the phase.
fn check_answers(
    rt: &impl Abort,
    heap: Global,
    phase: Phase,
    answers: [Result<(), ScanFault>; 4],
) -> Result<(), Fail> {
    let [reset, capture, shift, update] = answers;
    assert_eq!(rt; network_in(rt, heap, phase)?.reset(), reset);
    assert_eq!(rt; network_in(rt, heap, phase)?.capture(), capture);
    assert_eq!(rt; network_in(rt, heap, phase)?.shift(true).map(|_| ()), shift);
    assert_eq!(rt; network_in(rt, heap, phase)?.update(), update);
    Ok(())
}

#[test]
fn a_call_in_another_phase_moves_nothing(rt: HostRuntime) -> Result<(), Fail> {
    let heap = rt.alloc();
    check_answers(
        &rt,
        heap,
        Phase::Rest,
        [Ok(()), Ok(()), WRONG_PHASE, WRONG_PHASE],
    )?;
    check_answers(
        &rt,
        heap,
        Phase::Scan,
        [Ok(()), WRONG_PHASE, Ok(()), Ok(())],
    )?;
    check_answers(
        &rt,
        heap,
        Phase::Broken,
        [Ok(()), WRONG_PHASE, WRONG_PHASE, WRONG_PHASE],
    )?;
    let mut network = network_in(&rt, heap, Phase::Rest)?;
    assert_eq!(rt; network.shift(true), Err(ScanFault::WrongPhase));
    assert_eq!(rt; network.update(), Err(ScanFault::WrongPhase));
    assert_eq!(rt; network.capture(), Ok(()));
    assert_eq!(rt; network.capture(), Err(ScanFault::WrongPhase));
    check_shifts(&rt, heap, &mut network, b"10", b"11")?;
    assert_eq!(rt; network.capture(), Err(ScanFault::WrongPhase));
    check_shifts(&rt, heap, &mut network, b"1", b"0")?;
    assert_eq!(rt; network.update(), Ok(()));
    assert_eq!(rt; network.update(), Err(ScanFault::WrongPhase));
    assert_eq!(rt; network.shift(true), Err(ScanFault::WrongPhase));
    check_passes(&rt, heap, &mut network, &[(b"0 00", b"1 01"), (b"0", b"0")])
}

const SIZE: NetworkFault = NetworkFault::Table(TableFault::Size);

fn broken(number: usize) -> NetworkFault {
    NetworkFault::Table(TableFault::Broken { number })
}

fn outside(number: usize) -> NetworkFault {
    NetworkFault::Outside { number }
}

// A network is made, or why it is not.
fn check_made(
    rt: &impl Abort,
    heap: Global,
    records: &[Record],
    settings: &[Setting],
    held: &[u8],
    made: Result<(), NetworkFault>,
) -> Result<(), Fail> {
    let bits = bits_of(heap, held)?;
    let answer = Simulator::new(heap, records, settings, bits.as_slice());
    assert_eq!(rt; answer.map(|_| ()), made);
    Ok(())
}

#[test]
fn a_network_that_does_not_fit_is_not_made(rt: HostRuntime) -> Result<(), Fail> {
    let heap = rt.alloc();
    let two = [Record::instrument(1, 2), Record::instrument(1, 3)];
    check_made(&rt, heap, &[], &[], b"", Err(SIZE))?;
    let long = [Record::instrument(1, 257), Record::instrument(1, 1)];
    check_made(&rt, heap, &long, &[KEEPS; 2], b"", Err(broken(1)))?;
    let deep = [Record::instrument(1, 1), Record::instrument(2, 1)];
    check_made(&rt, heap, &deep, &[KEEPS; 2], b"00", Err(broken(2)))?;
    check_made(
        &rt,
        heap,
        &two,
        &[KEEPS; 1],
        b"00 000",
        Err(NetworkFault::Settings),
    )?;
    check_made(
        &rt,
        heap,
        &two,
        &[KEEPS; 3],
        b"00 000",
        Err(NetworkFault::Settings),
    )?;
    check_made(&rt, heap, &two, &[], b"00 000", Err(NetworkFault::Settings))?;
    check_made(
        &rt,
        heap,
        &two,
        &[KEEPS; 2],
        b"00 00",
        Err(NetworkFault::Held),
    )?;
    check_made(
        &rt,
        heap,
        &two,
        &[KEEPS; 2],
        b"00 0000",
        Err(NetworkFault::Held),
    )?;
    check_made(&rt, heap, &two, &[KEEPS; 2], b"", Err(NetworkFault::Held))?;
    check_made(&rt, heap, &two, &[KEEPS; 2], b"00 000", Ok(()))?;
    let first = [stuck_at(2, true), KEEPS];
    check_made(&rt, heap, &two, &first, b"00 000", Err(outside(1)))?;
    let second = [KEEPS, stuck_at(3, false)];
    check_made(&rt, heap, &two, &second, b"00 000", Err(outside(2)))?;
    let last = [stuck_at(1, true), stuck_at(2, false)];
    check_made(&rt, heap, &two, &last, b"00 000", Ok(()))?;
    // Where more is wrong, the table goes first, then the settings, the lowest number, and the bits held.
    check_made(&rt, heap, &deep, &[], b"", Err(broken(2)))?;
    check_made(
        &rt,
        heap,
        &two,
        &[stuck_at(9, true)],
        b"",
        Err(NetworkFault::Settings),
    )?;
    let both = [stuck_at(2, true), stuck_at(3, true)];
    check_made(&rt, heap, &two, &both, b"", Err(outside(1)))?;
    // A doorway has no row for a stuck cell to lie in, and holds nothing.
    let doorway = [Record::doorway(1)];
    check_made(
        &rt,
        heap,
        &doorway,
        &[stuck_at(0, true)],
        b"",
        Err(outside(1)),
    )?;
    check_made(&rt, heap, &doorway, &[KEEPS], b"0", Err(NetworkFault::Held))?;
    check_made(&rt, heap, &doorway, &[KEEPS], b"", Ok(()))
}
