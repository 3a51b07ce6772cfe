// Groups on tables of several shapes, on simulated networks whose instruments all invert zeros at first.
use crate::setup::{INVERTS, LOST, network_of};
use refusal::{Refusal, ScanFault, TableFault};
use simulator::Simulator;
use std::alloc::Global;
use std::iter;
use std::process::Abort;
use std::test::Fail;
use table::{Record, check_table};
use translator::{Applied, control, data};

// An order of a group: a number, and whether it is written.
#[derive(Clone, Copy)]
struct Order(usize, bool);

const UNWRITTEN: u8 = 0xA5;

// A network whose instruments all invert and hold zeros.
fn inverting(heap: Global, records: &[Record]) -> Result<Simulator, Fail> {
    let settings = vec![in heap; INVERTS; records.len()]?;
    let cells = records.iter().fold(
        0usize,
        |cells, record| cells.saturating_add(usize::from(record.length)),
    );
    let zeros = vec![in heap; b'0'; cells]?;
    network_of(heap, records, settings.as_slice(), zeros.as_slice())
}

fn three(excluded: bool) -> [Record; 3] {
    let mut records = [Record::instrument(1, 8); 3];
    records[2].excluded = excluded;
    records
}

// SIB 3 is a doorway, SIB 2 stands behind it, SIB 1 beside it.
fn nested() -> [Record; 3] {
    [
        Record::instrument(1, 2),
        Record::instrument(2, 4),
        Record::doorway(1),
    ]
}

fn send(
    table: &mut [Record],
    network: &mut Simulator,
    orders: &[Order],
    sent: &[u8],
    reply: &mut [u8],
) -> Result<Applied, Refusal> {
    for Order(number, write) in orders {
        control(table, *number, *write)?;
    }
    data(table, network, sent, reply)
}

// The answer's refusal, or the bits shifted; and the bytes of the reply, after which the buffer must stay as it was.
fn check_answer(
    rt: &impl Abort,
    answer: Result<Applied, Refusal>,
    shifted: Result<u64, Refusal>,
    reply: &[u8],
    bytes: &[u8],
) {
    let answer = answer.map(|applied| (applied.shifted, applied.reply));
    assert_eq!(rt; answer, shifted.map(|shifted| (shifted, bytes.len())));
    let wanted = bytes.iter().chain(iter::repeat(&UNWRITTEN));
    for (byte, wanted) in reply.iter().zip(wanted) {
        assert_eq!(rt; *byte, *wanted);
    }
}

fn check_group(
    rt: &impl Abort,
    heap: Global,
    table: &mut [Record],
    orders: &[Order],
    sent: &[u8],
    shifted: u64,
    bytes: &[u8],
) -> Result<(), Fail> {
    let mut network = inverting(heap, table)?;
    let mut reply = [UNWRITTEN; 9];
    let answer = send(table, &mut network, orders, sent, &mut reply);
    check_answer(rt, answer, Ok(shifted), &reply, bytes);
    Ok(())
}

#[test]
fn replies_and_bit_counts(rt: HostRuntime) -> Result<(), Fail> {
    let heap = rt.alloc();
    let group = [Order(1, true), Order(3, false)];
    check_group(
        &rt,
        heap,
        &mut three(false),
        &group,
        &[0xFF],
        22,
        &[0xFF, 0, 0],
    )?;
    check_group(
        &rt,
        heap,
        &mut three(true),
        &group,
        &[0xFF],
        14,
        &[0, 3, 0, 2],
    )?;
    check_group(
        &rt,
        heap,
        &mut three(true),
        &[Order(3, false)],
        &[],
        0,
        &[0, 3, 0, 2],
    )?;
    check_group(
        &rt,
        heap,
        &mut nested(),
        &[Order(2, true), Order(1, false)],
        &[0xA0],
        14,
        &[0xC0, 0, 0],
    )?;
    check_group(
        &rt,
        heap,
        &mut nested(),
        &[Order(1, false)],
        &[],
        6,
        &[0xC0, 0, 0],
    )
}

#[test]
fn the_bits_of_an_excluded_write_are_skipped(rt: HostRuntime) -> Result<(), Fail> {
    let heap = rt.alloc();
    let mut table = three(true);
    let mut network = inverting(heap, &table)?;
    let mut reply = [UNWRITTEN; 9];
    let answer = send(
        &mut table,
        &mut network,
        &[Order(3, true), Order(1, true)],
        &[0x0F, 0xF0],
        &mut reply,
    );
    check_answer(&rt, answer, Ok(14), &reply, &[0, 3, 0, 2]);
    let mut reply = [UNWRITTEN; 9];
    let answer = send(
        &mut table,
        &mut network,
        &[Order(1, false)],
        &[],
        &mut reply,
    );
    check_answer(&rt, answer, Ok(14), &reply, &[0x0F, 0, 0]);
    Ok(())
}

#[test]
fn refused_groups_stay_chosen(rt: HostRuntime) -> Result<(), Fail> {
    let heap = rt.alloc();
    let mut table = [Record::instrument(1, 6), Record::instrument(1, 3)];
    let mut network = inverting(heap, &table)?;
    let mut reply = [UNWRITTEN; 9];
    let answer = send(&mut table, &mut network, &[], &[0], &mut reply);
    check_answer(&rt, answer, Err(Refusal::NothingChosen), &reply, &[]);
    let answer = send(
        &mut table,
        &mut network,
        &[Order(2, true), Order(1, true)],
        &[0],
        &mut reply,
    );
    check_answer(&rt, answer, Err(Refusal::DataLength), &reply, &[]);
    let mut small = [UNWRITTEN; 1];
    let answer = data(&mut table, &mut network, &[0xFF, 0x80], &mut small);
    check_answer(
        &rt,
        answer,
        Err(Refusal::TooSmall { needed: 2 }),
        &small,
        &[],
    );
    assert_eq!(rt; control(&mut table, 1, true), Err(Refusal::AlreadyChosen));
    Ok(())
}

#[test]
fn a_lost_group_leaves_zeros_and_its_choice(rt: HostRuntime) -> Result<(), Fail> {
    let heap = rt.alloc();
    let mut table = three(false);
    let mut network = inverting(heap, &table)?;
    let mut reply = [UNWRITTEN; 9];
    network.pull_cable(true);
    let answer = send(
        &mut table,
        &mut network,
        &[Order(1, true), Order(3, false)],
        &[0xFF],
        &mut reply,
    );
    check_answer(&rt, answer, Err(Refusal::Scan(LOST)), &reply, &[0, 0, 0]);
    network.pull_cable(false);
    let answer = data(&mut table, &mut network, &[0xFF], &mut reply);
    check_answer(&rt, answer, Ok(22), &reply, &[0xFF, 0, 0]);
    Ok(())
}

// Doorways of depth 1 to `depth` - 1, and an instrument behind the last.
fn chain(heap: Global, depth: u8) -> Result<Vec<Record>, Fail> {
    let mut records = vec![in heap; Record::instrument(depth, 1)]?;
    for level in (1..depth).rev() {
        records.push(Record::doorway(level))?;
    }
    Ok(records)
}

#[test]
fn tables_reach_eight_deep(rt: HostRuntime) -> Result<(), Fail> {
    let heap = rt.alloc();
    let mut deepest = chain(heap, 8)?;
    // The paths of the passes have 1 to 8 cells, and the last one 9.
    check_group(
        &rt,
        heap,
        deepest.as_mut_slice(),
        &[Order(1, false)],
        &[],
        45,
        &[0x80, 0, 0],
    )?;
    let too_deep = chain(heap, 9)?;
    assert_eq!(rt;
        check_table(too_deep.as_slice()),
        Err(TableFault::Broken { number: 1 })
    );
    Ok(())
}

#[test]
fn refusals_have_their_numbers(rt: HostRuntime) -> Result<(), Fail> {
    let numbers = [
        (Refusal::Table(TableFault::Broken { number: 1 }), 2),
        (Refusal::AlreadyChosen, 5),
        (Refusal::NothingChosen, 6),
        (Refusal::DataLength, 7),
        (Refusal::TooSmall { needed: 2 }, 8),
        (Refusal::Scan(LOST), 9),
        (Refusal::Scan(ScanFault::WrongPhase), 14),
    ];
    for (refusal, number) in numbers {
        assert_eq!(rt; refusal.number(), number);
    }
    Ok(())
}
