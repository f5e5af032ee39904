// Runs the tables of document 01 that are not proved, tables with a cost, tables of steps that run to their end, tasks that are turned away, and the
// records on which a tired planner's slips would show; prints a line for each. The numbers of the refusals are document 01's, written out, so that two
// that were exchanged would show.
#![tactic(auto)]

use boards::Board;
use refusals::{Answer, Refusal};

// A table's name, and whether it came out as worked by hand.
fn say(rt: &impl Print, name: &str, right: bool) {
    let told = if right { "as worked" } else { "DIFFERS" };
    println!(rt; "{name}: {told}").ok();
}

// A record whose plan with a cost is the expected words, and no word more.
fn planned_with_cost(rt: &impl Print, name: &str, record: &[u8], cost: u64, expected: &[u64]) {
    let mut words = [0u64; plans::WORDS_MAX];
    let answer = plans::plan(record, &mut words, cost);
    let right = answer == Answer::accepted(expected.len() as u64) && words.starts_with(expected);
    say(rt, name, right);
}

// The same without a cost.
fn planned(rt: &impl Print, name: &str, record: &[u8], expected: &[u64]) {
    planned_with_cost(rt, name, record, 0, expected);
}

// A record that with a cost gets this refusal, with its place and its set of nodes.
fn refused_with_cost(rt: &impl Print, name: &str, record: &[u8], cost: u64, refusal: Refusal) {
    let mut words = [0u64; plans::WORDS_MAX];
    let answer = plans::plan(record, &mut words, cost);
    say(rt, name, answer == Answer::refused(refusal));
}

// The same without a cost.
fn refused(rt: &impl Print, name: &str, record: &[u8], refusal: Refusal) {
    refused_with_cost(rt, name, record, 0, refusal);
}

// The board with this record's task, noted with a cost.
fn noted(board: Board, record: &[u8], cost: u64) -> Board {
    let mut words = [0u64; plans::WORDS_MAX];
    match admissions::noting(record, &mut words, &board, cost) {
        Ok(change) => boards::with_row(board, change.at, change.row),
        Err(_) => board,
    }
}

// Whether an admission is refused by this number without a word written, or, where there is none, the task is kept with its plan.
fn is_admitted(board: &Board, record: &[u8], cores: u64, number: Option<u64>) -> bool {
    let mut words = [0u64; plans::WORDS_MAX];
    match guards::admission(record, &mut words, board, cores, 0) {
        Ok(_) => number.is_none() && words[0] != 0,
        Err(refusal) => number == Some(refusal.number) && words[0] == 0,
    }
}

// An admission with what is expected.
fn admitted(
    rt: &impl Print,
    name: &str,
    board: &Board,
    record: &[u8],
    cores: u64,
    number: Option<u64>,
) {
    say(rt, name, is_admitted(board, record, cores, number));
}

// A record's task that is turned away by 20 on the empty board, however many cores there are.
fn never_kept(rt: &impl Print, name: &str, record: &[u8]) {
    let board = Board::empty();
    let never = (1..65).all(|cores| is_admitted(&board, record, cores, Some(20)));
    say(rt, name, never);
}

// A verdict that is yes or no, as expected.
fn told(rt: &impl Print, name: &str, answer: Answer, yes: bool) {
    say(rt, name, answer == Answer::accepted(u64::from(yes)));
}

// The verdict for a board that holds this record's task alone, noted with a cost.
fn alone(rt: &impl Print, name: &str, record: &[u8], cost: u64, cores: u64, yes: bool) {
    let board = noted(Board::empty(), record, cost);
    told(rt, name, boards::asked(&board, cores), yes);
}

// The verdict for a board whose steps run to their end.
fn to_end(rt: &impl Print, name: &str, board: &Board, cores: u64, yes: bool) {
    told(rt, name, overheads::asked_to_end(board, cores), yes);
}

// A withdrawal from the empty board.
fn not_withdrawn(rt: &impl Print, name: &str, id: u64) {
    let refusal = boards::withdrawn(&Board::empty(), id).err();
    say(rt, name, refusal == Some(Refusal::of(14, 0)));
}

// Plans in words: Q, s, n, the segments' triples, the nodes' triples.
const PERIOD_TEN: [u64; 9] = [5, 1, 1, 1, 5, 50, 0, 50, 500000];

const PERIOD_128: [u64; 9] = [5, 1, 1, 1, 5, 640, 0, 640, 39063];

const LONGEST: [u64; 9] = [5, 1, 1, 1, 5, 83886075, 0, 83886075, 1];

const FOUR: [u64; 21] = [
    6, 2, 4, 1, 2, 6, 3, 1, 18, 0, 6, 2000000, 6, 18, 333334, 6, 18, 333334, 6, 18, 333334,
];

const TWO_PARENTS: [u64; 21] = [
    6, 3, 3, 2, 1, 20, 1, 3, 30, 1, 1, 10, 0, 20, 300000, 0, 50, 480000, 50, 10, 600000,
];

const CHILD_FIRST: [u64; 15] = [7, 2, 2, 1, 4, 40, 1, 3, 30, 40, 30, 700000, 0, 40, 700000];

const LISTING: [u64; 21] = [
    5, 3, 3, 2, 1, 12, 2, 1, 12, 1, 1, 6, 0, 30, 500000, 0, 12, 416667, 12, 12, 416667,
];

const JOINED: [u64; 24] = [
    7, 3, 4, 2, 2, 40, 1, 2, 20, 1, 1, 10, 0, 40, 350000, 0, 60, 466667, 60, 0, 0, 60, 10, 700000,
];

const FIVE_AND_FIVE: [u64; 9] = [10, 1, 1, 1, 10, 100, 0, 100, 1000000];

const JOIN_PAYS_NOTHING: [u64; 18] = [
    5, 2, 3, 1, 3, 30, 1, 2, 20, 0, 30, 500000, 30, 0, 0, 30, 20, 500000,
];

const PARENTS_PAY_FOR_THEMSELVES: [u64; 18] = [
    9, 2, 3, 2, 3, 60, 1, 3, 30, 0, 60, 450000, 0, 60, 450000, 60, 30, 900000,
];

// The tables that are not starred, and the two numbers written out.
fn tables(rt: &impl Print) {
    planned(
        rt,
        "period 10, one heavy segment",
        b"\x01\x07\x0a\x01\x05\x00",
        &PERIOD_TEN,
    );
    planned(
        rt,
        "128 is 80 01",
        b"\x01\x07\x80\x01\x01\x05\x00",
        &PERIOD_128,
    );
    planned(
        rt,
        "16,777,215 is FF FF FF 07",
        b"\x01\x07\xff\xff\xff\x07\x01\x05\x00",
        &LONGEST,
    );
}

// The slips of a plan, each on a record where it would show.
fn plan_slips(rt: &impl Print) {
    planned(
        rt,
        "m x (2T - P) equal to C is light",
        b"\x01\x09\x04\x04\x02\x00\x01\x01\x00\x01\x01\x00\x01\x01\x00",
        &FOUR,
    );
    planned(
        rt,
        "a child listed before its parent, its offset no start",
        b"\x01\x05\x0a\x02\x03\x01\x01\x04\x00",
        &CHILD_FIRST,
    );
    planned(
        rt,
        "a start is the latest finish of two parents",
        b"\x01\x05\x0a\x03\x01\x00\x04\x00\x01\x02\x00\x01",
        &TWO_PARENTS,
    );
    planned(
        rt,
        "deadlines are fractions of time units",
        b"\x01\x03\x06\x03\x03\x00\x01\x00\x01\x01\x01",
        &LISTING,
    );
}

// The slips of a join, which runs for no time.
fn join_slips(rt: &impl Print) {
    planned(
        rt,
        "a join cuts nothing and has no time, and its child begins with it",
        b"\x02\x09\x0a\x04\x02\x00\x04\x00\x00\x02\x00\x01\x01\x01\x02",
        &JOINED,
    );
    refused(
        rt,
        "edition 1 has no joins",
        b"\x01\x07\x09\x01\x00\x00",
        Refusal::of(7, 4),
    );
    refused(
        rt,
        "one join alone: nothing runs",
        b"\x02\x07\x09\x01\x00\x00",
        Refusal::of(21, 0),
    );
    refused(
        rt,
        "a byte after one join alone: 9 before 21",
        b"\x02\x07\x09\x01\x00\x00\x00",
        Refusal::of(9, 6),
    );
    refused(
        rt,
        "one join that is its own parent: 21 before 10",
        b"\x02\x07\x09\x01\x00\x01\x00",
        Refusal::of(21, 0),
    );
}

// The slips of a cost, which each step pays once.
fn cost_slips(rt: &impl Print) {
    planned_with_cost(
        rt,
        "5 written and a cost of 5 fill a period of 10",
        b"\x01\x07\x0a\x01\x05\x00",
        5,
        &FIVE_AND_FIVE,
    );
    refused_with_cost(
        rt,
        "a cost of 6 does not fit it",
        b"\x01\x07\x0a\x01\x05\x00",
        6,
        Refusal::of(11, 0),
    );
    planned_with_cost(
        rt,
        "a join pays nothing",
        b"\x02\x07\x0a\x03\x02\x00\x00\x01\x00\x01\x01\x01",
        1,
        &JOIN_PAYS_NOTHING,
    );
    planned_with_cost(
        rt,
        "a step with two parents pays once",
        b"\x01\x07\x0a\x03\x01\x00\x01\x00\x01\x02\x00\x01",
        2,
        &PARENTS_PAY_FOR_THEMSELVES,
    );
    refused_with_cost(
        rt,
        "a cost of 256: 26 before 1",
        b"",
        256,
        Refusal::of(26, 0),
    );
}

// The listing's verdict, which is yes on 2 cores without a cost.
fn cost_verdicts(rt: &impl Print) {
    alone(
        rt,
        "the listing with a cost of 1: no on 4 cores",
        b"\x01\x03\x06\x03\x03\x00\x01\x00\x01\x01\x01",
        1,
        4,
        false,
    );
    alone(
        rt,
        "and yes on 5",
        b"\x01\x03\x06\x03\x03\x00\x01\x00\x01\x01\x01",
        1,
        5,
        true,
    );
}

// Steps that run to their end, a task alone: r is its longest execution over its shortest deadline.
fn alone_to_end(rt: &impl Print) {
    to_end(
        rt,
        "an empty board: yes to the end on 1 core",
        &Board::empty(),
        1,
        true,
    );
    to_end(rt, "and on 64", &Board::empty(), 64, true);
    let long = noted(Board::empty(), b"\x01\x07\xe8\x07\x01\x05\x00", 0);
    to_end(
        rt,
        "5 in 1,000: r is 5,000, yes to the end on 1 core",
        &long,
        1,
        true,
    );
    let half = noted(Board::empty(), b"\x01\x07\x0a\x01\x05\x00", 0);
    to_end(
        rt,
        "5 in 10: r is 500,000, yes to the end on 1 core",
        &half,
        1,
        true,
    );
    let tight = noted(Board::empty(), b"\x01\x07\x09\x01\x05\x00", 0);
    to_end(rt, "5 in 9: no to the end on 1 core", &tight, 1, false);
}

// The listing alone, to its end.
fn listing_to_end(rt: &impl Print) {
    let listing = noted(
        Board::empty(),
        b"\x01\x03\x06\x03\x03\x00\x01\x00\x01\x01\x01",
        0,
    );
    to_end(
        rt,
        "the listing: r is 1,250,000, no to the end on 2 cores",
        &listing,
        2,
        false,
    );
    to_end(rt, "and on 64", &listing, 64, false);
}

// The slips of that verdict: a join counted, the longest and the shortest of one task alone, r rounded down.
fn to_end_slips(rt: &impl Print) {
    alone(
        rt,
        "a task with a join: yes on 4 cores",
        b"\x02\x09\x0a\x04\x02\x00\x04\x00\x00\x02\x00\x01\x01\x01\x02",
        0,
        4,
        true,
    );
    let joined = noted(
        Board::empty(),
        b"\x02\x09\x0a\x04\x02\x00\x04\x00\x00\x02\x00\x01\x01\x01\x02",
        0,
    );
    to_end(
        rt,
        "a join has no deadline to be the shortest: no to the end",
        &joined,
        4,
        false,
    );
    let one = noted(Board::empty(), b"\x01\x01\x0c\x01\x03\x00", 0);
    to_end(rt, "3 in 12 alone: yes to the end on 1 core", &one, 1, true);
    let both = noted(one, b"\x01\x02\x0f\x01\x05\x00", 0);
    to_end(
        rt,
        "with 5 in 15: 5 over 12, rounded up, no to the end on 1 core",
        &both,
        1,
        false,
    );
    to_end(rt, "and yes on 2", &both, 2, true);
}

// The slips of a guard: a task that just fits turned away, one that does not fit kept, a rule in another place.
fn guard_slips(rt: &impl Print) {
    admitted(
        rt,
        "5 in 5 just fits 1 core",
        &Board::empty(),
        b"\x01\x07\x05\x01\x05\x00",
        1,
        None,
    );
    let full = noted(Board::empty(), b"\x01\x07\x05\x01\x05\x00", 0);
    admitted(
        rt,
        "5 in 1,000 beside it: 20",
        &full,
        b"\x01\x08\xe8\x07\x01\x05\x00",
        1,
        Some(20),
    );
    admitted(
        rt,
        "with the id that stands: 12 before 20",
        &full,
        b"\x01\x07\xe8\x07\x01\x05\x00",
        1,
        Some(12),
    );
    admitted(rt, "for 0 cores: 15 before 1", &full, b"", 0, Some(15));
    never_kept(
        rt,
        "the chain is turned away on every count",
        b"\x01\x08\x03\x03\x01\x00\x01\x01\x00\x01\x01\x01",
    );
}

// The slips of a board, of a reader, and of a loop.
fn other_slips(rt: &impl Print) {
    not_withdrawn(rt, "id 0 finds no free row to withdraw", 0);
    alone(
        rt,
        "densities are rounded up: no on 1 core",
        b"\x01\x06\x03\x03\x01\x00\x01\x00\x01\x00",
        0,
        1,
        false,
    );
    alone(
        rt,
        "and yes on 2",
        b"\x01\x06\x03\x03\x01\x00\x01\x00\x01\x00",
        0,
        2,
        true,
    );
    refused(
        rt,
        "a parent equal to the one before it",
        b"\x01\x05\x0a\x02\x03\x00\x04\x02\x00\x00",
        Refusal::of(8, 9),
    );
    refused(
        rt,
        "a loop of 1, 3 and 4, on which 0 hangs and which hangs on 2",
        b"\x01\x05\x0a\x05\x01\x01\x03\x01\x01\x04\x01\x00\x01\x01\x01\x01\x02\x02\x03",
        Refusal {
            number: 10,
            place: 1,
            ring: 26,
        },
    );
}

fn main(rt: HostRuntime) {
    tables(&rt);
    plan_slips(&rt);
    join_slips(&rt);
    cost_slips(&rt);
    cost_verdicts(&rt);
    alone_to_end(&rt);
    listing_to_end(&rt);
    to_end_slips(&rt);
    guard_slips(&rt);
    other_slips(&rt);
}
