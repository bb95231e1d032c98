// Replays whole problems: standard input holds the number of records and then the records, as
// compare/README.md says. Each problem is run by solver::solve, and its answer and all of both buffers
// are held to the list. Each dense one is then run by solver::solve_split, cut after so many columns, and
// held to the same record. A matrix of which half stands in the record is run by solver::solve_split alone, with
// that half for both. Then come the runs worked by hand.
#![tactic(auto)]

mod cases;

use replay_problems::room::{A_ROOM, WORK_ROOM};
use replay_problems::runs::{Cut, Found};
use replay_problems::{cuts, runs};
use std::io::Read;
use tally::Tally;

// The longest record that there is room for: as much work as may be lent, and some words for all else. The longest of the list has 16,613.
const RECORD_WORDS: usize = WORK_ROOM + 512;

const RECORD_BYTES: usize = 8 * RECORD_WORDS;

// What is counted: 0 all of 1 to 12, which are refusals by their numbers up to 6 and then endings; then,
// once more, those whose problem meets a listed difference. The last are apart: a larger or smaller of -0
// and +0 came out otherwise.
const ALL: usize = 0;

const EPS_ZERO: usize = 13;

const SWEEP_LIMIT: usize = 14;

const STOPS: usize = 15;

const BELOW_ZERO: usize = 16;

const LARGE_NORM: usize = 17;

const ZEROS: usize = 18;

// Of those with a dense matrix, once more: 19 to 23, by where it is cut.
const CUT: usize = 19;

const COUNTED: usize = 24;

// Replays a record, with the differences met, which its tag adds up: whether it is one of a known kind.
fn replay(tag: u64, record: &[u8], a: &mut [f64], tally: &mut Tally<COUNTED>) -> bool {
    let Some(found) = runs::replay(record, runs::as_it_stands(record), a) else {
        return false;
    };
    count(tally, found, tag) && replay_cut(record, a, tally)
}

// Replays a record with a dense matrix once more, cut in one of five ways, which take turns.
fn replay_cut(record: &[u8], a: &mut [f64], tally: &mut Tally<COUNTED>) -> bool {
    if !runs::is_dense(record) {
        return true;
    }
    let way = cuts::next(tally.of(ALL).agree);
    let first = cuts::first(way, runs::columns(record));
    let Some(found) = runs::replay(record, Cut::After(first), a) else {
        return false;
    };
    tally.count(CUT.wrapping_add(way), found.agrees)
}

// Counts an answer, with the differences that its problem meets, which the tag adds up.
fn count(tally: &mut Tally<COUNTED>, found: Found, tag: u64) -> bool {
    let Found { number, agrees } = found;
    if number < 1 || number > 12 || tag > 63 {
        return false;
    }
    if tag / 4 % 2 == 1 {
        return tally.count(ZEROS, agrees);
    }
    tally.count(ALL, agrees);
    tally.count(number, agrees);
    for (unit, at) in [
        (1, EPS_ZERO),
        (2, SWEEP_LIMIT),
        (8, STOPS),
        (16, BELOW_ZERO),
        (32, LARGE_NORM),
    ] {
        if tag / unit % 2 == 1 {
            tally.count(at, agrees);
        }
    }
    true
}

// Room for the longest record and for A. An array that a call answers has a length and nothing else that a proof would go into.
fn bytes_of_a_record() -> [u8; RECORD_BYTES] {
    [0u8; RECORD_BYTES]
}

fn numbers_of_a() -> [f64; A_ROOM] {
    [0.0; A_ROOM]
}

// The name of what is counted, if there is one of this number.
fn name_of(number: usize) -> Option<&'static str> {
    match number {
        EPS_ZERO => Some("of all these, eps_zero of -0"),
        SWEEP_LIMIT => Some("of all these, a sweep limit reached"),
        STOPS => Some("of all these, an empty matrix on which the original stops"),
        BELOW_ZERO => Some("of all these, refused for a tolerance below zero alone"),
        LARGE_NORM => Some("of all these, a norm whose plain sum is infinite, of finite numbers"),
        ZEROS => Some("apart from these, a larger or smaller of -0 and +0 otherwise"),
        CUT.. => cuts::name(number - CUT),
        _ => lines::answer_name(number),
    }
}

fn run<R: Read, P: Print>(input: &mut R, out: &P) {
    let Ok(records) = lines::next_word(input) else {
        lines::write(out, b"stopped: there is no list\n");
        return;
    };
    let mut room = bytes_of_a_record();
    let mut a = numbers_of_a();
    let mut tally = Tally::new();
    let whole = lines::replay_records(input, records, &mut room, |tag, record| {
        replay(tag, record, &mut a, &mut tally)
    });
    tally.write_each(out, name_of);
    tally.of(ALL).write_total_each(out, "runs", whole);
    cases::write_cases(out);
}

fn main(rt: HostRuntime) {
    run(&mut rt.stdin(), &rt);
}
