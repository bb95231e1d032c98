// Replays runs in an edition of sums: standard input holds the number of records and then the records, as compare/README.md says. Each problem is run
// by solver::solve in its edition, and its answer and all of both buffers are held to the list. One in edition two is then run in edition one, and comes to the same
// or to another answer, as the record says. Each dense one is run by solver::solve_split in its edition, cut in each of five ways, and held to the same record.
#![tactic(auto)]

use replay_problems::runs::{Cut, Found};
use replay_problems::{cuts, editions, runs};
use std::io::Read;
use tally::Tally;

// The longest record that there is room for, and the most numbers of A. The longest of the list has 6,316 words, and the largest matrix 16,384 numbers.
const RECORD_WORDS: usize = 8192;

const RECORD_BYTES: usize = 8 * RECORD_WORDS;

const A_NUMBERS: usize = 16384;

// What is counted: 0 all of 1 to 12, which are refusals by their numbers up to 6 and then endings; then, once more, those in edition one, in edition two and
// in none, and those with a norm of finite numbers whose plain sum is infinite.
const ALL: usize = 0;

const ONE: usize = 13;

const TWO: usize = 14;

const NONE: usize = 15;

const LARGE_NORM: usize = 16;

// Of those in edition two, once more: 17 and 18, by what edition one comes to.
const SAME: usize = 17;

const OTHER: usize = 18;

// Of those with a dense matrix, once more: 19 to 23, by where it is cut.
const CUT: usize = 19;

const COUNTED: usize = 24;

// Replays a record, the word of its edition and those of a run, with the differences met, which its tag adds up: whether it is one of a known kind.
fn replay(tag: u64, record: &[u8], a: &mut [f64], tally: &mut Tally<COUNTED>) -> bool {
    if record.len() < 8 {
        return false;
    }
    let edition = editions::edition(record);
    let run = &record[8..];
    let Some(found) = runs::replay_in(run, edition, runs::as_it_stands(run), a) else {
        return false;
    };
    count(tally, found, tag, edition)
        && replay_in_one(run, tag, edition, a, tally)
        && replay_cuts(run, edition, a, tally)
}

// Replays a record of edition two in edition one: the tag says whether the answer is another.
fn replay_in_one(
    run: &[u8],
    tag: u64,
    edition: u32,
    a: &mut [f64],
    tally: &mut Tally<COUNTED>,
) -> bool {
    if edition != 2 {
        return true;
    }
    let found = runs::replay_in(run, 1, runs::as_it_stands(run), a);
    let same = found.is_some_and(|found| found.agrees);
    if tag / 64 == 1 {
        return tally.count(OTHER, !same);
    }
    tally.count(SAME, same)
}

// Replays a record with a dense matrix once more in each of the five ways to cut it.
fn replay_cuts(run: &[u8], edition: u32, a: &mut [f64], tally: &mut Tally<COUNTED>) -> bool {
    if !runs::is_dense(run) {
        return true;
    }
    for way in 0..cuts::WAYS {
        let first = cuts::first(way, runs::columns(run));
        let Some(found) = runs::replay_in(run, edition, Cut::After(first), a) else {
            return false;
        };
        tally.count(CUT.wrapping_add(way), found.agrees);
    }
    true
}

// Counts an answer, with its edition, and the differences that its problem meets, which the tag adds up.
fn count(tally: &mut Tally<COUNTED>, found: Found, tag: u64, edition: u32) -> bool {
    let Found { number, agrees } = found;
    if number < 1 || number > 12 || tag > 127 {
        return false;
    }
    tally.count(ALL, agrees);
    tally.count(number, agrees);
    tally.count(place(edition), agrees);
    if tag / 32 % 2 == 1 {
        tally.count(LARGE_NORM, agrees);
    }
    true
}

// Where an edition is counted.
fn place(edition: u32) -> usize {
    match edition {
        1 => ONE,
        2 => TWO,
        _ => NONE,
    }
}

// Room for the longest record and for A. An array that a call answers has a length and nothing else that a proof would go into.
fn bytes_of_a_record() -> [u8; RECORD_BYTES] {
    [0u8; RECORD_BYTES]
}

fn numbers_of_a() -> [f64; A_NUMBERS] {
    [0.0; A_NUMBERS]
}

// The name of what is counted, if there is one of this number.
fn name_of(number: usize) -> Option<&'static str> {
    match number {
        ONE => Some("of all these, in edition one"),
        TWO => Some("of all these, in edition two"),
        NONE => Some("of all these, in no edition"),
        LARGE_NORM => Some("of all these, a norm whose plain sum is infinite, of finite numbers"),
        SAME => Some("of those in edition two, the same answer in edition one"),
        OTHER => Some("of those in edition two, another answer in edition one"),
        CUT.. => cuts::name(number - CUT),
        _ => lines::answer_name(number),
    }
}

fn run<R: Read, P: Print>(input: &mut R, out: &P) {
    let Ok(records) = lines::next_word(input) else {
        lines::write(out, b"stopped: there is no list\n");
        return;
    };
    let mut room = bytes_of_a_record();
    let mut a = numbers_of_a();
    let mut tally = Tally::new();
    let whole = lines::replay_records(input, records, &mut room, |tag, record| {
        replay(tag, record, &mut a, &mut tally)
    });
    tally.write_each(out, name_of);
    tally
        .of(ALL)
        .write_total_each(out, "runs in an edition of sums", whole);
}

fn main(rt: HostRuntime) {
    run(&mut rt.stdin(), &rt);
}
