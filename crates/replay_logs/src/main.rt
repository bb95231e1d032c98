// Replays runs with a progress record: standard input holds the number of records and then the records, as compare/README.md says. Each problem is
// run by solver::solve_logged, and its answer, all of both buffers, the rows written and dropped and every place of the log are held to
// the list. Each dense one is then run by solver::solve_split_logged, cut after so many columns, and held to the same record.
#![tactic(auto)]

use replay_problems::runs::{Cut, Found};
use replay_problems::{cuts, logs, runs};
use std::io::Read;
use tally::Tally;

// The longest record that there is room for, and the most numbers of A. The longest of the list has 993 words, and the largest matrix 3,075 numbers.
const RECORD_WORDS: usize = 2048;

const RECORD_BYTES: usize = 8 * RECORD_WORDS;

const A_NUMBERS: usize = 4096;

// What is counted: 0 all of 1 to 12, which are refusals by their numbers up to 6 and then endings; then, once more, those with rows written,
// those with rows dropped, and those with a dense matrix, which is cut.
const ALL: usize = 0;

const WRITTEN: usize = 13;

const DROPPED: usize = 14;

const CUT: usize = 15;

const COUNTED: usize = 16;

// Replays a record, the words of the run and those of the log after them: whether it is one of a known kind.
fn replay(record: &[u8], a: &mut [f64], tally: &mut Tally<COUNTED>) -> bool {
    let words = logs::run_words(record);
    if words >= record.len() / 8 {
        return false;
    }
    let run = &record[..words * 8];
    let log = &record[words * 8..];
    let Some(found) = runs::replay_logged(run, log, runs::as_it_stands(run), a) else {
        return false;
    };
    count(tally, found, log) && replay_cut(run, log, a, tally)
}

// Replays a record with a dense matrix once more, cut in one of five ways, which take turns.
fn replay_cut(run: &[u8], log: &[u8], a: &mut [f64], tally: &mut Tally<COUNTED>) -> bool {
    if !runs::is_dense(run) {
        return true;
    }
    let first = cuts::first(cuts::next(tally.of(ALL).agree), runs::columns(run));
    let Some(found) = runs::replay_logged(run, log, Cut::After(first), a) else {
        return false;
    };
    tally.count(CUT, found.agrees)
}

// Counts an answer, with what is told of its rows.
fn count(tally: &mut Tally<COUNTED>, found: Found, log: &[u8]) -> bool {
    let Found { number, agrees } = found;
    if number < 1 || number > 12 {
        return false;
    }
    tally.count(ALL, agrees);
    tally.count(number, agrees);
    if logs::written(log) > 0 {
        tally.count(WRITTEN, agrees);
    }
    if logs::dropped(log) > 0 {
        tally.count(DROPPED, agrees);
    }
    true
}

// Room for the longest record and for A. An array that a call answers has a length and nothing else that a proof would go into.
fn bytes_of_a_record() -> [u8; RECORD_BYTES] {
    [0u8; RECORD_BYTES]
}

fn numbers_of_a() -> [f64; A_NUMBERS] {
    [0.0; A_NUMBERS]
}

// The name of what is counted, if there is one of this number.
fn name_of(number: usize) -> Option<&'static str> {
    match number {
        WRITTEN => Some("of all these, with rows written"),
        DROPPED => Some("of all these, with rows dropped"),
        CUT => Some("once more, cut in two slices"),
        _ => lines::answer_name(number),
    }
}

fn run<R: Read, P: Print>(input: &mut R, out: &P) {
    let Ok(records) = lines::next_word(input) else {
        lines::write(out, b"stopped: there is no list\n");
        return;
    };
    let mut room = bytes_of_a_record();
    let mut a = numbers_of_a();
    let mut tally = Tally::new();
    // A record's first word adds up the listed differences that the problem meets, which are counted with the runs.
    let whole = lines::replay_records(input, records, &mut room, |_, record| {
        replay(record, &mut a, &mut tally)
    });
    tally.write_each(out, name_of);
    tally
        .of(ALL)
        .write_total_each(out, "runs with a progress record", whole);
}

fn main(rt: HostRuntime) {
    run(&mut rt.stdin(), &rt);
}
