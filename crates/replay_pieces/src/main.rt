// Replays runs in pieces: standard input holds the list of runs with a progress record, as compare/README.md says. Each problem is run uncut in either edition of
// sums, its matrix in one slice and, if it is dense, once more in two. Each of these runs is then cut, in many ways, and each cut run is held to the uncut one:
// every piece before the last halts after the steps that it was given, the last one answers as the uncut run, and all three buffers are the same, place by place.
#![tactic(auto)]

use replay_cuts::handed::{Handed, Lent};
use replay_cuts::held::{Cuts, Uncut};
use replay_cuts::{handed, held, same};
use replay_problems::{cuts, logs, room, runs};
use rules::Logged;
use std::io::Read;
use tally::Tally;

// The longest record that there is room for, and the most numbers of a problem. The longest of the list has 993 words, and the most numbers are 4,103.
const RECORD_WORDS: usize = 2048;

const RECORD_BYTES: usize = 8 * RECORD_WORDS;

const NUMBERS: usize = 8192;

const LEFT: usize = room::WORK_ROOM + room::CONE_ROOM + room::LOG_ROOM;

// A run of more steps is not cut after each of them, but before the first, in the middle and after the last.
const FEW_STEPS: u64 = 60;

// What is counted: 0 all problems; 1 to 12 those of an answer, which are refusals by their numbers up to 6 and then endings; of cut runs 13 to 17 those cut in a way, and 18 those of
// a problem that is turned away; 19 and 20 of all these, those in edition two and those in two slices.
const ALL: usize = 0;

const CUT: usize = 13;

const TURNED_AWAY: usize = 18;

const EDITION_TWO: usize = 19;

const TWO_SLICES: usize = 20;

const COUNTED: usize = 21;

// What is counted by number; then all runs that differ, and the pieces of those that agree.
#[derive(Clone, Copy)]
struct Told {
    tally: Tally<COUNTED>,
    different: u64,
    pieces: u64,
}

impl Told {
    fn new() -> Told {
        Told {
            tally: Tally::new(),
            different: 0,
            pieces: 0,
        }
    }

    fn differs(&mut self) {
        self.different = self.different.wrapping_add(1);
    }

    // Counts a cut run of so many pieces, none where it differs.
    fn count_cut(&mut self, handed: Handed, at: usize, pieces: Option<u64>) {
        let agrees = pieces.is_some();
        self.tally.count(at, agrees);
        if handed.par.edition == 2 {
            self.tally.count(EDITION_TWO, agrees);
        }
        if handed.is_split() {
            self.tally.count(TWO_SLICES, agrees);
        }
        match pieces {
            Some(pieces) => self.pieces = self.pieces.wrapping_add(pieces),
            None => self.differs(),
        }
    }

    // Counts a problem of this answer: it agrees if no more differ than before.
    fn count(&mut self, number: usize, different: u64) -> bool {
        if number < 1 || number > 12 {
            return false;
        }
        let agrees = self.different == different;
        self.tally.count(ALL, agrees);
        self.tally.count(number, agrees)
    }
}

// The ways to cut a run: into ones, the same with pieces of no step between, in two drawn ways, and then after each step. One that is turned away has one way.
const WAYS: u64 = 5 + FEW_STEPS;

// How a run is cut in a way, if it is.
fn cuts_in(way: u64, refused: bool, steps: u64) -> Option<Cuts> {
    if refused && way > 0 {
        return None;
    }
    match way {
        0 => Some(Cuts::Ones),
        1 => Some(Cuts::OnesAndNones),
        2 => Some(Cuts::Short),
        3 => Some(Cuts::Long),
        _ => after(way.wrapping_sub(4), steps).map(Cuts::After),
    }
}

// The steps after which a run is cut; of a long one, after so many halves of it.
fn after(place: u64, steps: u64) -> Option<u32> {
    if steps <= FEW_STEPS {
        return if place <= steps {
            Some(place as u32)
        } else {
            None
        };
    }
    let half = steps / 2;
    if half > 500000 {
        return None;
    }
    match place {
        0 => Some(0),
        1 => Some(half as u32),
        2 => Some(steps as u32),
        _ => None,
    }
}

// Where a cut run is counted.
fn place(way: u64, refused: bool) -> usize {
    if refused {
        return TURNED_AWAY;
    }
    CUT + way.min(4) as usize
}

// Whether a run was turned away.
fn is_refused(logged: Logged) -> bool {
    replay_answers::number_of(logged.answer.ending) < 7
}

// Cuts a run in the way whose turn it is, and counts it.
fn cut_one(
    way: u64,
    uncut: Uncut,
    numbers: &[f64],
    words: &[u16],
    left: &[f64],
    work: &mut [f64],
    cone_work: &mut [f64],
    log: &mut [f64],
    told: &mut Told,
) {
    let refused = is_refused(uncut.logged);
    if let Some(cuts) = cuts_in(way, refused, uncut.logged.answer.steps) {
        let seed = told.pieces;
        let pieces = held::held(
            cuts, seed, uncut, numbers, words, left, work, cone_work, log,
        );
        told.count_cut(uncut.handed, place(way, refused), pieces);
    }
}

// Cuts a run in every way.
fn cut_all(
    uncut: Uncut,
    numbers: &[f64],
    words: &[u16],
    left: &[f64],
    work: &mut [f64],
    cone_work: &mut [f64],
    log: &mut [f64],
    told: &mut Told,
) {
    for way in 0..WAYS {
        cut_one(way, uncut, numbers, words, left, work, cone_work, log, told);
    }
}

// Whether an uncut run comes to the record's answer, k and q. replay_logs holds all else of it to the same record.
fn is_recorded(lent: Lent, logged: Logged) -> bool {
    replay_answers::number_of(logged.answer.ending) == lent.number
        && logged.answer.steps == lent.steps
        && logged.answer.rotations == lent.rotations
}

// Runs a problem uncut, and then cut. The record to which the uncut run is held is of edition one.
fn run_and_cut(
    handed: Handed,
    lent: Lent,
    numbers: &[f64],
    words: &[u16],
    left: &mut [f64],
    work: &mut [f64],
    cone_work: &mut [f64],
    log: &mut [f64],
    told: &mut Told,
) {
    let Lent {
        before,
        log_before,
        ..
    } = lent;
    let problem = handed.problem(numbers, words);
    let logged = held::run_uncut(problem, before, log_before, work, cone_work, log);
    same::keep(work, cone_work, log, left);
    if handed.par.edition != 2 && !is_recorded(lent, logged) {
        told.differs();
    }
    let uncut = Uncut {
        handed,
        before,
        log_before,
        logged,
    };
    cut_all(uncut, numbers, words, left, work, cone_work, log, told);
}

// The forms of a problem: in edition one and in edition two; if it is dense, once more both in two slices.
fn forms(handed: Handed) -> u64 {
    if handed.is_dense() { 4 } else { 2 }
}

// How a problem is handed over in one of its forms, with so many columns in the first of two slices.
fn in_form(handed: Handed, form: u64, first: usize) -> Handed {
    match form {
        0 => handed.in_edition(1),
        1 => handed.in_edition(2),
        2 => handed.in_edition(1).in_two(first),
        _ => handed.in_edition(2).in_two(first),
    }
}

// Runs and cuts a problem in each of its forms.
fn all_forms(
    handed: Handed,
    lent: Lent,
    first: usize,
    numbers: &[f64],
    words: &[u16],
    left: &mut [f64],
    work: &mut [f64],
    cone_work: &mut [f64],
    log: &mut [f64],
    told: &mut Told,
) {
    for form in 0..forms(handed) {
        let formed = in_form(handed, form, first);
        run_and_cut(
            formed, lent, numbers, words, left, work, cone_work, log, told,
        );
    }
}

// Lends the buffers, and room for what the uncut run leaves of them.
fn lend(
    handed: Handed,
    run: &[u8],
    log_words: &[u8],
    numbers: &[f64],
    words: &[u16],
    told: &mut Told,
) -> bool {
    let lent = handed::lent_with(run, log_words);
    if lent.work > room::WORK_ROOM
        || lent.cone_work > room::CONE_ROOM
        || lent.log > room::LOG_ROOM
    {
        return false;
    }
    let all = lent.work + lent.cone_work + lent.log;
    let mut left = room_of_left();
    let mut work = room_of_work();
    let mut cone_work = room_of_cone_work();
    let mut log = room_of_log();
    let different = told.different;
    let turn = cuts::next(told.tally.of(ALL).agree);
    all_forms(
        handed,
        lent,
        cuts::first(turn, runs::columns(run)),
        numbers,
        words,
        &mut left[..all],
        &mut work[..lent.work],
        &mut cone_work[..lent.cone_work],
        &mut log[..lent.log],
        told,
    );
    told.count(lent.number as usize, different)
}

// Replays a record, the words of the run and those of the log after them: whether it is one of a known kind.
fn replay(record: &[u8], told: &mut Told) -> bool {
    let words = logs::run_words(record);
    if words >= record.len() / 8 {
        return false;
    }
    replay_parts(&record[..words * 8], &record[words * 8..], told)
}

fn replay_parts(run: &[u8], log: &[u8], told: &mut Told) -> bool {
    let count = room::blocks(run);
    if count > room::WORD_ROOM {
        return false;
    }
    let words = room::cone_words(run);
    let mut numbers = room_of_numbers();
    let Some(handed) = handed::read(run, log, &mut numbers) else {
        return false;
    };
    lend(handed, run, log, &numbers, &words[..count], told)
}

// Room for the longest record, for its numbers and for buffers. An array that a call answers has a length and nothing else that a proof would go into.
fn room_of_a_record() -> [u8; RECORD_BYTES] {
    [0u8; RECORD_BYTES]
}

fn room_of_numbers() -> [f64; NUMBERS] {
    [0.0; NUMBERS]
}

fn room_of_left() -> [f64; LEFT] {
    [0.0; LEFT]
}

fn room_of_work() -> [f64; room::WORK_ROOM] {
    [0.0; room::WORK_ROOM]
}

fn room_of_cone_work() -> [f64; room::CONE_ROOM] {
    [0.0; room::CONE_ROOM]
}

fn room_of_log() -> [f64; room::LOG_ROOM] {
    [0.0; room::LOG_ROOM]
}

// The name of what is counted, if there is one of this number.
fn name_of(number: usize) -> Option<&'static str> {
    match number {
        13 => Some("into pieces of one step"),
        14 => Some("into pieces of one step, with pieces of no step between"),
        15 => Some("into pieces of up to 7 steps, as drawn"),
        16 => Some("into pieces of up to 63 steps, as drawn"),
        17 => Some("in two, before the first step and after each"),
        TURNED_AWAY => Some("turned away at the first piece"),
        EDITION_TWO => Some("of all cut runs, in edition two"),
        TWO_SLICES => Some("of all cut runs, A in two slices"),
        _ => lines::answer_name(number),
    }
}

fn run<R: Read, P: Print>(input: &mut R, out: &P) {
    let Ok(records) = lines::next_word(input) else {
        lines::write(out, b"stopped: there is no list\n");
        return;
    };
    let mut room = room_of_a_record();
    let mut told = Told::new();
    let whole = lines::replay_records(input, records, &mut room, |_, record| {
        replay(record, &mut told)
    });
    told.tally.write_each(out, name_of);
    lines::write(out, b"pieces: ");
    lines::write_decimal(out, told.pieces);
    lines::write(out, b"\n");
    told.tally
        .of(ALL)
        .write_total_each(out, "problems run in pieces", whole);
}

fn main(rt: HostRuntime) {
    run(&mut rt.stdin(), &rt);
}
