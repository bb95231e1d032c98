// The problem, its first piece of 3 steps, and a later piece of it: one column, three rows that are a semidefinite block of order 2, and a tolerance of 0, so
// that it takes all of its 7 steps.
use patterns::{pattern_of, same_bits};
use piece_rules::{PieceAnswer, RunLengths, RunRecord};
use rules::{Cols, Norms, Rows, SolverParam, Storage};

const STEPS: u64 = 7;

const WORK: usize = 42;

// 6 places, and 2 more.
const CONE_WORK: usize = 8;

// Two rows of a progress record.
const LOG: usize = 8;

const WORD: u16 = 32771;

const NOT_KEPT: u64 = 9;

// What may be altered in a call: a tolerance, the columns, whether c is too long, the cone word, a number of b, and whether work is too short.
#[derive(Clone, Copy)]
pub(crate) struct Call {
    pub(crate) eps_acc: f64,
    pub(crate) eps_zero: f64,
    pub(crate) columns: usize,
    pub(crate) long_c: bool,
    pub(crate) word: u16,
    pub(crate) b: f64,
    pub(crate) short_work: bool,
}

impl Call {
    // That of the first piece.
    pub(crate) const AS_BEGUN: Call = Call {
        eps_acc: 0.0,
        eps_zero: 0.0,
        columns: 1,
        long_c: false,
        word: WORD,
        b: 2.0,
        short_work: false,
    };
}

fn parameters(eps_acc: f64, eps_zero: f64) -> SolverParam {
    SolverParam::of(STEPS, eps_acc, 0.0, eps_zero, 64).with_log_period(1)
}

// The first piece, in buffers that hold something else.
fn begin(work: &mut [f64], cone_work: &mut [f64], log: &mut [f64]) -> PieceAnswer {
    pieces::first_piece(
        parameters(0.0, 0.0),
        Rows(3),
        Cols(1),
        Storage::Dense,
        &[1.0],
        &[-1.0, 0.5, -3.0],
        &[2.0, 0.75, 1.0],
        &[WORD],
        3,
        work,
        cone_work,
        log,
    )
}

fn later(
    record: RunRecord,
    call: Call,
    c: &[f64],
    given: u32,
    work: &mut [f64],
    cone_work: &mut [f64],
    log: &mut [f64],
) -> PieceAnswer {
    pieces::later_piece(
        record,
        parameters(call.eps_acc, call.eps_zero),
        Rows(3),
        Cols(call.columns),
        Storage::Dense,
        c,
        &[-1.0, 0.5, -3.0],
        &[call.b, 0.75, 1.0],
        &[call.word],
        given,
        work,
        cone_work,
        log,
    )
}

// The record after the first piece; where that did not halt, one of no run.
pub(crate) fn begun() -> RunRecord {
    let mut work = [7.0; WORK];
    let mut cone_work = [7.0; CONE_WORK];
    let mut log = [7.0; LOG];
    match begin(&mut work, &mut cone_work, &mut log) {
        PieceAnswer::Halted(record) => record,
        _ => none(),
    }
}

fn none() -> RunRecord {
    RunRecord {
        lengths: RunLengths {
            cols: 0,
            rows: 0,
            words: 0,
            work: 0,
            cone_work: 0,
            log: 0,
        },
        par: SolverParam::new(0, 0),
        norms: Norms { b: 0.0, c: 0.0 },
        tau: 0.0,
        steps: 0,
        rotations: 0,
        written: 0,
        dropped: 0,
        ended: true,
    }
}

fn all_same(
    work: &[f64],
    cone_work: &[f64],
    log: &[f64],
    kept: &[f64],
    kept_cone: &[f64],
    kept_log: &[f64],
) -> bool {
    same_bits(work, kept) && same_bits(cone_work, kept_cone) && same_bits(log, kept_log)
}

// Whether an answered record says the same as the one that was lent.
fn same_record(one: RunRecord, other: RunRecord) -> bool {
    pattern_of(one.tau) == pattern_of(other.tau)
        && one.steps == other.steps
        && one.rotations == other.rotations
        && one.written == other.written
        && one.dropped == other.dropped
}

// The number of an answer, where a run that was turned away or stood still has kept all.
fn number(answer: PieceAnswer, record: RunRecord, given: u32, kept: bool) -> u64 {
    match answer {
        PieceAnswer::Refused(e) => if_kept(kept, replay_answers::number_of(e)),
        PieceAnswer::StaleRun => if_kept(kept, 7),
        PieceAnswer::Halted(r) if given == 0 => if_kept(kept && same_record(r, record), 0),
        PieceAnswer::Halted(_) => 0,
        PieceAnswer::Ended(_, left) => if_kept(left.steps <= STEPS && left.ended, 8),
    }
}

fn if_kept(kept: bool, number: u64) -> u64 {
    if kept { number } else { NOT_KEPT }
}

fn told(
    record: RunRecord,
    call: Call,
    c: &[f64],
    given: u32,
    work: &mut [f64],
    cone_work: &mut [f64],
    log: &mut [f64],
    kept: &[f64],
    kept_cone: &[f64],
    kept_log: &[f64],
) -> u64 {
    let answer = later(record, call, c, given, work, cone_work, log);
    let all = all_same(work, cone_work, log, kept, kept_cone, kept_log);
    number(answer, record, given, all)
}

// What a later piece of so many steps is answered after the first, by number: 9 for one that should have kept all and did not, or that ended after step 7.
pub(crate) fn after_call(record: RunRecord, call: Call, given: u32) -> u64 {
    let mut work = [7.0; WORK];
    let mut cone_work = [7.0; CONE_WORK];
    let mut log = [7.0; LOG];
    begin(&mut work, &mut cone_work, &mut log);
    let mut kept = [5.0; WORK];
    let mut kept_cone = [7.0; CONE_WORK];
    let mut kept_log = [5.0; LOG];
    begin(&mut kept, &mut kept_cone, &mut kept_log);
    if call.short_work {
        return told(
            record,
            call,
            &[1.0],
            given,
            &mut work[0..41],
            &mut cone_work,
            &mut log,
            &kept[0..41],
            &kept_cone,
            &kept_log,
        );
    }
    if call.long_c {
        return told(
            record,
            call,
            &[1.0, 1.0],
            given,
            &mut work,
            &mut cone_work,
            &mut log,
            &kept,
            &kept_cone,
            &kept_log,
        );
    }
    told(
        record,
        call,
        &[1.0],
        given,
        &mut work,
        &mut cone_work,
        &mut log,
        &kept,
        &kept_cone,
        &kept_log,
    )
}

// Whether all steps from these buffers end, by step 7.
fn ends_in(record: RunRecord, work: &mut [f64], cone_work: &mut [f64], log: &mut [f64]) -> bool {
    let answer = later(
        record,
        Call::AS_BEGUN,
        &[1.0],
        4294967295,
        work,
        cone_work,
        log,
    );
    if let PieceAnswer::Ended(told, left) = answer {
        let steps = told.answer.steps;
        return steps <= STEPS && left.steps == steps && left.ended;
    }
    false
}

// .. from buffers filled with these numbers.
pub(crate) fn ends_from(record: RunRecord, of_work: f64, of_cone: f64, of_log: f64) -> bool {
    let mut work = [of_work; WORK];
    let mut cone_work = [of_cone; CONE_WORK];
    let mut log = [of_log; LOG];
    ends_in(record, &mut work, &mut cone_work, &mut log)
}

// .. from the work of the first piece, and other buffers filled with these numbers.
pub(crate) fn ends_beside(record: RunRecord, of_cone: f64, of_log: f64) -> bool {
    let mut work = [7.0; WORK];
    let mut first_cone = [7.0; CONE_WORK];
    let mut first_log = [7.0; LOG];
    begin(&mut work, &mut first_cone, &mut first_log);
    let mut cone_work = [of_cone; CONE_WORK];
    let mut log = [of_log; LOG];
    ends_in(record, &mut work, &mut cone_work, &mut log)
}

// Whether a piece of 0 steps changes nothing of buffers filled with a number.
pub(crate) fn stands_still(record: RunRecord, number: f64) -> bool {
    let mut work = [number; WORK];
    let mut cone_work = [number; CONE_WORK];
    let mut log = [number; LOG];
    let kept = [number; WORK];
    let kept_cone = [number; CONE_WORK];
    let kept_log = [number; LOG];
    let answer = told(
        record,
        Call::AS_BEGUN,
        &[1.0],
        0,
        &mut work,
        &mut cone_work,
        &mut log,
        &kept,
        &kept_cone,
        &kept_log,
    );
    answer == 0
}
