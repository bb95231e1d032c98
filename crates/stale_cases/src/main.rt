// A run of one small problem in pieces. After a first piece of 3 steps its record, its buffers or the call is altered, and a later piece is asked for: which of
// them are stale, which refusals come first, what is not stale, and that a run from altered buffers still ends. Worked by hand.
#![tactic(auto)]

mod alter;
mod call;

use alter::{counts, ended, lengths, state, tolerances, whole_numbers};
use call::{Call, after_call, begun, ends_beside, ends_from, stands_still};
use piece_rules::RunRecord;

// The bound of the rotations after 3 steps: 64 sweeps a step, of twice the one pair of order 2.
const BOUND: u64 = 384;

const ALL_STEPS: u32 = u32::MAX;

// What a later piece is answered, by number: 0 for Halted, 1 to 6 for a refusal of a run, 7 for StaleRun, 8 for Ended.
const HALTED: u64 = 0;

const STALE: u64 = 7;

const ENDED: u64 = 8;

const NAN: f64 = f64::NAN;

const INFINITY: f64 = f64::INFINITY;

// How many are right, after a group's name.
fn write_right<P: Print>(out: &P, right: u64, all: usize) {
    lines::write(out, b": ");
    lines::write_decimal(out, right);
    lines::write(out, b" of ");
    lines::write_decimal(out, all as u64);
    lines::write(out, b"\n");
}

// How many of a group's cases are right, after its name.
fn write_group<P: Print>(out: &P, cases: &[bool]) {
    let right = cases.iter().filter(|right| **right).count();
    write_right(out, right as u64, cases.len());
}

// ---- stale alone

// Whether this record is stale in a call that is otherwise the same, and all is kept.
fn stale(record: RunRecord) -> bool {
    after_call(record, Call::AS_BEGUN, 1) == STALE
}

fn write_stale<P: Print>(out: &P, r: RunRecord) {
    lines::write(out, b"stale alone, lengths");
    write_group(
        out,
        &[
            stale(lengths(r, 1, 0, 0, 0, 0, 0)),
            stale(lengths(r, 0, 1, 0, 0, 0, 0)),
            stale(lengths(r, 0, 0, 1, 0, 0, 0)),
            stale(lengths(r, 0, 0, 0, 1, 0, 0)),
            stale(lengths(r, 0, 0, 0, 0, 1, 0)),
            stale(lengths(r, 0, 0, 0, 0, 0, 1)),
        ],
    );
    lines::write(out, b"stale alone, limits, period and edition");
    write_group(
        out,
        &[
            stale(whole_numbers(r, 8, 64, 1, 1)),
            stale(whole_numbers(r, 6, 64, 1, 1)),
            stale(whole_numbers(r, 7, 63, 1, 1)),
            stale(whole_numbers(r, 7, 64, 2, 1)),
            stale(whole_numbers(r, 7, 64, 1, 2)),
        ],
    );
    lines::write(out, b"stale alone, tolerances");
    write_group(
        out,
        &[
            stale(tolerances(r, 1.0, 0.0, 0.0)),
            stale(tolerances(r, 0.0, 1.0, 0.0)),
            stale(tolerances(r, -0.0, 0.0, 0.0)),
            stale(tolerances(r, 0.0, -0.0, 0.0)),
            stale(tolerances(r, NAN, 0.0, 0.0)),
            stale(tolerances(r, 0.0, NAN, 0.0)),
            stale(tolerances(r, 0.0, 0.0, 1.0)),
            stale(tolerances(r, 0.0, 0.0, NAN)),
        ],
    );
    lines::write(out, b"stale alone, counts and the end");
    write_group(
        out,
        &[
            stale(counts(r, 7, 0, 2, 1)),
            stale(counts(r, u64::MAX, 0, 2, 1)),
            stale(counts(r, 3, BOUND + 1, 2, 1)),
            stale(counts(r, 3, u64::MAX, 2, 1)),
            stale(counts(r, 0, 1, 0, 0)),
            stale(counts(r, 0, 0, 0, 1)),
            stale(counts(r, 3, 0, 2, 2)),
            stale(counts(r, 3, 0, 4, 0)),
            stale(counts(r, 3, 0, u64::MAX, 1)),
            stale(counts(r, 3, 0, 1, u64::MAX)),
            stale(ended(r)),
        ],
    );
}

// ---- in pairs

// This stale record with each of the six refusals of a run: how many come first, with all kept.
fn write_before_stale<P: Print>(out: &P, record: RunRecord) {
    let same = Call::AS_BEGUN;
    write_group(
        out,
        &[
            after_call(
                record,
                Call {
                    eps_acc: NAN,
                    ..same
                },
                1,
            ) == 1,
            after_call(
                record,
                Call {
                    columns: 1025,
                    ..same
                },
                1,
            ) == 2,
            after_call(
                record,
                Call {
                    long_c: true,
                    ..same
                },
                1,
            ) == 3,
            after_call(
                record,
                Call {
                    word: 40963,
                    ..same
                },
                1,
            ) == 4,
            after_call(record, Call { b: NAN, ..same }, 1) == 5,
            after_call(
                record,
                Call {
                    short_work: true,
                    ..same
                },
                1,
            ) == 6,
        ],
    )
}

fn write_pairs<P: Print>(out: &P, r: RunRecord) {
    lines::write(out, b"refused by 1 to 6, and ended");
    write_before_stale(out, ended(r));
    lines::write(out, b"refused by 1 to 6, and no step left");
    write_before_stale(out, counts(r, 7, 0, 2, 1));
    lines::write(out, b"refused by 1 to 6, and a NaN for a tolerance");
    write_before_stale(out, tolerances(r, NAN, 0.0, 0.0));
    lines::write(out, b"refused by 1 to 6, and another length");
    write_before_stale(out, lengths(r, 0, 0, 0, 1, 0, 0));
    lines::write(out, b"refused by 1 to 6, and too many rotations");
    write_before_stale(out, counts(r, 3, BOUND + 1, 2, 1));
    lines::write(out, b"refused by 1 to 6, and too many rows");
    write_before_stale(out, counts(r, 3, 0, u64::MAX, 1));
    lines::write(out, b"refused by 1 to 6, and not stale");
    write_before_stale(out, r);
}

// ---- not stale

// Whether one step from this record halts and all steps end.
fn taken(record: RunRecord, call: Call) -> bool {
    after_call(record, call, 1) == HALTED && after_call(record, call, ALL_STEPS) == ENDED
}

fn write_not_stale<P: Print>(out: &P, r: RunRecord) {
    let below = tolerances(r, 0.0, 0.0, -0.0);
    let same = Call::AS_BEGUN;
    let below_too = Call {
        eps_zero: -0.0,
        ..same
    };
    lines::write(out, b"not stale");
    write_group(
        out,
        &[
            taken(below, same),
            taken(r, below_too),
            taken(below, below_too),
            taken(r, same),
            taken(counts(r, 3, BOUND, 2, 1), same),
            taken(counts(r, 3, 0, 2, 1), same),
            taken(counts(r, 3, 0, 3, 0), same),
            taken(counts(r, 3, 0, 0, 3), same),
            taken(counts(r, 3, 0, 0, 0), same),
        ],
    );
}

// ---- altered, still ends

// From buffers as they are.
fn ends(record: RunRecord) -> bool {
    after_call(record, Call::AS_BEGUN, ALL_STEPS) == ENDED
}

fn write_ends<P: Print>(out: &P, r: RunRecord) {
    lines::write(out, b"altered buffers, ended by step 7");
    write_group(
        out,
        &[
            ends_from(r, 7.5, 0.0, 0.0),
            ends_from(r, NAN, 0.0, 0.0),
            ends_from(r, INFINITY, 0.0, 0.0),
            ends_from(r, 0.0, 0.0, 0.0),
            ends_from(r, -INFINITY, 0.0, 0.0),
            ends_from(r, 7.5, 7.5, 0.0),
            ends_from(r, 7.5, NAN, 0.0),
            ends_from(r, 7.5, 0.0, NAN),
            ends_from(r, NAN, NAN, NAN),
            ends_beside(r, NAN, 7.0),
            ends_beside(r, 7.5, NAN),
        ],
    );
    lines::write(out, b"altered record, ended by step 7");
    write_ends_twice(
        out,
        &[
            state(r, 0.0, 1.0, 1.0),
            state(r, NAN, 1.0, 1.0),
            state(r, -1.0, 1.0, 1.0),
            state(r, INFINITY, 1.0, 1.0),
            state(r, 1.0, NAN, 1.0),
            state(r, 1.0, 1.0, NAN),
            counts(r, 3, 0, 3, 0),
            counts(r, 3, BOUND, 0, 0),
            counts(r, 0, 0, 0, 0),
            counts(r, 6, 0, 0, 6),
        ],
    );
}

// Each of these records from buffers as they are, and from those filled with 7.5.
fn write_ends_twice<P: Print>(out: &P, records: &[RunRecord]) {
    let same = records.iter().filter(|r| ends(**r)).count();
    let filled = records
        .iter()
        .filter(|r| ends_from(**r, 7.5, 7.5, 7.5))
        .count();
    let right = same.wrapping_add(filled);
    write_right(out, right as u64, records.len().wrapping_mul(2));
}

// ---- a later piece of 0 steps

// Whether it halts with the record that it was lent and keeps all, from such buffers and from those as they are.
fn still(record: RunRecord, number: f64) -> bool {
    after_call(record, Call::AS_BEGUN, 0) == HALTED && stands_still(record, number)
}

fn write_still<P: Print>(out: &P, r: RunRecord) {
    lines::write(out, b"0 steps, the same record and all kept");
    write_group(
        out,
        &[
            still(r, 7.5),
            still(r, NAN),
            still(r, INFINITY),
            still(state(r, -0.0, 1.0, 1.0), 7.5),
            still(state(r, NAN, NAN, NAN), 7.5),
            still(counts(r, 0, 0, 0, 0), 7.5),
            still(counts(r, 6, BOUND, 1, 5), -0.0),
        ],
    );
}

fn run<P: Print>(out: &P) {
    let record = begun();
    lines::write(out, b"after 3 steps");
    write_right(out, record.steps, 3);
    lines::write(out, b"rotations above 0");
    write_group(out, &[record.rotations > 0]);
    lines::write(out, b"rows written and dropped");
    write_right(out, record.written.wrapping_add(record.dropped), 3);
    write_stale(out, record);
    write_pairs(out, record);
    write_not_stale(out, record);
    write_ends(out, record);
    write_still(out, record);
}

fn main(rt: HostRuntime) {
    run(&rt);
}
