// The record of a run, altered in some of its items.
use piece_rules::{RunLengths, RunRecord};
use rules::{Norms, SolverParam};

// Its lengths with so much more.
pub(crate) fn lengths(
    r: RunRecord,
    cols: usize,
    rows: usize,
    words: usize,
    work: usize,
    cone_work: usize,
    log: usize,
) -> RunRecord {
    let old = r.lengths;
    RunRecord {
        lengths: RunLengths {
            cols: old.cols.wrapping_add(cols),
            rows: old.rows.wrapping_add(rows),
            words: old.words.wrapping_add(words),
            work: old.work.wrapping_add(work),
            cone_work: old.cone_work.wrapping_add(cone_work),
            log: old.log.wrapping_add(log),
        },
        ..r
    }
}

// Its parameters that are whole numbers.
pub(crate) fn whole_numbers(
    r: RunRecord,
    max_iter: u64,
    sweep_limit: u64,
    log_period: u32,
    edition: u32,
) -> RunRecord {
    let old = r.par;
    let par = SolverParam::of(
        max_iter,
        old.eps_acc,
        old.eps_inf,
        old.eps_zero,
        sweep_limit,
    );
    RunRecord {
        par: par.with_log_period(log_period).with_edition(edition),
        ..r
    }
}

pub(crate) fn tolerances(r: RunRecord, acc: f64, inf: f64, zero: f64) -> RunRecord {
    let old = r.par;
    let par = SolverParam::of(old.max_iter, acc, inf, zero, old.sweep_limit);
    RunRecord {
        par: par.with_log_period(old.log_period),
        ..r
    }
}

pub(crate) fn ended(r: RunRecord) -> RunRecord {
    RunRecord { ended: true, ..r }
}

pub(crate) fn counts(
    r: RunRecord,
    steps: u64,
    rotations: u64,
    written: u64,
    dropped: u64,
) -> RunRecord {
    RunRecord {
        steps,
        rotations,
        written,
        dropped,
        ..r
    }
}

// Its tau and norms.
pub(crate) fn state(r: RunRecord, tau: f64, b: f64, c: f64) -> RunRecord {
    RunRecord {
        norms: Norms { b, c },
        tau,
        ..r
    }
}
