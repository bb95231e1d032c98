// A piece that was accepted: the first one of a run, or a later one by its record, in vectors of its own.
ghost use Rattle.rules.specs.Groups.{plain_words};
ghost use Rattle.rules.specs.Problem.{slices, problem_in};
ghost use Rattle.solver.specs.Solve.{Handed, Lent, AtZero};
ghost use Rattle.piece_rules.specs.Pieces.{PieceAs, first_taken, later_taken};
ghost use Rattle.pieces.specs.Taking.{Fresh};
ghost use Rattle.pieces.specs.Starts.{Begins, taken_by, lengths_lent};

use crate::stepping;
use iterate::RowCounts;
use piece_rules::{PieceAnswer, RunLengths, RunRecord};
use rules::{LIMIT, MOST_WORDS, Shape, SolverParam};

// The longest x and the longest y.
const LONG_X: usize = 3 * LIMIT + 1;

const LONG_Y: usize = 2 * LIMIT + 1;

// The first piece of a run, or a later one, taken up by its record. It is over the plain words of the list. Its six vectors are held apart, as those of a run are.
pub(crate) fn taken<'a>(
    start: Option<RunRecord>,
    par: SolverParam,
    shape: Shape,
    c: &[f64],
    a1: &'a [f64],
    a2: &'a [f64],
    b: &[f64],
    words: &[u16],
    given: u32,
    work: &mut [f64],
    cone_work: &mut [f64],
    log: &mut [f64],
) -> PieceAnswer
    requires handed { Handed shape c.now (slices a1.now a2.now) b.now words.now par work.old cone_work.old }
    requires begins { Begins start
        (problem_in shape c.now (slices a1.now a2.now) b.now (plain_words words.now) par) }
    ensures { PieceAs
        (taken_by start given
        (lengths_lent shape words.now work.old cone_work.old log.old)
        (problem_in shape c.now (slices a1.now a2.now) b.now
        (plain_words words.now) par)
        work.old cone_work.old log.old)
        result work.new cone_work.new log.new }
{
    let m = shape.rows.0;
    let n = shape.cols.0;
    let nx = n + m + m + 1;
    let ny = n + m + 1;
    let lengths = RunLengths {
        cols: n,
        rows: m,
        words: words.len(),
        work: work.len(),
        cone_work: cone_work.len(),
        log: log.len(),
    };
    let mut plain = [0u16; MOST_WORDS];
    // no list that was accepted has more words
    let count = groups::flatten(words, &mut plain).unwrap();
    let needed = words::cone_work_len(&plain[..count]);
    let mut x = [0.0; LONG_X];
    let mut y = [0.0; LONG_Y];
    let mut dp_tau = [0.0; LONG_X];
    let mut dp_sigma = [0.0; LONG_Y];
    let mut rx = [0.0; LONG_X];
    let mut tx = [0.0; LONG_X];
    piece_in(
        start,
        par,
        shape,
        c,
        a1,
        a2,
        b,
        &plain[..count],
        lengths,
        given,
        &mut x[..nx],
        &mut y[..ny],
        &mut dp_tau[..nx],
        &mut dp_sigma[..ny],
        &mut rx[..nx],
        &mut tx[..nx],
        work,
        &mut cone_work[..needed],
        log,
    )
}

fn piece_in<'a>(
    start: Option<RunRecord>,
    par: SolverParam,
    shape: Shape,
    c: &[f64],
    a1: &'a [f64],
    a2: &'a [f64],
    b: &[f64],
    words: &[u16],
    lengths: RunLengths,
    given: u32,
    x: &mut [f64],
    y: &mut [f64],
    dp_tau: &mut [f64],
    dp_sigma: &mut [f64],
    rx: &mut [f64],
    tx: &mut [f64],
    work: &mut [f64],
    cone_work: &mut [f64],
    log: &mut [f64],
) -> PieceAnswer
    requires lent { Lent shape c.now (slices a1.now a2.now) b.now words.now par work.old cone_work.old }
    requires at_zero { AtZero shape x.old y.old dp_tau.old dp_sigma.old rx.old tx.old }
    requires begins { Begins start (problem_in shape c.now (slices a1.now a2.now) b.now words.now par) }
    ensures { PieceAs
        (taken_by start given lengths
        (problem_in shape c.now (slices a1.now a2.now) b.now
        words.now par)
        work.old cone_work.old log.old)
        result work.new cone_work.new log.new }
{
    match start {
        None => first_in(
            par, shape, c, a1, a2, b, words, lengths, given, x, y, dp_tau, dp_sigma, rx, tx, work,
            cone_work, log,
        ),
        Some(record) => later_in(
            record, par, shape, c, a1, a2, b, words, lengths, given, x, y, dp_tau, dp_sigma, rx,
            tx, work, cone_work, log,
        ),
    }
}

// The first piece: cone work is cleared, and the run prepared in vectors at zero, as a run is.
fn first_in<'a>(
    par: SolverParam,
    shape: Shape,
    c: &[f64],
    a1: &'a [f64],
    a2: &'a [f64],
    b: &[f64],
    words: &[u16],
    lengths: RunLengths,
    given: u32,
    x: &mut [f64],
    y: &mut [f64],
    dp_tau: &mut [f64],
    dp_sigma: &mut [f64],
    rx: &mut [f64],
    tx: &mut [f64],
    work: &mut [f64],
    cone_work: &mut [f64],
    log: &mut [f64],
) -> PieceAnswer
    requires lent { Lent shape c.now (slices a1.now a2.now) b.now words.now par work.old cone_work.old }
    requires at_zero { AtZero shape x.old y.old dp_tau.old dp_sigma.old rx.old tx.old }
    ensures { PieceAs
        (first_taken given lengths
        (problem_in shape c.now (slices a1.now a2.now) b.now
        words.now par)
        work.old cone_work.old log.old)
        result work.new cone_work.new log.new }
{
    cone_work.fill(0.0);
    // the sizes fit
    let norms = prepare::prepare(par, shape, c, a1, a2, b, words, x, y, dp_tau, dp_sigma).unwrap();
    let none = RowCounts {
        written: 0,
        dropped: 0,
    };
    stepping::steps_in(
        par, shape, c, a1, a2, b, words, lengths, norms, 0, 0, none, given, x, y, dp_tau, dp_sigma,
        rx, tx, work, cone_work, log,
    )
}

// A later piece: its vectors come back from work, with the record's tau in its place. Where no step is given, nothing is changed.
fn later_in(
    record: RunRecord,
    par: SolverParam,
    shape: Shape,
    c: &[f64],
    a1: &[f64],
    a2: &[f64],
    b: &[f64],
    words: &[u16],
    lengths: RunLengths,
    given: u32,
    x: &mut [f64],
    y: &mut [f64],
    dp_tau: &mut [f64],
    dp_sigma: &mut [f64],
    rx: &mut [f64],
    tx: &mut [f64],
    work: &mut [f64],
    cone_work: &mut [f64],
    log: &mut [f64],
) -> PieceAnswer
    requires lent { Lent shape c.now (slices a1.now a2.now) b.now words.now par work.old cone_work.old }
    requires at_zero { AtZero shape x.old y.old dp_tau.old dp_sigma.old rx.old tx.old }
    requires fresh { Fresh «record» (problem_in shape c.now (slices a1.now a2.now) b.now words.now par) }
    ensures { PieceAs
        (later_taken given «record» lengths
        (problem_in shape c.now (slices a1.now a2.now) b.now
        words.now par)
        work.old cone_work.old log.old)
        result work.new cone_work.new log.new }
{
    if given == 0 {
        return PieceAnswer::Halted(record);
    }
    let m = shape.rows;
    let n = shape.cols;
    take_up::take_up(m, n, work, x, y, dp_tau, dp_sigma, rx, tx);
    x[n.0 + m.0 + m.0] = record.tau;
    let rows = RowCounts {
        written: record.written,
        dropped: record.dropped,
    };
    let behind = record.steps as u32;
    stepping::steps_in(
        par,
        shape,
        c,
        a1,
        a2,
        b,
        words,
        lengths,
        record.norms,
        behind,
        record.rotations,
        rows,
        given,
        x,
        y,
        dp_tau,
        dp_sigma,
        rx,
        tx,
        work,
        cone_work,
        log,
    )
}
