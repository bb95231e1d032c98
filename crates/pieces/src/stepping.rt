// The steps of a piece, and how its vectors and its answer are left.
ghost use Rattle.std.specs.Prelude.{◌*◌, ◌<◌, min, ◌≡◌};
ghost use Rattle.rules.specs.Problem.{slices, problem_in};
ghost use Rattle.step.specs.Update.{state_of, StepReady};
ghost use Rattle.piece_rules.specs.Pieces.{PieceAs, steps_taken};
ghost use Rattle.pieces.specs.Taking.{Lent, Behind, log_of, SomeSteps, Counted, told_by, laid_by};

use iterate::{Iterated, RowCounts};
use piece_rules::{PieceAnswer, RunLengths, RunRecord};
use rules::{Answer, Ending, Logged, Norms, Shape, SolverParam};

// At most so many steps from what the vectors hold, when others are behind; then they come into work: as the ending says, or unscaled where the piece halts.
pub(crate) fn steps_in(
    par: SolverParam,
    shape: Shape,
    c: &[f64],
    a1: &[f64],
    a2: &[f64],
    b: &[f64],
    words: &[u16],
    lengths: RunLengths,
    norms: Norms,
    behind: u32,
    rotations: u64,
    rows: RowCounts,
    given: u32,
    x: &mut [f64],
    y: &mut [f64],
    dp_tau: &[f64],
    dp_sigma: &[f64],
    rx: &mut [f64],
    tx: &mut [f64],
    work: &mut [f64],
    cone_work: &mut [f64],
    log: &mut [f64],
) -> PieceAnswer
    requires step_ready { StepReady par shape c.now (slices a1.now a2.now) b.now words.now
        (state_of x.old y.old dp_tau.now dp_sigma.now rx.old tx.old cone_work.old) }
    requires lent { Lent (problem_in shape c.now (slices a1.now a2.now) b.now words.now par) work.old
        cone_work.old }
    requires behind { Behind behind rotations rows }
    ensures { PieceAs
        (steps_taken given lengths
        (problem_in shape c.now (slices a1.now a2.now) b.now
        words.now par)
        norms behind rotations
        (state_of x.old y.old dp_tau.now dp_sigma.now
        rx.old tx.old cone_work.old)
        (log_of rows log.old) work.old cone_work.old)
        result work.new cone_work.new log.new }
{
    let end = log.len();
    let start = rows_end(rows.written, end);
    let ran = some_steps(
        par,
        shape,
        c,
        a1,
        a2,
        b,
        words,
        norms,
        behind,
        given,
        x,
        y,
        dp_tau,
        dp_sigma,
        rx,
        tx,
        cone_work,
        &mut log[start..end],
    );
    let ending = laid_by(ran.said);
    let m = shape.rows;
    let n = shape.cols;
    settle::settle(
        m, n, ending, x, y, dp_tau, dp_sigma, rx, tx, work, cone_work,
    );
    let tau = work[n.0 + m.0 + m.0];
    told(ran, lengths, par, norms, tau, rotations, rows)
}

// Where the rows after those written begin: at the end of the record where it has no place for another.
fn rows_end(written: u64, end: usize) -> usize
    requires { 4 * written < 18446744073709551616 }
    ensures { result ≡ min (4 * written) end }
{
    let after = (4 * written) as usize;
    after.min(end)
}

// The steps; none where none is given.
fn some_steps(
    par: SolverParam,
    shape: Shape,
    c: &[f64],
    a1: &[f64],
    a2: &[f64],
    b: &[f64],
    words: &[u16],
    norms: Norms,
    behind: u32,
    given: u32,
    x: &mut [f64],
    y: &mut [f64],
    dp_tau: &[f64],
    dp_sigma: &[f64],
    rx: &mut [f64],
    tx: &mut [f64],
    cone_work: &mut [f64],
    log: &mut [f64],
) -> Iterated
    requires { StepReady par shape c.now (slices a1.now a2.now) b.now words.now
        (state_of x.old y.old dp_tau.now dp_sigma.now rx.old tx.old cone_work.old) }
    ensures { SomeSteps given
        (problem_in shape c.now (slices a1.now a2.now) b.now
        words.now par)
        norms behind
        (state_of x.old y.old dp_tau.now dp_sigma.now
        rx.old tx.old cone_work.old)
        log.old result
        (state_of x.new y.new dp_tau.now dp_sigma.now
        rx.new tx.new cone_work.new)
        log.new }
{
    if given == 0 {
        return Iterated {
            said: None,
            steps: u64::from(behind),
            rotations: 0,
            rows: RowCounts {
                written: 0,
                dropped: 0,
            },
        };
    }
    // the sizes fit
    iterate::iterate(
        par, shape, c, a1, a2, b, words, norms, behind, given, x, y, dp_tau, dp_sigma, rx, tx,
        cone_work, log,
    )
    .unwrap()
}

// The ending by which the vectors come into work: that of the run, and of a piece that halts one that leaves x and y unscaled.
fn laid_by(said: Option<Ending>) -> Ending
    ensures { result ≡ laid_by said }
{
    match said {
        Some(ending) => ending,
        None => Ending::ExcessIterUnscaled(0.0, 0.0),
    }
}

// What a piece answers, by what its steps came to and what was behind it.
fn told(
    ran: Iterated,
    lengths: RunLengths,
    par: SolverParam,
    norms: Norms,
    tau: f64,
    rotations: u64,
    rows: RowCounts,
) -> PieceAnswer
    requires { Counted rotations rows ran.rotations ran.rows }
    ensures { result
        ≡ told_by lengths par norms tau rotations rows ran.said ran.steps ran.rotations
        ran.rows }
{
    let record = RunRecord {
        lengths,
        par,
        norms,
        tau,
        steps: ran.steps,
        rotations: rotations + ran.rotations,
        written: rows.written + ran.rows.written,
        dropped: rows.dropped + ran.rows.dropped,
        ended: ran.said.is_some(),
    };
    match ran.said {
        None => PieceAnswer::Halted(record),
        Some(ending) => {
            let answer = Answer {
                ending,
                steps: record.steps,
                rotations: record.rotations,
            };
            PieceAnswer::Ended(
                Logged {
                    answer,
                    written: record.written,
                    dropped: record.dropped,
                },
                record,
            )
        }
    }
}
