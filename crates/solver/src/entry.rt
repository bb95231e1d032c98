// The entry points, which check for themselves, and an accepted run with vectors of its own.
ghost use Rattle.std.specs.Prelude.{◌≡◌};
ghost use Rattle.rules.specs.Groups.{plain_words};
ghost use Rattle.rules.specs.Refusals.{SolveOutcome};
ghost use Rattle.rules.specs.Problem.{slices, problem_of, problem_in};
ghost use Rattle.rules.specs.Split.{split_of, SplitOutcome};
ghost use Rattle.rules.specs.Progress.{LoggedAs, LoggedOutcome, SplitLoggedOutcome};
ghost use Rattle.solver.specs.Solve.{turned_away_by, Handed, left_logged};

use crate::solving;
use rules::{Answer, Cols, Ending, LIMIT, Logged, MOST_WORDS, Rows, Shape, SolverParam, Storage};

// The longest x and the longest y.
const LONG_X: usize = 3 * LIMIT + 1;

const LONG_Y: usize = 2 * LIMIT + 1;

// Runs a problem, or turns it away. A run has six vectors on the stack, as long as the limit asks, whatever the problem's sizes: 16 * LIMIT + 6
// numbers, which are 131 KB.
pub fn solve(
    par: SolverParam,
    rows: Rows,
    cols: Cols,
    storage: Storage,
    c: &[f64],
    a: &[f64],
    b: &[f64],
    words: &[u16],
    work: &mut [f64],
    cone_work: &mut [f64],
) -> Answer
    ensures { SolveOutcome
        (problem_of rows.0 cols.0 storage c.now a.now b.now
        words.now par)
        work.old cone_work.old result work.new cone_work.new }
{
    let mut none = [0.0; 0];
    let logged = solve_logged(
        par, rows, cols, storage, c, a, b, words, work, cone_work, &mut none,
    );
    logged.answer
}

// The same with a progress record in a third buffer, of any length: a row of four numbers at steps 1, 1 + log_period and so on.
pub fn solve_logged(
    par: SolverParam,
    rows: Rows,
    cols: Cols,
    storage: Storage,
    c: &[f64],
    a: &[f64],
    b: &[f64],
    words: &[u16],
    work: &mut [f64],
    cone_work: &mut [f64],
    log: &mut [f64],
) -> Logged
    ensures { LoggedOutcome
        (problem_of rows.0 cols.0 storage c.now a.now b.now
        words.now par)
        work.old cone_work.old log.old
        result work.new cone_work.new log.new }
{
    let checked = checks::check(
        par,
        rows,
        cols,
        storage,
        c,
        a,
        b,
        words,
        work.len(),
        cone_work.len(),
    );
    match checked {
        Err(ending) => turned_away(ending),
        Ok(()) => {
            let shape = Shape {
                rows,
                cols,
                storage,
                first: cols,
            };
            accepted(
                parameters::read_eps(par),
                shape,
                c,
                a,
                &a[..0],
                b,
                words,
                work,
                cone_work,
                log,
            )
        }
    }
}

// Runs a problem whose dense A stands in two slices, the first columns in one and the rest in the other, or turns it away. Its
// stack is that of solve.
pub fn solve_split<'a>(
    par: SolverParam,
    rows: Rows,
    cols: Cols,
    first: Cols,
    c: &[f64],
    factory: &'a [f64],
    lesson: &'a [f64],
    b: &[f64],
    words: &[u16],
    work: &mut [f64],
    cone_work: &mut [f64],
) -> Answer
    ensures { SplitOutcome
        (split_of rows.0 cols.0 first.0 c.now factory.now lesson.now
        b.now words.now par)
        work.old cone_work.old result work.new cone_work.new }
{
    let mut none = [0.0; 0];
    let logged = solve_split_logged(
        par, rows, cols, first, c, factory, lesson, b, words, work, cone_work, &mut none,
    );
    logged.answer
}

// The same with a progress record in a third buffer.
pub fn solve_split_logged<'a>(
    par: SolverParam,
    rows: Rows,
    cols: Cols,
    first: Cols,
    c: &[f64],
    factory: &'a [f64],
    lesson: &'a [f64],
    b: &[f64],
    words: &[u16],
    work: &mut [f64],
    cone_work: &mut [f64],
    log: &mut [f64],
) -> Logged
    ensures { SplitLoggedOutcome
        (split_of rows.0 cols.0 first.0 c.now factory.now lesson.now
        b.now words.now par)
        work.old cone_work.old log.old
        result work.new cone_work.new log.new }
{
    let checked = checks::check_split(
        par,
        rows,
        cols,
        first,
        c,
        factory,
        lesson,
        b,
        words,
        work.len(),
        cone_work.len(),
    );
    match checked {
        Err(ending) => turned_away(ending),
        Ok(()) => {
            let shape = Shape {
                rows,
                cols,
                storage: Storage::Dense,
                first,
            };
            accepted(
                parameters::read_eps(par),
                shape,
                c,
                factory,
                lesson,
                b,
                words,
                work,
                cone_work,
                log,
            )
        }
    }
}

// The answer to a problem that is turned away: no step was taken, and no row was written.
fn turned_away(ending: Ending) -> Logged
    ensures { result ≡ turned_away_by ending }
{
    Logged {
        answer: Answer {
            ending,
            steps: 0,
            rotations: 0,
        },
        written: 0,
        dropped: 0,
    }
}

// The run is over the plain words of the list. The six vectors are held apart, since two parts of one lent slice can't be lent at once.
fn accepted<'a>(
    par: SolverParam,
    shape: Shape,
    c: &[f64],
    a1: &'a [f64],
    a2: &'a [f64],
    b: &[f64],
    words: &[u16],
    work: &mut [f64],
    cone_work: &mut [f64],
    log: &mut [f64],
) -> Logged
    requires { Handed shape c.now (slices a1.now a2.now) b.now words.now par work.old cone_work.old }
    ensures { LoggedAs
        (left_logged
        (problem_in shape c.now (slices a1.now a2.now)
        b.now (plain_words words.now) par)
        work.old cone_work.old log.old)
        result work.new cone_work.new log.new }
{
    let m = shape.rows.0;
    let n = shape.cols.0;
    let nx = n + m + m + 1;
    let ny = n + m + 1;
    let mut plain = [0u16; MOST_WORDS];
    // no list that was accepted has more words
    let count = groups::flatten(words, &mut plain).unwrap();
    let needed = words::cone_work_len(&plain[..count]);
    let mut x = [0.0; LONG_X];
    let mut y = [0.0; LONG_Y];
    let mut dp_tau = [0.0; LONG_X];
    let mut dp_sigma = [0.0; LONG_Y];
    let mut rx = [0.0; LONG_X];
    let mut tx = [0.0; LONG_X];
    solving::run_in(
        par,
        shape,
        c,
        a1,
        a2,
        b,
        &plain[..count],
        &mut x[..nx],
        &mut y[..ny],
        &mut dp_tau[..nx],
        &mut dp_sigma[..ny],
        &mut rx[..nx],
        &mut tx[..nx],
        work,
        &mut cone_work[..needed],
        log,
    )
}
