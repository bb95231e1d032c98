// The entry points, which check for themselves.
ghost use Rattle.rules.specs.Problem.{problem_of};
ghost use Rattle.piece_rules.specs.Pieces.{PieceAs, first_piece, later_piece};

use crate::taking;
use piece_rules::{LaterRefusal, PieceAnswer, RunRecord};
use rules::{Cols, Rows, Shape, SolverParam, Storage};

// The first piece of a run, of at most so many steps, or a refusal. The buffers are cleared and prepared as for a run; with 0 steps that is all. Like a run it has
// six vectors on the stack, 16 * LIMIT + 6 numbers.
pub fn first_piece(
    par: SolverParam,
    rows: Rows,
    cols: Cols,
    storage: Storage,
    c: &[f64],
    a: &[f64],
    b: &[f64],
    words: &[u16],
    given: u32,
    work: &mut [f64],
    cone_work: &mut [f64],
    log: &mut [f64],
) -> PieceAnswer
    ensures { PieceAs
        (first_piece
        (problem_of rows.0 cols.0 storage c.now a.now b.now
        words.now par)
        given work.old cone_work.old log.old)
        result work.new cone_work.new log.new }
{
    let checked = checks::check(
        par,
        rows,
        cols,
        storage,
        c,
        a,
        b,
        words,
        work.len(),
        cone_work.len(),
    );
    match checked {
        Err(ending) => PieceAnswer::Refused(ending),
        Ok(()) => {
            let shape = Shape {
                rows,
                cols,
                storage,
                first: cols,
            };
            taking::taken(
                None,
                parameters::read_eps(par),
                shape,
                c,
                a,
                &a[..0],
                b,
                words,
                given,
                work,
                cone_work,
                log,
            )
        }
    }
}

// A later piece, taken up from the record and the buffers that the one before it left, or a refusal: of the six of a run, and then StaleRun, where the record is
// not of this run or has no step left. With 0 steps nothing is changed.
pub fn later_piece(
    record: RunRecord,
    par: SolverParam,
    rows: Rows,
    cols: Cols,
    storage: Storage,
    c: &[f64],
    a: &[f64],
    b: &[f64],
    words: &[u16],
    given: u32,
    work: &mut [f64],
    cone_work: &mut [f64],
    log: &mut [f64],
) -> PieceAnswer
    ensures { PieceAs
        (later_piece
        (problem_of rows.0 cols.0 storage c.now a.now b.now
        words.now par)
        given work.old cone_work.old log.old «record»)
        result work.new cone_work.new log.new }
{
    let checked = later_check::check_later(
        record,
        par,
        rows,
        cols,
        storage,
        c,
        a,
        b,
        words,
        work.len(),
        cone_work.len(),
        log.len(),
    );
    match checked {
        Err(refusal) => match refusal {
            LaterRefusal::Refused(ending) => PieceAnswer::Refused(ending),
            LaterRefusal::StaleRun => PieceAnswer::StaleRun,
        },
        Ok(()) => {
            let shape = Shape {
                rows,
                cols,
                storage,
                first: cols,
            };
            taking::taken(
                Some(record),
                parameters::read_eps(par),
                shape,
                c,
                a,
                &a[..0],
                b,
                words,
                given,
                work,
                cone_work,
                log,
            )
        }
    }
}
