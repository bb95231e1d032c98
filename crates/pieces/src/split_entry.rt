// The entry points for a dense A in two slices, the first columns in one and the rest in the other; they check for themselves.
ghost use Rattle.rules.specs.Split.{split_of};
ghost use Rattle.piece_rules.specs.Pieces.{PieceAs, first_split_piece, later_split_piece};

use crate::taking;
use piece_rules::{LaterRefusal, PieceAnswer, RunRecord};
use rules::{Cols, Rows, Shape, SolverParam, Storage};

// The first piece of a run whose dense A stands in two slices.
pub fn first_split_piece<'a>(
    par: SolverParam,
    rows: Rows,
    cols: Cols,
    first: Cols,
    c: &[f64],
    factory: &'a [f64],
    lesson: &'a [f64],
    b: &[f64],
    words: &[u16],
    given: u32,
    work: &mut [f64],
    cone_work: &mut [f64],
    log: &mut [f64],
) -> PieceAnswer
    ensures { PieceAs
        (first_split_piece
        (split_of rows.0 cols.0 first.0 c.now factory.now lesson.now
        b.now words.now par)
        given work.old cone_work.old log.old)
        result work.new cone_work.new log.new }
{
    let checked = checks::check_split(
        par,
        rows,
        cols,
        first,
        c,
        factory,
        lesson,
        b,
        words,
        work.len(),
        cone_work.len(),
    );
    match checked {
        Err(ending) => PieceAnswer::Refused(ending),
        Ok(()) => {
            let shape = Shape {
                rows,
                cols,
                storage: Storage::Dense,
                first,
            };
            taking::taken(
                None,
                parameters::read_eps(par),
                shape,
                c,
                factory,
                lesson,
                b,
                words,
                given,
                work,
                cone_work,
                log,
            )
        }
    }
}

// A later piece of it.
pub fn later_split_piece<'a>(
    record: RunRecord,
    par: SolverParam,
    rows: Rows,
    cols: Cols,
    first: Cols,
    c: &[f64],
    factory: &'a [f64],
    lesson: &'a [f64],
    b: &[f64],
    words: &[u16],
    given: u32,
    work: &mut [f64],
    cone_work: &mut [f64],
    log: &mut [f64],
) -> PieceAnswer
    ensures { PieceAs
        (later_split_piece
        (split_of rows.0 cols.0 first.0 c.now factory.now lesson.now
        b.now words.now par)
        given work.old cone_work.old log.old «record»)
        result work.new cone_work.new log.new }
{
    let checked = later_check::check_later_split(
        record,
        par,
        rows,
        cols,
        first,
        c,
        factory,
        lesson,
        b,
        words,
        work.len(),
        cone_work.len(),
        log.len(),
    );
    match checked {
        Err(refusal) => match refusal {
            LaterRefusal::Refused(ending) => PieceAnswer::Refused(ending),
            LaterRefusal::StaleRun => PieceAnswer::StaleRun,
        },
        Ok(()) => {
            let shape = Shape {
                rows,
                cols,
                storage: Storage::Dense,
                first,
            };
            taking::taken(
                Some(record),
                parameters::read_eps(par),
                shape,
                c,
                factory,
                lesson,
                b,
                words,
                given,
                work,
                cone_work,
                log,
            )
        }
    }
}
