// When a later piece of a run is turned away: the six tests of a run, in order, and then whether its record is stale.
#![tactic(auto)]

mod pairs;
mod stale;

ghost use Rattle.std.specs.Prelude.{◌≤◌, ◌≡◌, length};
ghost use Rattle.rules.specs.Limits.{most_words};
ghost use Rattle.rules.specs.Groups.{plain_words};
ghost use Rattle.rules.specs.Problem.{problem_of, as_read};
ghost use Rattle.rules.specs.Refusals.{Accepted};
ghost use Rattle.rules.specs.Split.{split_of};
ghost use Rattle.piece_rules.specs.Pieces.{stale_run, later_refusal, later_split_refusal};
ghost use Rattle.later_check.specs.Parts.{listed, after_tests, by_record};

use piece_rules::{LaterRefusal, RunLengths, RunRecord};
use rules::{Cols, Ending, Rows, SolverParam, Storage};

// The first of the seven tests that applies. The buffers are of these lengths.
pub fn check_later(
    record: RunRecord,
    par: SolverParam,
    rows: Rows,
    cols: Cols,
    storage: Storage,
    c: &[f64],
    a: &[f64],
    b: &[f64],
    words: &[u16],
    work: usize,
    cone_work: usize,
    log: usize,
) -> Result<(), LaterRefusal>
    ensures { result
        ≡ later_refusal «record»
        (problem_of rows.0 cols.0 storage c.now a.now b.now
        words.now par)
        work cone_work log }
{
    let tested = checks::check(par, rows, cols, storage, c, a, b, words, work, cone_work);
    let lengths = RunLengths {
        cols: cols.0,
        rows: rows.0,
        words: words.len(),
        work,
        cone_work,
        log,
    };
    then_stale(tested, record, par, lengths, words)
}

// The first of the seven that applies to a problem whose dense A stands in two slices.
pub fn check_later_split(
    record: RunRecord,
    par: SolverParam,
    rows: Rows,
    cols: Cols,
    first: Cols,
    c: &[f64],
    factory: &[f64],
    lesson: &[f64],
    b: &[f64],
    words: &[u16],
    work: usize,
    cone_work: usize,
    log: usize,
) -> Result<(), LaterRefusal>
    ensures { result
        ≡ later_split_refusal «record»
        (split_of rows.0 cols.0 first.0 c.now factory.now lesson.now
        b.now words.now par)
        work cone_work log }
{
    let tested = checks::check_split(
        par, rows, cols, first, c, factory, lesson, b, words, work, cone_work,
    );
    let lengths = RunLengths {
        cols: cols.0,
        rows: rows.0,
        words: words.len(),
        work,
        cone_work,
        log,
    };
    then_stale(tested, record, par, lengths, words)
}

// What the six tests say, and then the seventh.
fn then_stale(
    tested: Result<(), Ending>,
    record: RunRecord,
    par: SolverParam,
    lengths: RunLengths,
    words: &[u16],
) -> Result<(), LaterRefusal>
    requires { tested ≡ Accepted → length words.now ≤ most_words }
    ensures { result
        ≡ after_tests tested
        (by_record (stale_run «record» lengths (listed (plain_words words.now) (as_read par)))) }
{
    tested.map_err(LaterRefusal::Refused)?;
    if stale::is_stale(record, parameters::read_eps(par), lengths, words) {
        Err(LaterRefusal::StaleRun)
    } else {
        Ok(())
    }
}
