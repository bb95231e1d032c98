// A piece of a card's run.
#![tactic(auto)]

ghost use Rattle.std.specs.Prelude.{◌≤◌};
ghost use Rattle.rules.specs.Problem.{problem_of};
ghost use Rattle.card_problem.specs.Problem.{problem_from};
ghost use Rattle.card_pieces.specs.CardPieces.{first_of, later_of, piece_by, PieceOutcome, CardPieceOutcome};

use card::{CardHead, Fault, MOST_NUMBERS, MOST_WORDS};
pub use card_problem::Told;
use card_problem::{LONG, numbers_from};
use piece_rules::{PieceAnswer, RunRecord};
use rules::{Cols, Rows, SolverParam, Storage};

// The piece of a problem, without a progress record: a later one of a run that has this record, or else the first.
fn piece_of(
    run: Option<RunRecord>,
    par: SolverParam,
    rows: Rows,
    cols: Cols,
    storage: Storage,
    c: &[f64],
    a: &[f64],
    b: &[f64],
    words: &[u16],
    given: u32,
    work: &mut [f64],
    cone_work: &mut [f64],
) -> PieceAnswer
    ensures { PieceOutcome
        (piece_by run given work.old cone_work.old
        (problem_of rows.0 cols.0 storage c.now a.now b.now
        words.now par))
        result work.new cone_work.new }
{
    let mut none = [0.0; 0];
    match run {
        None => {
            pieces::first_piece(
                par, rows, cols, storage, c, a, b, words, given, work, cone_work, &mut none,
            )
        }
        Some(record) => {
            pieces::later_piece(
                record, par, rows, cols, storage, c, a, b, words, given, work, cone_work, &mut none,
            )
        }
    }
}

// The piece of the problem of a card's head and lists.
fn piece_of_head(
    run: Option<RunRecord>,
    head: CardHead,
    words: &[u16],
    numbers: &[u64],
    given: u32,
    work: &mut [f64],
    cone_work: &mut [f64],
) -> PieceAnswer
    requires rows_bound { head.rows.0 ≤ 32 }
    requires cols_bound { head.cols.0 ≤ 32 }
    ensures { PieceOutcome
        (piece_by run given work.old cone_work.old (problem_from head words.now numbers.now))
        result work.new cone_work.new }
{
    let m = head.rows.0;
    let n = head.cols.0;
    let stored = card::stored(head.storage, head.rows, head.cols);
    let c = numbers_from::<32>(numbers, 3);
    let a = numbers_from::<LONG>(numbers, 3 + n);
    let b = numbers_from::<32>(numbers, 3 + n + stored);
    piece_of(
        run,
        card_problem::parameters(numbers, head.max_iter, head.sweep_limit),
        head.rows,
        head.cols,
        head.storage,
        &c[..n],
        &a[..stored],
        &b[..m],
        words,
        given,
        work,
        cone_work,
    )
}

// Reads a card and takes a piece of its run, in the buffers that are lent.
fn piece_of_card(
    run: Option<RunRecord>,
    bytes: &[u8],
    given: u32,
    work: &mut [f64],
    cone_work: &mut [f64],
) -> Result<Told<PieceAnswer>, Fault>
    ensures { CardPieceOutcome bytes.now (piece_by run given work.old cone_work.old)
        work.old cone_work.old
        result work.new cone_work.new }
{
    let mut words = [0u16; MOST_WORDS];
    let mut numbers = [0u64; MOST_NUMBERS];
    let head = card::read_card(bytes, &mut words, &mut numbers)?;
    let answer = piece_of_head(
        run,
        head,
        &words[..head.words],
        &numbers,
        given,
        work,
        cone_work,
    );
    Ok(Told {
        rows: head.rows,
        cols: head.cols,
        answer,
    })
}

// The first piece of a card's run, of so many steps at most.
pub fn first_of_card(
    bytes: &[u8],
    given: u32,
    work: &mut [f64],
    cone_work: &mut [f64],
) -> Result<Told<PieceAnswer>, Fault>
    ensures { CardPieceOutcome bytes.now (first_of given work.old cone_work.old)
        work.old cone_work.old
        result work.new cone_work.new }
{
    piece_of_card(None, bytes, given, work, cone_work)
}

// A later piece of it, taken up from its record and the same buffers.
pub fn later_of_card(
    bytes: &[u8],
    record: RunRecord,
    given: u32,
    work: &mut [f64],
    cone_work: &mut [f64],
) -> Result<Told<PieceAnswer>, Fault>
    ensures { CardPieceOutcome bytes.now (later_of «record» given work.old cone_work.old)
        work.old cone_work.old
        result work.new cone_work.new }
{
    piece_of_card(Some(record), bytes, given, work, cone_work)
}
