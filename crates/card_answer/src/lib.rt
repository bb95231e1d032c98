// What becomes of a card: its problem is solved.
#![tactic(auto)]

ghost use Rattle.std.specs.Prelude.{◌≤◌};
ghost use Rattle.card_problem.specs.Problem.{problem_from};
ghost use Rattle.card_answer.specs.Answer.{CardOutcome, CardLogOutcome, RunOutcome};

use card::{CardHead, Fault, MOST_NUMBERS, MOST_WORDS};
pub use card_problem::Told;
use card_problem::{LONG, numbers_from};
use rules::{Answer, Logged};

// Enough cone work for any block of a card.
pub const CONE_WORK: usize = 56;

// Enough work for any card.
pub const WORK: usize = 518;

// Solves the problem of a card's head and lists, with a progress record.
fn solve_head(
    head: CardHead,
    words: &[u16],
    numbers: &[u64],
    period: u32,
    work: &mut [f64],
    log: &mut [f64],
) -> Logged
    requires rows_bound { head.rows.0 ≤ 32 }
    requires cols_bound { head.cols.0 ≤ 32 }
    ensures { RunOutcome (problem_from head words.now numbers.now) period work.old log.old
        result work.new log.new }
{
    let m = head.rows.0;
    let n = head.cols.0;
    let stored = card::stored(head.storage, head.rows, head.cols);
    let c = numbers_from::<32>(numbers, 3);
    let a = numbers_from::<LONG>(numbers, 3 + n);
    let b = numbers_from::<32>(numbers, 3 + n + stored);
    let par = card_problem::parameters(numbers, head.max_iter, head.sweep_limit);
    let mut cone_work = [0.0; CONE_WORK];
    solver::solve_logged(
        par.with_log_period(period),
        head.rows,
        head.cols,
        head.storage,
        &c[..n],
        &a[..stored],
        &b[..m],
        words,
        work,
        &mut cone_work,
        log,
    )
}

// Reads a card and solves its problem in the work that is lent.
pub fn answer(bytes: &[u8], work: &mut [f64]) -> Result<Told<Answer>, Fault>
    ensures { CardOutcome bytes.now work.old result work.new }
{
    let mut none = [0.0; 0];
    let told = logged_answer(bytes, 0, work, &mut none)?;
    Ok(Told {
        rows: told.rows,
        cols: told.cols,
        answer: told.answer.answer,
    })
}

// The same with this log_period and a progress record.
pub fn logged_answer(
    bytes: &[u8],
    period: u32,
    work: &mut [f64],
    log: &mut [f64],
) -> Result<Told<Logged>, Fault>
    ensures { CardLogOutcome bytes.now period work.old log.old
        result work.new log.new }
{
    let mut words = [0u16; MOST_WORDS];
    let mut numbers = [0u64; MOST_NUMBERS];
    let head = card::read_card(bytes, &mut words, &mut numbers)?;
    let logged = solve_head(head, &words[..head.words], &numbers, period, work, log);
    Ok(Told {
        rows: head.rows,
        cols: head.cols,
        answer: logged,
    })
}
