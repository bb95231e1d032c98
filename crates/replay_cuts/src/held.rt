// A run cut in pieces, and held to the uncut one.
use crate::handed::Handed;
use crate::{runs, same};
use piece_rules::{PieceAnswer, RunRecord};
use replay_problems::problem::Problem;
use rules::{Answer, Ending, Logged};

// How a run is cut: once, after so many steps; into pieces of one step; the same with a piece of no step after each; or into pieces of up to 7 or up to 63
// steps, as they are drawn.
#[derive(Clone, Copy)]
pub enum Cuts {
    After(u32),
    Ones,
    OnesAndNones,
    Short,
    Long,
}

// More steps than any run takes.
const ALL: u32 = 4294967295;

// More pieces than any run is cut into.
const MOST_PIECES: u64 = 20000;

// What a run in pieces has come to: it goes on; it was answered; or a piece answered what it should not.
#[derive(Clone, Copy)]
pub enum Came {
    Open,
    Whole(Logged),
    Wrong,
}

// A run in pieces: the record by which it is taken up next, none before its first piece, the steps and the pieces that are behind, the last number drawn, and
// what it has come to.
#[derive(Clone, Copy)]
pub struct InPieces {
    pub start: Option<RunRecord>,
    pub steps: u64,
    pub pieces: u64,
    pub drawn: u64,
    pub came: Came,
}

// A run to which others are held: its problem, what all places of its buffers held before, and its answer.
#[derive(Clone, Copy)]
pub struct Uncut {
    pub handed: Handed,
    pub before: f64,
    pub log_before: f64,
    pub logged: Logged,
}

// The next number that is drawn, below 2^31.
fn draw(drawn: u64) -> u64 {
    (drawn % 2147483648 * 1103515245 + 12345) % 2147483648
}

// The steps of a piece, after so many pieces.
fn given(cuts: Cuts, pieces: u64, drawn: u64) -> u32 {
    match cuts {
        Cuts::After(steps) => if pieces == 0 { steps } else { ALL },
        Cuts::Ones => 1,
        Cuts::OnesAndNones => if pieces % 2 == 0 { 1 } else { 0 },
        Cuts::Short => (drawn / 65536 % 8) as u32,
        Cuts::Long => (drawn / 65536 % 64) as u32,
    }
}

// A refusal as a run's answer.
fn refused(ending: Ending) -> Logged {
    Logged {
        answer: Answer {
            ending,
            steps: 0,
            rotations: 0,
        },
        written: 0,
        dropped: 0,
    }
}

// Whether a record tells what was answered at its run's end.
fn is_told(record: RunRecord, logged: Logged) -> bool {
    record.ended
        && record.steps == logged.answer.steps
        && record.rotations == logged.answer.rotations
        && record.written == logged.written
        && record.dropped == logged.dropped
}

impl InPieces {
    // A run before its first piece.
    fn begun(seed: u64) -> InPieces {
        InPieces {
            start: None,
            steps: 0,
            pieces: 0,
            drawn: draw(seed),
            came: Came::Open,
        }
    }

    // A run that came to this.
    fn over(self, start: Option<RunRecord>, came: Came) -> InPieces {
        InPieces {
            start,
            pieces: self.pieces.wrapping_add(1),
            came,
            ..self
        }
    }

    // Only the first piece may be refused, a halted one has taken all of its steps, and the last one's record tells its answer.
    fn after(self, given: u32, answer: PieceAnswer) -> InPieces {
        match answer {
            PieceAnswer::Refused(ending) if self.pieces == 0 => {
                self.over(None, Came::Whole(refused(ending)))
            }
            PieceAnswer::Halted(record) => self.went_on(given, record),
            PieceAnswer::Ended(logged, record) if is_told(record, logged) => {
                self.over(Some(record), Came::Whole(logged))
            }
            _ => self.over(None, Came::Wrong),
        }
    }

    fn went_on(self, given: u32, record: RunRecord) -> InPieces {
        let steps = self.steps.wrapping_add(given as u64);
        if record.steps != steps || record.ended {
            return self.over(None, Came::Wrong);
        }
        InPieces {
            start: Some(record),
            steps,
            pieces: self.pieces.wrapping_add(1),
            drawn: draw(self.drawn),
            came: Came::Open,
        }
    }

    // One piece more.
    fn next(
        self,
        cuts: Cuts,
        problem: Problem,
        work: &mut [f64],
        cone_work: &mut [f64],
        log: &mut [f64],
    ) -> InPieces {
        let steps = given(cuts, self.pieces, self.drawn);
        let answer = runs::piece(self.start, problem, steps, work, cone_work, log);
        self.after(steps, answer)
    }
}

// All pieces of a run.
pub fn in_pieces(
    cuts: Cuts,
    seed: u64,
    problem: Problem,
    work: &mut [f64],
    cone_work: &mut [f64],
    log: &mut [f64],
) -> InPieces {
    let mut run = InPieces::begun(seed);
    for _ in 0..MOST_PIECES {
        if !matches!(run.came, Came::Open) {
            return run;
        }
        run = run.next(cuts, problem, work, cone_work, log);
    }
    run
}

// Whether a run that was answered can't be taken up again: its record is stale, and all is kept.
fn is_stale(
    start: Option<RunRecord>,
    problem: Problem,
    work: &mut [f64],
    cone_work: &mut [f64],
    log: &mut [f64],
) -> bool {
    let answer = runs::piece(start, problem, 1, work, cone_work, log);
    matches!(answer, PieceAnswer::StaleRun | PieceAnswer::Refused(_))
}

// Every place of the buffers holds what it held before.
fn refill(before: f64, log_before: f64, work: &mut [f64], cone_work: &mut [f64], log: &mut [f64]) {
    work.fill(before);
    cone_work.fill(before);
    log.fill(log_before);
}

// The uncut run, from buffers that hold what they held before.
pub fn run_uncut(
    problem: Problem,
    before: f64,
    log_before: f64,
    work: &mut [f64],
    cone_work: &mut [f64],
    log: &mut [f64],
) -> Logged {
    refill(before, log_before, work, cone_work, log);
    problem.solve_logged(work, cone_work, log)
}

// Whether a run in pieces was answered as the uncut one.
fn is_answered(run: InPieces, uncut: Uncut) -> bool {
    match run.came {
        Came::Whole(logged) => same::same_answer(logged, uncut.logged),
        Came::Open | Came::Wrong => false,
    }
}

// Has a run in pieces and holds it to the uncut one, which left the buffers so: the number of its pieces, or none where it differs.
pub fn held(
    cuts: Cuts,
    seed: u64,
    uncut: Uncut,
    numbers: &[f64],
    words: &[u16],
    left: &[f64],
    work: &mut [f64],
    cone_work: &mut [f64],
    log: &mut [f64],
) -> Option<u64> {
    refill(uncut.before, uncut.log_before, work, cone_work, log);
    let problem = uncut.handed.problem(numbers, words);
    let run = in_pieces(cuts, seed, problem, work, cone_work, log);
    let answered = is_answered(run, uncut);
    let stale = is_stale(run.start, problem, work, cone_work, log);
    let left_so = same::are_left(left, work, cone_work, log);
    (answered && stale && left_so).then_some(run.pieces)
}
