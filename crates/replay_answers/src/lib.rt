// What a run answered and left, held to the list. From the answer's place on a record holds: its number,
// k, q, three words of what the ending carries, the required places of work and of cone work, and then
// what these places hold.
#![tactic(auto)]

ghost use Rattle.std.specs.Prelude.{◌+◌, ◌^◌, ◌<◌, true, ◌≡◌};
ghost use Rattle.rules.specs.Outcome.{on_paper};
ghost use Rattle.rules.specs.Run.{solution_y};
ghost use Rattle.replay_answers.specs.Numbers.{number_in_lists};
ghost use Rattle.replay_answers.specs.Held.{carried, is_told, ends_after, is_left, is_logged};

use replay::record;
use rules::{Cols, Ending, Rows};

// The number of an answer whose places of work are left out, since all are +0.
const CONE_FAILURE: u64 = 12;

// The number of an answer in the lists: document 01's of a refusal, then those of a run.
pub fn number_of(ending: Ending) -> u64
    ensures { result ≡ number_in_lists ending }
{
    match ending {
        Ending::BadParam => 1,
        Ending::TooLarge => 2,
        Ending::InvalidOp => 3,
        Ending::BadCone => 4,
        Ending::NotFinite => 5,
        Ending::WorkShortage => 6,
        Ending::Converged(_, _, _) => 7,
        Ending::ExcessIter(_, _, _) => 8,
        Ending::ExcessIterUnscaled(_, _) => 9,
        Ending::Unbounded(_) => 10,
        Ending::Infeasible(_) => 11,
        Ending::ConeFailure(_) => 12,
    }
}

// Whether this is the record's ending, k and q.
#[tactic(auto, using(crate::proofs::Held::told_past), unfolding(crate::specs::Held::is_told))]
pub fn is_told(record: &[u8], at: usize, ending: Ending, steps: u64, rotations: u64) -> bool
    ensures { result ≡ is_told «record».now at ending steps rotations }
{
    // Past the end stands 0, which is no answer's number.
    at < record::words(record)
        && number_of(ending) == record::word(record, at)
        && record::word(record, at + 1) == steps
        && record::word(record, at + 2) == rotations
        && is_carried(record, at + 3, ending)
}

// Whether the ending carries what the three words from a place on say; where there are fewer, 0.
fn is_carried(record: &[u8], at: usize, ending: Ending) -> bool
    ensures { result ≡ carried «record».now at (on_paper ending) }
{
    match ending {
        Ending::Converged(primal, dual, gap) | Ending::ExcessIter(primal, dual, gap) => {
            record::holds(record, at, &[primal, dual, gap])
        }
        Ending::ExcessIterUnscaled(unbounded, infeasible) => {
            record::holds(record, at, &[unbounded, infeasible, 0.0])
        }
        Ending::Unbounded(criterion) | Ending::Infeasible(criterion) => {
            record::holds(record, at, &[criterion, 0.0, 0.0])
        }
        Ending::ConeFailure(block) => record::size(record, at) == block,
        Ending::BadParam
        | Ending::TooLarge
        | Ending::InvalidOp
        | Ending::BadCone
        | Ending::NotFinite
        | Ending::WorkShortage => record::holds(record, at, &[0.0, 0.0, 0.0]),
    }
}

// Whether both buffers are left as the record says: their required places, and all others as before.
// Past the record's end stands +0, as in the places that it leaves out.
#[tactic(auto, using(crate::proofs::Held::left_past, replay::proofs::Records::before_fits), unfolding(crate::specs::Held::is_left))]
pub fn is_left(record: &[u8], at: usize, before: u64, work: &[f64], cone_work: &[f64]) -> bool
    ensures { result ≡ is_left «record».now at before work.now cone_work.now }
{
    if at >= record::words(record) {
        return false;
    }
    let work_used = record::size(record, at + 6);
    let cone_used = record::size(record, at + 7);
    record::holds_before(record, at + 8, work, work_used, before)
        && record::holds_before(record, at + 8 + work_used, cone_work, cone_used, before)
        && is_end(record, at, work_used, cone_used)
}

// Whether the record ends where it should: after the last place, or before the first if all are +0.
fn is_end(record: &[u8], at: usize, work_used: usize, cone_used: usize) -> bool
    requires { at + 8 + work_used + cone_used < 2 ^ 64 }
    ensures { result ≡ ends_after «record».now at work_used cone_used }
{
    let end = if record::word(record, at) == CONE_FAILURE {
        at + 8
    } else {
        at + 8 + work_used + cone_used
    };
    record::words(record) == end
}

// Whether a log is left, and its rows counted, as the words say that a record has after those of the run: the period, the log's places, what each of
// them held before, the rows written and dropped, and then the rows. All places after the rows are as before.
#[tactic(auto, using(replay::proofs::Records::before_short), unfolding(crate::specs::Held::is_logged))]
pub fn is_logged(words: &[u8], written: u64, dropped: u64, log: &[f64]) -> bool
    ensures { result ≡ is_logged words.now written dropped log.now }
{
    let rows = written as usize;
    let before = patterns::pattern_of(record::number(words, 2));
    record::word(words, 3) == written
        && record::word(words, 4) == dropped
        && rows <= log.len() / 4
        && record::holds_before(words, 5, log, 4 * rows, before)
        && record::words(words) == 5 + 4 * rows
}

// Whether x and y are handed back as the first places of work and the next, or none where work is too
// short. What solution_x and solution_y promise makes it so.
#[tactic(auto, using(crate::proofs::Held::first_part, patterns::proofs::Same::bits_themselves))]
pub fn has_parts(work: &[f64], rows: Rows, cols: Cols) -> bool
    ensures { result ≡ true }
{
    patterns::same_bits(solution::solution_x(work, cols), part(work, 0, cols.0))
        && patterns::same_bits(
            solution::solution_y(work, rows, cols),
            part(work, cols.0, rows.0),
        )
}

// So many places of the whole from one on, or none where it is too short.
#[tactic(auto, unfolding(rules::specs::Run::solution_y))]
fn part(whole: &[f64], start: usize, places: usize) -> &[f64]
    ensures { result.now ≡ solution_y places start whole.now }
{
    whole
        .get(start..)
        .and_then(|rest| rest.get(..places))
        .unwrap_or(&[])
}
