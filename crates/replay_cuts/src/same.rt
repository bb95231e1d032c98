// Whether two runs came to the same: answers and buffers, bit for bit. Every NaN is one pattern.
ghost use Rattle.std.specs.Prelude.{◌≡◌};
ghost use Rattle.replay_cuts.specs.Same.{same_words, carried_by, counts_of, same_answer, are_left};

use patterns::{pattern_of, same_bits};
use rules::{Ending, Logged};

// Whether two lists have the same words.
pub fn same_words(one: &[u64], other: &[u64]) -> bool
    ensures { result ≡ same_words one.now other.now }
{
    one == other
}

// What an ending carries, as three words.
fn carried(ending: Ending) -> [u64; 3]
    ensures { result ≡ carried_by ending }
{
    match ending {
        Ending::Converged(primal, dual, gap) | Ending::ExcessIter(primal, dual, gap) => {
            [pattern_of(primal), pattern_of(dual), pattern_of(gap)]
        }
        Ending::ExcessIterUnscaled(unbounded, infeasible) => {
            [pattern_of(unbounded), pattern_of(infeasible), 0]
        }
        Ending::Unbounded(criterion) | Ending::Infeasible(criterion) => {
            [pattern_of(criterion), 0, 0]
        }
        Ending::ConeFailure(block) => [block as u64, 0, 0],
        Ending::BadParam
        | Ending::TooLarge
        | Ending::InvalidOp
        | Ending::BadCone
        | Ending::NotFinite
        | Ending::WorkShortage => [0, 0, 0],
    }
}

// Number, k, q, and the rows written and dropped.
fn counts(logged: Logged) -> [u64; 5]
    ensures { result ≡ counts_of logged }
{
    [
        replay_answers::number_of(logged.answer.ending),
        logged.answer.steps,
        logged.answer.rotations,
        logged.written,
        logged.dropped,
    ]
}

// Whether two runs answer the same: the ending with its criteria, k, q and rows.
#[tactic(auto, unfolding(crate::specs::Same::same_answer))]
pub fn same_answer(one: Logged, other: Logged) -> bool
    ensures { result ≡ same_answer one other }
{
    same_words(&counts(one), &counts(other))
        && same_words(&carried(one.answer.ending), &carried(other.answer.ending))
}

// Whether three buffers are those that were left, which stand in one list, one after another.
#[tactic(auto, unfolding(crate::specs::Same::are_left))]
pub fn are_left(left: &[f64], work: &[f64], cone_work: &[f64], log: &[f64]) -> bool
    ensures { result ≡ are_left left.now work.now cone_work.now log.now }
{
    let work_end = work.len();
    if work_end > left.len() || cone_work.len() > left.len() - work_end {
        return false;
    }
    let cone_end = work_end + cone_work.len();
    same_bits(work, &left[..work_end])
        && same_bits(cone_work, &left[work_end..cone_end])
        && same_bits(log, &left[cone_end..])
}

// Lays three buffers into one list, one after another: whether they fill it.
pub fn keep(work: &[f64], cone_work: &[f64], log: &[f64], left: &mut [f64]) -> bool {
    let work_end = work.len();
    if work_end > left.len() || cone_work.len() > left.len() - work_end {
        return false;
    }
    let cone_end = work_end + cone_work.len();
    if log.len() != left.len() - cone_end {
        return false;
    }
    left[..work_end].copy_from_slice(work);
    left[work_end..cone_end].copy_from_slice(cone_work);
    left[cone_end..].copy_from_slice(log);
    true
}
