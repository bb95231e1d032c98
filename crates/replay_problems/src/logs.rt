// The words of a progress record, which follow those of a run: the period, the log's places, what each of them holds before, the rows written and
// the rows dropped, and then the rows.
ghost use Rattle.std.specs.Prelude.{◌≡◌};
ghost use Rattle.replay.specs.Records.{word_of, number_of};
ghost use Rattle.replay_problems.specs.Logs.{period_of};

use crate::room::Vectors;
use replay::record;

// The number of an answer after which both buffers are left out of a record, since all their places are +0.
const CONE_FAILURE: u64 = 12;

// The period; what is too large for one counts as none.
#[tactic(auto, unfolding(crate::specs::Logs::period_of))]
pub fn period(log: &[u8]) -> u32
    ensures { result ≡ period_of log.now }
{
    u32::try_from(record::word(log, 0)).unwrap_or(0)
}

// How many places are lent.
pub fn places(log: &[u8]) -> usize
    ensures { result ≡ word_of log.now 1 }
{
    record::size(log, 1)
}

// What each of them holds before.
pub fn before(log: &[u8]) -> f64
    ensures { result ≡ number_of log.now 2 }
{
    record::number(log, 2)
}

// The rows written, and the rows dropped.
pub fn written(log: &[u8]) -> u64
    ensures { result ≡ word_of log.now 3 }
{
    record::word(log, 3)
}

pub fn dropped(log: &[u8]) -> u64
    ensures { result ≡ word_of log.now 4 }
{
    record::word(log, 4)
}

// How many words of a record are the run's: those up to the end of its answer.
pub fn run_words(record: &[u8]) -> usize {
    let answer_at = answer_at(record);
    let left_at = answer_at.wrapping_add(8);
    if record::word(record, answer_at) == CONE_FAILURE {
        return left_at;
    }
    let work = record::size(record, answer_at.wrapping_add(6));
    let cone_work = record::size(record, answer_at.wrapping_add(7));
    left_at.wrapping_add(work.wrapping_add(cone_work))
}

// Where a record's answer starts: after the problem and what is lent.
pub fn answer_at(record: &[u8]) -> usize {
    Vectors::of(record).after().wrapping_add(3)
}
