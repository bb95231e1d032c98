// A run's record as 21 words of 64 bits, its numbers as their patterns: the writer and the reader.
#![tactic(auto)]

ghost use Rattle.std.specs.Prelude.{◌<◌, ◌≤◌, ◌≡◌, cond, ◌++◌, length, drop, get_or};
ghost use Rattle.run_record.specs.Record.{record_words, is_pattern, are_patterns, is_record, parameters_in, record_of, record_in, WriteRecordOutcome};

use piece_rules::{RunLengths, RunRecord};
use rules::{Norms, SolverParam};

// How many words a record has.
pub const RECORD_WORDS: usize = 21;

// The words of a record.
#[tactic(auto, unfolding(crate::specs::Record::record_words))]
fn words_of(record: RunRecord) -> [u64; RECORD_WORDS]
    ensures { result ≡ record_words «record» }
{
    let lengths = record.lengths;
    let par = record.par;
    let norms = record.norms;
    [
        lengths.cols as u64,
        lengths.rows as u64,
        lengths.words as u64,
        lengths.work as u64,
        lengths.cone_work as u64,
        lengths.log as u64,
        par.max_iter,
        patterns::pattern_of(par.eps_acc),
        patterns::pattern_of(par.eps_inf),
        patterns::pattern_of(par.eps_zero),
        par.sweep_limit,
        par.log_period as u64,
        par.edition as u64,
        patterns::pattern_of(norms.b),
        patterns::pattern_of(norms.c),
        patterns::pattern_of(record.tau),
        record.steps,
        record.rotations,
        record.written,
        record.dropped,
        u64::from(record.ended),
    ]
}

// Writes a record into the first 21 words. It answers a plain no, and changes nothing, where there
// are fewer.
pub fn write_record(record: RunRecord, words: &mut [u64]) -> bool
    ensures { WriteRecordOutcome «record» words.old result words.new }
{
    if words.len() < RECORD_WORDS {
        return false;
    }
    let from = words_of(record);
    words[..RECORD_WORDS].copy_from_slice(&from);
    true
}

// Whether a word is a number's pattern. A NaN's is 7ff8000000000000 and no other.
#[tactic(auto, using(rules::proofs::Helpers::equals_itself), unfolding(crate::specs::Record::is_pattern))]
fn is_pattern(word: u64) -> bool
    ensures { result ≡ is_pattern word }
{
    let number = patterns::number_of(word);
    number == number || word == 9221120237041090560
}

// Whether all words are patterns that are to be.
#[tactic(auto, unfolding(crate::specs::Record::are_patterns))]
fn are_patterns(words: &[u64]) -> bool
    requires { 21 ≤ length words.now }
    ensures { result ≡ are_patterns words.now }
{
    is_pattern(words[7])
        && is_pattern(words[8])
        && is_pattern(words[9])
        && is_pattern(words[13])
        && is_pattern(words[14])
        && is_pattern(words[15])
}

// Whether the first 21 words are those of a record.
#[tactic(auto, unfolding(crate::specs::Record::is_record))]
fn is_record(words: &[u64]) -> bool
    ensures { result ≡ is_record words.now }
{
    words.len() >= RECORD_WORDS
        && words[11] < 4294967296
        && words[12] < 4294967296
        && words[20] < 2
        && are_patterns(words)
}

// The parameters that words say.
#[tactic(auto, unfolding(crate::specs::Record::parameters_in))]
fn parameters_in(words: &[u64]) -> SolverParam
    requires in_bounds { 21 ≤ length words.now }
    requires words_bound { get_or words.now 11 0 < 4294967296 }
    requires words_bound_2 { get_or words.now 12 0 < 4294967296 }
    ensures { result ≡ parameters_in words.now }
{
    SolverParam::of(
        words[6],
        patterns::number_of(words[7]),
        patterns::number_of(words[8]),
        patterns::number_of(words[9]),
        words[10],
    )
    .with_log_period(words[11] as u32)
    .with_edition(words[12] as u32)
}

// The record that words say.
#[tactic(auto, unfolding(crate::specs::Record::record_of))]
fn record_of(words: &[u64]) -> RunRecord
    requires in_bounds { 21 ≤ length words.now }
    requires words_bound { get_or words.now 11 0 < 4294967296 }
    requires words_bound_2 { get_or words.now 12 0 < 4294967296 }
    ensures { result ≡ record_of words.now }
{
    let lengths = RunLengths {
        cols: words[0] as usize,
        rows: words[1] as usize,
        words: words[2] as usize,
        work: words[3] as usize,
        cone_work: words[4] as usize,
        log: words[5] as usize,
    };
    let par = parameters_in(words);
    let norms = Norms {
        b: patterns::number_of(words[13]),
        c: patterns::number_of(words[14]),
    };
    RunRecord {
        lengths,
        par,
        norms,
        tau: patterns::number_of(words[15]),
        steps: words[16],
        rotations: words[17],
        written: words[18],
        dropped: words[19],
        ended: words[20] == 1,
    }
}

// Reads the record of the first 21 words; none where no record is written so.
#[tactic(auto, using(crate::proofs::Tests::passed), unfolding(crate::specs::Record::record_in))]
pub fn read_record(words: &[u64]) -> Option<RunRecord>
    ensures { result ≡ record_in words.now }
{
    if !is_record(words) {
        return None;
    }
    Some(record_of(words))
}
