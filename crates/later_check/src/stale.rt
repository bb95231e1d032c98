// Whether the record of a run is stale.
ghost use Rattle.std.specs.Prelude.{◌+◌, ◌*◌, ◌≤◌, ◌≡◌, leb, ltb, length};
ghost use Rattle.rules.specs.Limits.{most_words};
ghost use Rattle.rules.specs.Groups.{plain_words};
ghost use Rattle.rules.specs.Run.{allowance};
ghost use Rattle.piece_rules.specs.Pieces.{same_bits, same_lengths, same_param, stale_run};
ghost use Rattle.later_check.specs.Parts.{listed};

use crate::pairs::pairs_twice;
use parameters::read_eps;
use patterns::pattern_of;
use piece_rules::{RunLengths, RunRecord};
use rules::{MOST_WORDS, SolverParam};

// Of a run with these parameters, as they are read, these lengths and this list.
pub(crate) fn is_stale(
    record: RunRecord,
    par: SolverParam,
    lengths: RunLengths,
    words: &[u16],
) -> bool
    requires { length words.now ≤ most_words }
    ensures { result ≡ stale_run «record» lengths (listed (plain_words words.now) par) }
{
    let mut plain = [0u16; MOST_WORDS];
    // the list is short enough
    let count = groups::flatten(words, &mut plain).unwrap();
    is_stale_by(record, par, lengths, &plain[..count])
}

// The same over the plain words of the list.
#[tactic(auto, unfolding(piece_rules::specs::Pieces::stale_run))]
fn is_stale_by(record: RunRecord, par: SolverParam, lengths: RunLengths, words: &[u16]) -> bool
    requires { length words.now ≤ most_words }
    ensures { result ≡ stale_run «record» lengths (listed words.now par) }
{
    let k = record.steps;
    let q = record.rotations;
    !same_lengths(record.lengths, lengths)
        || !same_param(read_eps(record.par), par)
        || is_spent(par, k)
        || is_above(q, k, par.sweep_limit, pairs_twice(words))
        || has_more_rows(k, record.written, record.dropped)
        || record.ended
}

#[tactic(auto, unfolding(piece_rules::specs::Pieces::same_lengths))]
fn same_lengths(one: RunLengths, other: RunLengths) -> bool
    ensures { result ≡ same_lengths one other }
{
    one.cols == other.cols
        && one.rows == other.rows
        && one.words == other.words
        && one.work == other.work
        && one.cone_work == other.cone_work
        && one.log == other.log
}

// Tolerances are compared by their bits.
fn same_bits(one: f64, other: f64) -> bool
    ensures { result ≡ same_bits one other }
{
    pattern_of(one) == pattern_of(other)
}

#[tactic(auto, unfolding(piece_rules::specs::Pieces::same_param))]
fn same_param(one: SolverParam, other: SolverParam) -> bool
    ensures { result ≡ same_param one other }
{
    one.max_iter == other.max_iter
        && same_bits(one.eps_acc, other.eps_acc)
        && same_bits(one.eps_inf, other.eps_inf)
        && same_bits(one.eps_zero, other.eps_zero)
        && one.sweep_limit == other.sweep_limit
        && one.log_period == other.log_period
        && one.edition == other.edition
}

// Whether no step is left: the allowance is max_iter, and 1 where that is 0.
fn is_spent(par: SolverParam, k: u64) -> bool
    ensures { result ≡ leb (allowance par) k }
{
    par.max_iter <= k && 1 <= k
}

// Whether q is above k times sweeps times pairs. It divides, since the product of numbers that somebody altered may be too large.
fn is_above(q: u64, k: u64, sweeps: u64, pairs: u64) -> bool
    ensures { result ≡ ltb (k * (sweeps * pairs)) q }
{
    q != 0 && (pairs == 0 || sweeps == 0 || k <= (q - 1) / pairs / sweeps)
}

// Whether rows written and dropped are together more than k, asked without their sum, which may be too large.
fn has_more_rows(k: u64, written: u64, dropped: u64) -> bool
    ensures { result ≡ ltb k (written + dropped) }
{
    k < written || k - written < dropped
}
