// The lines of an answer, at the start of a buffer.
ghost use Rattle.std.specs.Prelude.{◌≤◌, ◌≡◌, length};
ghost use Rattle.card_text.specs.Text.{Says, Numbered, FirstLine, Ended};
ghost use Rattle.card_text.specs.Growing.{name_of, refusal_of};

use crate::bytes::{put, put_decimal, put_numbers};
use rules::{Answer, Ending};

// Puts a word and a number on a line.
pub(crate) fn put_numbered(text: &mut [u8], word: &[u8], number: u64) -> usize
    requires word_len_bound { length word.now ≤ 8 }
    requires in_bounds { 1200 ≤ length text.old }
    ensures upper_bound { result ≤ 1200 }
    ensures says { Says (Numbered word.now number) text.old result text.new }
{
    let end = put(text, 0, word);
    let last = put_decimal(text, end, number);
    put(text, last, b"\n")
}

// The number of a refusal; none of a run's ending.
pub(crate) fn refusal_of(ending: Ending) -> Option<u64>
    ensures { result ≡ refusal_of ending }
{
    match ending {
        Ending::BadParam => Some(1),
        Ending::TooLarge => Some(2),
        Ending::InvalidOp => Some(3),
        Ending::BadCone => Some(4),
        Ending::NotFinite => Some(5),
        Ending::WorkShortage => Some(6),
        Ending::Converged(..)
        | Ending::ExcessIter(..)
        | Ending::ExcessIterUnscaled(..)
        | Ending::Unbounded(_)
        | Ending::Infeasible(_)
        | Ending::ConeFailure(_) => None,
    }
}

// The name of a run's ending, which has a space after it, and nothing of a refusal.
fn name_of(ending: Ending) -> &'static [u8]
    ensures name { result.now ≡ name_of ending }
    ensures bound { length result.now ≤ 12 }
{
    match ending {
        Ending::BadParam
        | Ending::TooLarge
        | Ending::InvalidOp
        | Ending::BadCone
        | Ending::NotFinite
        | Ending::WorkShortage => b"",
        Ending::Converged(..) => b"Converged ",
        Ending::ExcessIter(..) | Ending::ExcessIterUnscaled(..) => b"ExcessIter ",
        Ending::Unbounded(_) => b"Unbounded ",
        Ending::Infeasible(_) => b"Infeasible ",
        Ending::ConeFailure(_) => b"ConeFailure ",
    }
}

// Puts the first line: the ending's name, k and q.
fn put_first(text: &mut [u8], answer: Answer) -> usize
    requires { 1200 ≤ length text.old }
    ensures upper_bound { result ≤ 54 }
    ensures says { Says (FirstLine (name_of answer.ending) answer.steps answer.rotations) text.old result text.new }
{
    let after_name = put(text, 0, name_of(answer.ending));
    let after_steps = put_decimal(text, after_name, answer.steps);
    let after_space = put(text, after_steps, b" ");
    let after_rotations = put_decimal(text, after_space, answer.rotations);
    put(text, after_rotations, b"\n")
}

// Puts the first line, and then x and y.
pub(crate) fn put_ended(text: &mut [u8], answer: Answer, x: &[f64], y: &[f64]) -> usize
    requires in_bounds { 1200 ≤ length text.old }
    requires x_len_bound { length x.now ≤ 32 }
    requires y_len_bound { length y.now ≤ 32 }
    ensures upper_bound { result ≤ 1200 }
    ensures says { Says (Ended (name_of answer.ending) answer.steps answer.rotations x.now y.now) text.old result text.new }
{
    let after_first = put_first(text, answer);
    let after_x = put_numbers(text, after_first, x);
    put_numbers(text, after_x, y)
}
