// The text of a card's answer, in a buffer.
#![tactic(auto)]

mod bytes;
mod text_lines;

ghost use Rattle.std.specs.Prelude.{◌≤◌, length};
ghost use Rattle.io.specs.Counts.{IsPrefixLen};
ghost use Rattle.card_text.specs.Text.{Says, Numbered, card as card_word, AnswerText, ToldText, TextOutcome, FirstLineOutcome};
ghost use Rattle.card_text.specs.Growing.{columns_of, rows_of};

use card::Fault;
use card_answer::Told;
use rules::{Answer, Logged};
use text_lines::{put_ended, put_numbered, refusal_of};

// A buffer of so many bytes holds the text of any card, and a few more.
pub const TEXT_ROOM: usize = 1200;

// Puts the answer to a card without a fault.
fn put_answer(text: &mut [u8], answer: Answer, x: &[f64], y: &[f64]) -> usize
    requires in_bounds { 1200 ≤ length text.old }
    requires x_len_bound { length x.now ≤ 32 }
    requires y_len_bound { length y.now ≤ 32 }
    ensures upper_bound { result ≤ 1200 }
    ensures says { Says (AnswerText answer.ending answer.steps answer.rotations x.now y.now) text.old result text.new }
{
    match refusal_of(answer.ending) {
        Some(number) => put_numbered(text, b"Refused ", number),
        None => put_ended(text, answer, x, y),
    }
}

// Puts the number of a card's fault.
fn put_fault(text: &mut [u8], number: u8) -> usize
    requires { 1200 ≤ length text.old }
    ensures upper_bound { result ≤ 1200 }
    ensures says { Says (Numbered card_word number) text.old result text.new }
{
    put_numbered(text, b"Card ", u64::from(number))
}

// Puts what was told of a card, of which the solution stands in work.
fn put_told(text: &mut [u8], told: Result<Told<Answer>, Fault>, work: &[f64]) -> usize
    requires in_bounds { 1200 ≤ length text.old }
    requires told_bound { columns_of told ≤ 32 }
    requires told_bound_2 { rows_of told ≤ 32 }
    ensures upper_bound { result ≤ 1200 }
    ensures says { Says (ToldText told work.now) text.old result text.new }
{
    match told {
        Ok(told) => {
            let x = solution::solution_x(work, told.cols);
            let y = solution::solution_y(work, told.rows, told.cols);
            put_answer(text, told.answer, x, y)
        }
        Err(fault) => put_fault(text, fault.number()),
    }
}

// Puts what the program writes for a card at the start of a buffer, and answers how many bytes that is.
// Where the buffer may be too short, it answers 0 and changes nothing: the text is of no bytes, and a caller needs no arm for it.
#[tactic(auto, using(crate::proofs::Whole::text_too_short))]
pub fn answer_text(card: &[u8], text: &mut [u8]) -> usize
    ensures prefix_len { IsPrefixLen result text.new }
    ensures text_outcome { TextOutcome card.now text.old result text.new }
{
    if text.len() < TEXT_ROOM {
        return 0;
    }
    let mut work = [0.0; card_answer::WORK];
    let told = card_answer::answer(card, &mut work);
    put_told(text, told, &work)
}

// Puts the first line of that alone, for a card that was solved with a progress record. A fault is its number.
pub fn first_line(told: Result<Told<Logged>, u8>, text: &mut [u8]) -> usize
    ensures prefix_len { IsPrefixLen result text.new }
    ensures first_line_outcome { FirstLineOutcome told text.old result text.new }
{
    if TEXT_ROOM > text.len() {
        return 0;
    }
    let none = [0.0; 0];
    match told {
        Ok(told) => put_answer(text, told.answer.answer, &none, &none),
        Err(number) => put_fault(text, number),
    }
}
