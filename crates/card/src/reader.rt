// The reader: a card's head is judged from its front, then its lists are read.
ghost use Rattle.std.specs.Prelude.{◌+◌, ◌*◌, ◌≤◌, ◌≡◌, length, IfOk};
ghost use Rattle.card.specs.Card.{bits_of_bytes, read_card};
ghost use Rattle.card.specs.Fields.{fields_at, rest_at};
ghost use Rattle.card.specs.Outcome.{answer_of, Bounds, ReadOutcome};

use crate::digits::{field, number_count};
use crate::{CardHead, Fault, MOST_NUMBERS, MOST_WORDS, storage_of};
use rules::{Cols, Rows};

// What a card says beside its lists, or its first fault, once n and m are judged.
fn rest_of(bytes: &[u8], n: usize, m: usize) -> Result<CardHead, Fault>
    requires n_bound { n ≤ 32 }
    requires m_bound { m ≤ 32 }
    requires in_bounds { 3 ≤ length bytes.now }
    ensures { result ≡ answer_of (rest_at n m (bits_of_bytes bytes.now)) }
{
    let flag = field(bytes, 4, 1);
    let storage = storage_of(flag == 1);
    let words = field(bytes, 17, 6) as usize;
    let after_words = 23 + 16 * words;
    let total = after_words + 20 + 7 + 64 * number_count(storage, Rows(m), Cols(n));
    let needed = (total + 7) / 8;
    if bytes.len() < needed {
        return Err(Fault::Short);
    }
    if field(bytes, total, needed * 8 - total) != 0 {
        return Err(Fault::Padding);
    }
    if bytes.len() != needed {
        return Err(Fault::LeftOver);
    }
    let max_iter = field(bytes, after_words, 20);
    let sweep_limit = field(bytes, after_words + 20, 7);
    Ok(CardHead {
        storage,
        rows: Rows(m),
        cols: Cols(n),
        words,
        max_iter,
        sweep_limit,
    })
}

// What a card says beside its lists, or its first fault.
#[tactic(auto, using(crate::proofs::Front::no_n_answered, crate::proofs::Front::no_m_answered))]
fn head_of(bytes: &[u8]) -> Result<CardHead, Fault>
    ensures answered { result ≡ answer_of (read_card bytes.now) }
    ensures bounds { IfOk result (λ head. Bounds bytes.now head) }
{
    if bytes.len() < 1 {
        return Err(Fault::Short);
    }
    if field(bytes, 0, 4) != 1 {
        return Err(Fault::Edition);
    }
    if bytes.len() < 2 {
        return Err(Fault::Short);
    }
    let n = field(bytes, 5, 6) as usize;
    if n > 32 {
        return Err(Fault::Large);
    }
    if bytes.len() < 3 {
        return Err(Fault::Short);
    }
    let m = field(bytes, 11, 6) as usize;
    if m > 32 {
        return Err(Fault::Large);
    }
    rest_of(bytes, n, m)
}

// Reads words, as many as there are places.
fn fill_words(bytes: &[u8], words: &mut [u16])
    requires count_bound { length words.old ≤ 63 }
    requires in_bounds { 23 + 16 * length words.old ≤ 8 * length bytes.now }
    ensures { words.new ≡ fields_at (length words.old) 23 16 (bits_of_bytes bytes.now) }
{
    for (i, word) in words.iter_mut().enumerate() {
        *word = field(bytes, 23 + 16 * i, 16) as u16;
    }
}

// Reads numbers from a place on, as many as there are places. One function for both would need a trait with a law on
// its cast, which is longer than the two.
fn fill_numbers(bytes: &[u8], at: usize, numbers: &mut [u64])
    requires at_bound { at ≤ 1058 }
    requires count_bound { length numbers.old ≤ 1091 }
    requires in_bounds { at + 64 * length numbers.old ≤ 8 * length bytes.now }
    ensures { numbers.new ≡ fields_at (length numbers.old) at 64 (bits_of_bytes bytes.now) }
{
    for (i, number) in numbers.iter_mut().enumerate() {
        *number = field(bytes, at + 64 * i, 64);
    }
}

// Reads a card into two buffers. It changes them only where the card has no fault, and they are as large as any
// card's lists.
pub fn read_card(bytes: &[u8], words: &mut [u16], numbers: &mut [u64]) -> Result<CardHead, Fault>
    ensures outcome { ReadOutcome bytes.now words.old numbers.old result words.new numbers.new }
    ensures bounds { IfOk result (λ head. Bounds bytes.now head) }
{
    if words.len() < MOST_WORDS || numbers.len() < MOST_NUMBERS {
        return Err(Fault::SmallBuffers);
    }
    let head = head_of(bytes)?;
    fill_words(bytes, &mut words[..head.words]);
    let count = number_count(head.storage, head.rows, head.cols);
    fill_numbers(bytes, 23 + 16 * head.words + 20 + 7, &mut numbers[..count]);
    Ok(head)
}
