// The writer of a card file: a card's bits by their places, eight to a byte.
#![tactic(auto)]

ghost use Rattle.std.specs.Prelude.{◌<◌, ◌≤◌, ◌≡◌, cond, length, get_or};
ghost use Rattle.rules.specs.Refusals.{is_packed};
ghost use Rattle.card.specs.Card.{bytes_of, card_bits};
ghost use Rattle.card_writer.specs.Bytes.{byte_at};
ghost use Rattle.card_writer.specs.Outcome.{card_of, WriteOutcome};

use bits::bit_of;
use card::{CardHead, stored};
use rules::Storage;

// The packed flag.
fn flag_of(storage: Storage) -> u64
    ensures { result ≡ cond (is_packed storage) 1 0 }
{
    match storage {
        Storage::Dense => 0,
        Storage::Packed => 1,
    }
}

// The bit at a place of a card, 0 past its end.
fn card_bit(head: CardHead, words: &[u16], numbers: &[u64], at: usize) -> u64
    requires words_len_bound { length words.now ≤ 63 }
    requires numbers_len_bound { length numbers.now ≤ 1091 }
    ensures value { result ≡ get_or (card_bits (card_of head words.now numbers.now)) at 0 }
    ensures bound { result < 2 }
{
    if at < 4 {
        return bit_of(1, 4, at);
    }
    if at < 5 {
        return bit_of(flag_of(head.storage), 1, at - 4);
    }
    if at < 11 {
        return bit_of(head.cols.0 as u64, 6, at - 5);
    }
    if at < 17 {
        return bit_of(head.rows.0 as u64, 6, at - 11);
    }
    if at < 23 {
        return bit_of(words.len() as u64, 6, at - 17);
    }
    let after_words = 23 + 16 * words.len();
    if at < after_words {
        return bit_of(words[(at - 23) / 16] as u64, 16, (at - 23) % 16);
    }
    if at < after_words + 20 {
        return bit_of(head.max_iter, 20, at - after_words);
    }
    let first = after_words + 20 + 7;
    if at < first {
        return bit_of(head.sweep_limit, 7, at - (after_words + 20));
    }
    if at < first + 64 * numbers.len() {
        return bit_of(numbers[(at - first) / 64], 64, (at - first) % 64);
    }
    0
}

// A byte of a card, zero bits after the last.
fn card_byte(head: CardHead, words: &[u16], numbers: &[u64], i: usize) -> u64
    requires words_len_bound { length words.now ≤ 63 }
    requires numbers_len_bound { length numbers.now ≤ 1091 }
    requires i_bound { i < 8861 }
    ensures value { result ≡ byte_at (card_bits (card_of head words.now numbers.now)) i }
    ensures bound { result < 256 }
{
    let mut v: u64 = 0;
    // The byte and k make the bit's place: numbers in any form.
    for k in 0..8usize {
        v = v * 2 + card_bit(head, words, numbers, 8 * i + k);
    }
    v
}

// Writes bytes of a card, as many as there are places.
fn write_bytes(head: CardHead, words: &[u16], numbers: &[u64], bytes: &mut [u8])
    requires words_len_bound { length words.now ≤ 63 }
    requires numbers_len_bound { length numbers.now ≤ 1091 }
    requires count_bound { length bytes.old ≤ 8861 }
    ensures { bytes.new ≡ bytes_of (length bytes.old) (card_bits (card_of head words.now numbers.now)) }
{
    for (i, byte) in bytes.iter_mut().enumerate() {
        *byte = card_byte(head, words, numbers, i) as u8;
    }
}

// Writes a card into a buffer and answers how many bytes it has. The words are all of the slice, whatever number of
// them the head says. Nothing is written where a field does not hold what it is to say, the numbers are not as many
// as n and m ask, or the buffer is too small.
pub fn write_card(head: CardHead, words: &[u16], numbers: &[u64], bytes: &mut [u8]) -> Option<usize>
    ensures { WriteOutcome (card_of head words.now numbers.now) bytes.old result bytes.new }
{
    let n = head.cols.0;
    let m = head.rows.0;
    if n > 32 || m > 32 || words.len() > 63 || head.max_iter >= 1048576 || head.sweep_limit >= 128 {
        return None;
    }
    if numbers.len() != 3 + n + stored(head.storage, head.rows, head.cols) + m {
        return None;
    }
    let count = (23 + 16 * words.len() + 20 + 7 + 64 * numbers.len() + 7) / 8;
    if bytes.len() < count {
        return None;
    }
    write_bytes(head, words, numbers, &mut bytes[..count]);
    Some(count)
}
