// A number, as an argument says it in decimal digits.
use crate::words::WORD_ROOM;
use std::rt::Env;

pub fn number_argument<R: Env>(rt: &R, i: usize) -> Option<u32> {
    let mut word = [0u8; WORD_ROOM];
    let length = rt.arg(i, &mut word).ok()?;
    number_of(&word[..length])
}

// The number that the digits say; none where there are no digits, other bytes, or more than 32 bits. parse alone takes
// a sign before them.
fn number_of(word: &[u8]) -> Option<u32> {
    if word.starts_with(b"+") {
        return None;
    }
    str::from_utf8(word).ok()?.parse::<u32>().ok()
}
