// The words that a program was started with, and the line that tells why something failed.
ghost use Rattle.std.specs.Io.{WritesAtMost};

use std::env::FillError;
use std::io::{Cursor, Error, Write};
use std::rt::Env;

// Longer than any path.
pub(crate) const WORD_ROOM: usize = 4096;

// Longer than the text of any error.
const TEXT_ROOM: usize = 320;

// Whether the program was started with this argument.
pub fn is_argument<R: Env>(rt: &R, i: usize) -> bool {
    let mut word = [0u8; 1];
    !matches!(rt.arg(i, &mut word), Err(FillError::NotPresent))
}

// How many arguments the program was started with, its own name among them.
pub fn argument_count<R: Env>(rt: &R) -> usize {
    (0..usize::MAX)
        .find(|i| !is_argument(rt, *i))
        .unwrap_or(usize::MAX)
}

// Puts an argument at the start of a buffer, and answers its length, or why it is not there.
pub(crate) fn word<R: Env>(rt: &R, i: usize, word: &mut [u8]) -> Result<usize, Error>
    ensures { WritesAtMost result word.new }
{
    match rt.arg(i, word) {
        Ok(length) => Ok(length),
        Err(FillError::TooLong) => Err(too_long()),
        Err(FillError::NotPresent) => Err(missing()),
    }
}

// ENAMETOOLONG.
fn too_long() -> Error {
    Error::from_raw_os_error(36)
}

// EINVAL.
fn missing() -> Error {
    Error::from_raw_os_error(22)
}

// A name that is not UTF-8, EILSEQ.
pub(crate) fn no_text() -> Error {
    Error::from_raw_os_error(84)
}

// No error of the system's.
pub(crate) fn more_after_the_end() -> Error {
    Error::from_raw_os_error(0)
}

// Writes a line to standard error: what failed, a colon, and the error's text, without its number.
pub fn fail<R: Eprint>(rt: &R, what: &str, error: Error) {
    let mut text = Cursor::new([0u8; TEXT_ROOM]);
    let _ = write!(text, "{error}");
    let length = (text.position() as usize).min(TEXT_ROOM);
    let bytes = text.into_inner();
    let told = str::from_utf8(&bytes[..length]).unwrap_or("");
    let _ = eprintln!(rt; "{what}: {}", without_number(told));
}

fn without_number(text: &str) -> &str {
    text.split_once(" (os error ")
        .map_or(text, |(words, _)| words)
}
