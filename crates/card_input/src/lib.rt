// A program's arguments: numbers, and files as they name them, read into a buffer. Why a file can't be read is told
// on standard error, and none answered.
#![tactic(auto)]

mod decimal;
mod words;

ghost use Rattle.std.specs.Prelude.{◌≡◌, Some, None, MatchResult};
ghost use Rattle.card_input.specs.Input.{Within};

use card_file::ENOUGH;
pub use decimal::number_argument;
use std::fs::File;
use std::io::{Error, Read};
use std::rt::{Env, Files};
pub use words::{argument_count, fail, is_argument};
use words::{WORD_ROOM, more_after_the_end, no_text, word};

// The front of the card that an argument names; `-` is standard input, and so is an argument that is missing. It
// answers how many bytes were read, to the start of the buffer.
pub fn read_argument<R: Env + Files + std::io::Input + Eprint>(
    rt: &R,
    i: usize,
    bytes: &mut [u8],
) -> Option<usize>
    ensures { Within result bytes.new }
{
    if !is_argument(rt, i) {
        return read_standard(rt, bytes);
    }
    let mut name = [0u8; WORD_ROOM];
    let length = or_tell(rt, "the file's name", word(rt, i, &mut name))?;
    if matches!(&name[..length], [b'-']) {
        return read_standard(rt, bytes);
    }
    let path = or_tell(rt, "the file's name", text_of(&name[..length]))?;
    let mut file = or_tell(rt, path, File::open(rt, path))?;
    read_open(rt, &mut file, path, bytes)
}

// The file that an argument names, as much of it as the buffer holds.
pub fn read_file<R: Env + Files + Eprint>(rt: &R, i: usize, bytes: &mut [u8]) -> Option<usize>
    ensures { Within result bytes.new }
{
    let mut name = [0u8; WORD_ROOM];
    let length = or_tell(rt, "the name of the file", word(rt, i, &mut name))?;
    let path = or_tell(rt, "the name of the file", text_of(&name[..length]))?;
    let mut file = or_tell(rt, path, File::open(rt, path))?;
    read_whole(rt, &mut file, path, bytes)
}

// What was answered; an error is told, after what failed.
fn or_tell<R: Eprint, T>(rt: &R, what: &str, answer: Result<T, Error>) -> Option<T>
    ensures { MatchResult answer (λ value. result ≡ Some value) (λ _. result ≡ None) }
{
    match answer {
        Ok(value) => Some(value),
        Err(e) => {
            fail(rt, what, e);
            None
        }
    }
}

fn text_of(name: &[u8]) -> Result<&str, Error> {
    str::from_utf8(name).map_err(|_| no_text())
}

fn read_standard<R: std::io::Input + Eprint>(rt: &R, bytes: &mut [u8]) -> Option<usize>
    ensures { Within result bytes.new }
{
    let mut input = rt.reader();
    read_open(rt, &mut input, "standard input", bytes)
}

// The front of an open file, which has this name where it can't be read.
fn read_open<R: Eprint, F: Read>(
    rt: &R,
    input: &mut F,
    name: &str,
    bytes: &mut [u8],
) -> Option<usize>
    ensures { Within result bytes.new }
{
    let length = card_file::read_front(input, ENOUGH, bytes);
    if length < ENOUGH && !is_at_end(rt, input, name) {
        return None;
    }
    Some(length)
}

// As much of an open file as the buffer holds.
fn read_whole<R: Eprint, F: Read>(
    rt: &R,
    input: &mut F,
    name: &str,
    bytes: &mut [u8],
) -> Option<usize>
    ensures { Within result bytes.new }
{
    let count = lines::read_full(input, bytes);
    if count < bytes.len() && !is_at_end(rt, input, name) {
        return None;
    }
    Some(count)
}

// Whether the input has ended, which else is told; after a read that failed, the next one fails too.
fn is_at_end<R: Eprint, F: Read>(rt: &R, input: &mut F, name: &str) -> bool {
    let mut more = [0u8; 1];
    let error = match input.read(&mut more) {
        Ok(0) => return true,
        Ok(_) => more_after_the_end(),
        Err(e) => e,
    };
    fail(rt, name, error);
    false
}
