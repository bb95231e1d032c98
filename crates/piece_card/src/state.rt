// The state of a run as text: the line `state`, and then its words, each on a line as 16 hexadecimal digits. They are
// the words of the run's record, then the numbers of work, then those of cone work.
ghost use Rattle.std.specs.Prelude.{◌≤◌, length, IfSome};

use piece_rules::RunRecord;
use run_record::RECORD_WORDS;
use std::{fmt, io};

pub(crate) const WORK: usize = card_answer::WORK;

pub(crate) const CONE_WORK: usize = card_answer::CONE_WORK;

// Where the numbers of work and of cone work stand among the words, and how many words there are.
pub(crate) const WORK_AT: usize = RECORD_WORDS;

pub(crate) const CONE_WORK_AT: usize = WORK_AT + WORK;

pub(crate) const WORDS: usize = CONE_WORK_AT + CONE_WORK;

// How long a word's line is: 16 digits, and the line's end.
const LINE: usize = 17;

// Longer than any file with a state.
pub(crate) const MOST: usize = card_text::TEXT_ROOM + LINE * WORDS + 100;

// Why a file has no state.
#[derive(Clone, Copy)]
pub(crate) enum Damage {
    NoMark,
    NoWords,
    NoRecord,
}

impl fmt::Display for Damage {
    fn fmt<W: fmt::Write>(&self, f: &mut fmt::Formatter<W>) -> fmt::Result {
        match self {
            Damage::NoMark => write!(f, "it has no line `state`"),
            Damage::NoWords => write!(
                f,
                "it has not 595 lines of 16 hexadecimal digits after `state`"
            ),
            Damage::NoRecord => write!(f, "its first 21 words are not the record of a run"),
        }
    }
}

// Reads the state in a file, and answers its record.
pub(crate) fn read_state(bytes: &[u8], words: &mut [u64]) -> Result<RunRecord, Damage> {
    let lines = after_mark(bytes).ok_or(Damage::NoMark)?;
    read_words(lines, words).ok_or(Damage::NoWords)?;
    run_record::read_record(words).ok_or(Damage::NoRecord)
}

// What follows the line `state`.
fn after_mark(bytes: &[u8]) -> Option<&[u8]>
    ensures { IfSome result (λ rest. length rest.now ≤ length bytes.now) }
{
    let mut start: usize = 0;
    for (i, &byte) in bytes.iter().enumerate() {
        if byte == b'\n' {
            if matches!(&bytes[start..i], [b's', b't', b'a', b't', b'e']) {
                return Some(&bytes[i + 1..]);
            }
            start = i + 1;
        }
    }
    None
}

// Reads the words of the lines, if there are as many as there are to be.
fn read_words(lines: &[u8], words: &mut [u64]) -> Option<()> {
    if lines.len() != LINE * WORDS {
        return None;
    }
    for (line, word) in lines.chunks_exact(LINE).zip(words.iter_mut()) {
        *word = word_of(line)?;
    }
    Some(())
}

// What a line says.
fn word_of(line: &[u8]) -> Option<u64> {
    let digits = line.strip_suffix(b"\n")?;
    if !digits
        .iter()
        .all(|digit| matches!(digit, b'0'..=b'9' | b'a'..=b'f'))
    {
        return None;
    }
    u64::from_str_radix(str::from_utf8(digits).ok()?, 16).ok()
}

// Writes a state.
pub(crate) fn write_state<P: Print>(
    out: &P,
    record: RunRecord,
    work: &[f64],
    cone_work: &[f64],
) -> io::Result<()> {
    let mut words = [0u64; RECORD_WORDS];
    run_record::write_record(record, &mut words);
    println!(out; "state")?;
    for &word in &words {
        write_word(out, word)?;
    }
    write_numbers(out, work)?;
    write_numbers(out, cone_work)
}

// Writes numbers, each on a line.
pub(crate) fn write_numbers<P: Print>(out: &P, numbers: &[f64]) -> io::Result<()> {
    for &number in numbers {
        write_word(out, patterns::pattern_of(number))?;
    }
    Ok(())
}

fn write_word<P: Print>(out: &P, word: u64) -> io::Result<()> {
    println!(out; "{word:016x}")
}
