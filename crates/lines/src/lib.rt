// Reading a list, and the lines that several programs write. A read that fails ends what is read, also one that is only interrupted, which
// `read_word` and `replay_all` alone try again. A write that fails is told by what is answered, and what comes after it is tried all the same.
#![tactic(auto)]

ghost use Rattle.io.specs.Counts.{IsPrefixLen};

mod again;

pub use again::{read_word, replay_all};
use std::io;
use std::io::Read;

// Reads until the buffer is full, the input ends or a read fails, and answers how many bytes it put at the buffer's start.
pub fn read_full<R: Read>(input: &mut R, buffer: &mut [u8]) -> usize
    ensures { IsPrefixLen result buffer.new }
{
    let mut done = 0;
    // `read_exact` says nothing of how many bytes came before an end, which is what is answered here
    while done < buffer.len() {
        match input.read(&mut buffer[done..]) {
            Ok(0) | Err(_) => break,
            Ok(count) => done += count,
        }
    }
    done
}

// Whether so many bytes were read, to the start of a buffer.
pub fn read<R: Read>(input: &mut R, buffer: &mut [u8], length: usize) -> bool {
    length <= buffer.len() && read_full(input, &mut buffer[..length]) == length
}

// Whether nothing more can be read.
pub fn at_end<R: Read>(input: &mut R) -> bool {
    !read(input, &mut [0], 1)
}

// The next word of a list: eight bytes, the most significant first.
pub fn next_word<R: Read>(input: &mut R) -> io::Result<u64> {
    let mut bytes = [0; 8];
    if read(input, &mut bytes, 8) {
        Ok(patterns::word_at(&bytes, 0))
    } else {
        Err(io::ErrorKind::UnexpectedEof.into())
    }
}

// The next record of a list: its first word, and then as many words as its second one says, put into the room lent. None where it is cut short or there is
// no room for it. The two words are read at once: each read is a call of the system's.
fn read_record<'a, R: Read>(input: &mut R, room: &'a mut [u8]) -> Option<(u64, &'a [u8])> {
    let mut head = [0; 16];
    if !read(input, &mut head, 16) {
        return None;
    }
    let tag = patterns::word_at(&head, 0);
    let words = patterns::word_at(&head, 8) as usize;
    if words > room.len() / 8 {
        return None;
    }
    let length = words * 8;
    if !read(input, room, length) {
        return None;
    }
    Some((tag, &room[..length]))
}

// Replays so many records, or up to one that can't be: whether all were, and nothing follows.
pub fn replay_records<R: Read, F: FnMut(u64, &[u8]) -> bool>(
    input: &mut R,
    records: u64,
    room: &mut [u8],
    mut replay: F,
) -> bool
    requires { F.IsAlwaysCallable replay }
{
    for _ in 0..records {
        let Some((tag, record)) = read_record(input, room) else {
            return false;
        };
        if !replay(tag, record) {
            return false;
        }
    }
    at_end(input)
}

// The name of an answer: of a refusal by its number up to 6, and then of an ending.
pub fn answer_name(number: usize) -> Option<&'static str> {
    match number {
        1 => Some("BadParam"),
        2 => Some("TooLarge"),
        3 => Some("InvalidOp"),
        4 => Some("BadCone"),
        5 => Some("NotFinite"),
        6 => Some("WorkShortage"),
        7 => Some("Converged"),
        8 => Some("ExcessIter, scaled"),
        9 => Some("ExcessIter, unscaled"),
        10 => Some("Unbounded"),
        11 => Some("Infeasible"),
        12 => Some("ConeFailure"),
        _ => None,
    }
}

// Whether the bytes could be written.
pub fn write<P: Print>(out: &P, bytes: &[u8]) -> bool {
    out.write_all(bytes).is_ok()
}

// Whether the number could be written, in decimal digits.
pub fn write_decimal<P: Print>(out: &P, number: u64) -> bool {
    out.print(number).is_ok()
}

// Whether the 64-bit pattern could be written, as its 16 hexadecimal digits.
pub fn write_pattern<P: Print>(out: &P, pattern: u64) -> bool {
    print!(out; "{pattern:016x}").is_ok()
}

// The counts after a name, to the end of the line.
pub fn write_counts<P: Print>(out: &P, records: u64, agree: u64, differ: u64) {
    write(out, b": ");
    write_decimal(out, records);
    write(out, b" records, ");
    write_decimal(out, agree);
    write(out, b" agree, ");
    write_decimal(out, differ);
    write(out, b" differ\n");
}

// The last line: all counts after the list's name. What stopped the replay is a difference too.
pub fn write_total<P: Print>(
    out: &P,
    name: &[u8],
    whole: bool,
    records: u64,
    agree: u64,
    differ: u64,
) {
    if whole {
        write(out, name);
        write_counts(out, records, agree, differ);
        return;
    }
    write(
        out,
        b"stopped: a record is cut short, of no known operation, or one too many\n",
    );
    write(out, name);
    write_counts(out, records, agree, differ.wrapping_add(1));
}

// Writes the name of an answer: of a refusal by its number up to 6, and then of an ending; whether there is one of this number.
pub fn write_answer<P: Print>(out: &P, number: usize) -> bool {
    match answer_name(number) {
        Some(name) => write(out, name.as_bytes()),
        None => false,
    }
}

// Writes whether a case holds, after its name.
pub fn write_case<P: Print>(out: &P, holds: bool) -> bool {
    if holds {
        write(out, b": holds\n")
    } else {
        write(out, b": does not hold\n")
    }
}
