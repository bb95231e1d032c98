// Reading a list where a read that is interrupted is tried again. One that fails otherwise ends it, and is a word's error. It is not `replay_records` over
// another reader: that reads a record's two first words at once, which a reader can tell.
ghost use Rattle.lines.specs.Taken.{TakesWord};

use std::io;
use std::io::Read;

// The next word of a list: eight bytes, the most significant first.
pub fn read_word<R: Read>(input: &mut R) -> io::Result<u64>
    ensures { TakesWord (R.remaining input.old) (R.remaining input.new) result }
{
    let mut bytes = [0; 8];
    input.read_exact(&mut bytes)?;
    Ok(patterns::word_at(&bytes, 0))
}

// Replays so many records, or up to one that can't be: whether all were, and nothing follows.
pub fn replay_all<R: Read, F: FnMut(u64, &[u8]) -> bool>(
    input: &mut R,
    records: u64,
    room: &mut [u8],
    mut replay: F,
) -> bool
    requires { F.IsAlwaysCallable replay }
{
    for _ in 0..records {
        let Some((tag, record)) = read_record(input, room) else {
            return false;
        };
        if !replay(tag, record) {
            return false;
        }
    }
    input.read_exact(&mut [0]).is_err()
}

// The next record of a list: its first word, and then as many words as its second one says, put into the room lent. None where it is cut short or there is
// no room for it.
fn read_record<'a, R: Read>(input: &mut R, room: &'a mut [u8]) -> Option<(u64, &'a [u8])> {
    let tag = read_word(input).ok()?;
    let words = read_word(input).ok()? as usize;
    if words > room.len() / 8 {
        return None;
    }
    let record = &mut room[..words * 8];
    input.read_exact(record).ok()?;
    Some((tag, record))
}
