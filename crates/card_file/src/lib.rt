// The front of a card file, read into a buffer: as much as tells its card.
#![tactic(auto)]

mod enough;

ghost use Rattle.io.specs.Counts.{IsPrefixLen};
ghost use Rattle.card_file.specs.Front.{FrontOutcome};

pub use enough::{ENOUGH, front_length};
use std::io::Read;

// Reads the front of a file that has at most so many bytes to the start of a buffer, and answers how many bytes
// there are. A buffer that may be too short is left alone, and 0 answered: nothing was read, and a caller needs no arm for it.
pub fn read_front<R: Read>(input: &mut R, most: usize, bytes: &mut [u8]) -> usize
    ensures prefix_len { IsPrefixLen result bytes.new }
    ensures front_outcome { FrontOutcome most bytes.old result bytes.new }
{
    let count = front_length(most);
    if bytes.len() < count {
        return 0;
    }
    lines::read_full(input, &mut bytes[..count])
}
