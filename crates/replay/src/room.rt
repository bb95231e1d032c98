// Arrays of what a record holds.
ghost use Rattle.std.specs.Prelude.{◌≡◌};
ghost use Rattle.replay.specs.Records.{numbers_in, ConeWordsIn};

use crate::record;

// How many numbers a vector or a matrix may have; the lists' largest matrices have 561, the longest cone
// work 506.
pub const ROOM: usize = 640;

// The n numbers from a place on, and +0 after them; +0 alone where there is no room for n.
pub fn numbers(record: &[u8], at: usize, n: usize) -> [f64; ROOM]
    ensures { result ≡ numbers_in 640 «record».now at n }
{
    let mut numbers = [0.0; ROOM];
    if n <= ROOM {
        record::fill(record, at, &mut numbers[..n]);
    }
    numbers
}

// The n cone words from a place on, and 0 after them; 0 alone where there is no room for n.
pub fn cone_words<const N: usize>(record: &[u8], at: usize, n: usize) -> [u16; N]
    ensures { ConeWordsIn N «record».now at n result }
{
    let mut words = [0; N];
    if n <= N {
        record::fill_words(record, at, &mut words[..n]);
    }
    words
}
