// A problem as a card file: bits, the most significant first, read into words and numbers.
#![tactic(auto)]

mod digits;
mod reader;

ghost use Rattle.std.specs.Prelude.{◌≡◌};
ghost use Rattle.card.specs.Card.{fault_number};
ghost use Rattle.card.specs.Outcome.{storage_of};

pub use digits::stored;
pub use reader::read_card;
use rules::{Cols, Rows, Storage};

// The most words and the most numbers of a card.
pub const MOST_WORDS: usize = 63;

pub const MOST_NUMBERS: usize = 1091;

// What a card says beside its lists.
#[derive(Clone, Copy)]
pub struct CardHead {
    pub storage: Storage,
    // m
    pub rows: Rows,
    // n
    pub cols: Cols,
    // How many cone words.
    pub words: usize,
    pub max_iter: u64,
    pub sweep_limit: u64,
}

// Why no card is read, in the order of the numbers that the programs print.
#[derive(Clone, Copy, Debug, PartialEq, Eq)]
pub enum Fault {
    // The only one that is none of the card: its lists may not fit the buffers.
    SmallBuffers,
    Short,
    Edition,
    // n or m above 32.
    Large,
    // Not zero.
    Padding,
    // Bytes left over.
    LeftOver,
}

impl Fault {
    // The number that the programs print.
    pub fn number(self) -> u8
        ensures { result ≡ fault_number self }
    {
        self as u8
    }
}

// How the packed flag says that A is stored.
pub fn storage_of(packed: bool) -> Storage
    ensures { result ≡ storage_of packed }
{
    if packed {
        Storage::Packed
    } else {
        Storage::Dense
    }
}
