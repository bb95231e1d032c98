// Arrays of what a record holds.
use replay::{record, room};
use rules::{LIMIT, MOST_WORDS};

// How many numbers there may be: of c and of b, of A, of work, of cone work; and how many cone words. The list has a little more than
// the solver takes, but for A: the largest dense matrix would fill the stack, and the largest packed one stands here.
pub const ROOM: usize = LIMIT + 16;

pub const A_ROOM: usize = LIMIT * (LIMIT + 1) / 2;

pub const WORK_ROOM: usize = 16 * ROOM + 6;

pub const CONE_ROOM: usize = 2 * LIMIT;

pub const WORD_ROOM: usize = MOST_WORDS + 8;

// How many places a log may have. The longest of the list has 916.
pub const LOG_ROOM: usize = 1024;

// The place of the number of cone words, and that of the first of them.
const BLOCKS_AT: usize = 8;

const WORDS_AT: usize = 9;

// A vector in a record: number k of its length is the one at k mod given after its place.
#[derive(Clone, Copy)]
pub struct Vector {
    pub length: usize,
    pub given: usize,
    pub at: usize,
}

impl Vector {
    pub const EMPTY: Vector = Vector {
        length: 0,
        given: 0,
        at: 0,
    };

    // The place after it.
    pub fn after(self) -> usize {
        self.at.wrapping_add(self.given)
    }

    // The place, among the numbers given, of number k.
    pub fn place(self, k: usize) -> usize {
        if self.given == 0 { 0 } else { k % self.given }
    }
}

// The vector whose length stands at a place.
pub fn vector_at(record: &[u8], at: usize) -> Vector {
    Vector {
        length: record::size(record, at),
        given: record::size(record, at.wrapping_add(1)),
        at: at.wrapping_add(2),
    }
}

// The vectors of a problem, one after another.
#[derive(Clone, Copy)]
pub struct Vectors {
    pub c: Vector,
    pub a: Vector,
    pub b: Vector,
}

impl Vectors {
    // Those of a record.
    pub fn of(record: &[u8]) -> Vectors {
        let c = vector_at(record, blocks(record).wrapping_add(WORDS_AT));
        let a = vector_at(record, c.after());
        let b = vector_at(record, a.after());
        Vectors { c, a, b }
    }

    // The place after them.
    pub fn after(self) -> usize {
        self.b.after()
    }
}

// How many cone words a record's problem has, which stand before its vectors.
pub fn blocks(record: &[u8]) -> usize {
    record::size(record, BLOCKS_AT)
}

// A problem's cone words, and 0 after them.
pub fn cone_words(record: &[u8]) -> [u16; WORD_ROOM] {
    room::cone_words(record, WORDS_AT, blocks(record))
}

// The numbers of a vector, and +0 after them.
pub(crate) fn numbers(record: &[u8], v: Vector) -> [f64; ROOM] {
    let mut numbers = [0.0; ROOM];
    if v.length <= ROOM {
        fill(record, v, 0, &mut numbers[..v.length]);
    }
    numbers
}

// The numbers of a vector from one on, which stands at a place below those given.
pub fn fill(record: &[u8], v: Vector, from: usize, numbers: &mut [f64]) {
    let mut k: usize = from;
    for number in numbers.iter_mut() {
        if k >= v.given {
            k = 0;
        }
        *number = record::number(record, v.at.wrapping_add(k));
        k = k.wrapping_add(1);
    }
}
