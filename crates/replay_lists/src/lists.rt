// Lists of blocks, projected and grouped. Each routine is then asked again with one place too many, or too
// few, and has to turn that down and leave everything as it is.
use replay::{record, room};
use replay_routines::routines;
use replay_semidefinite::semidefinite;
use rules::{MOST_WORDS, Product};

// What a record holds of an answer: the number of the failed block plus 1, or 0; the rotations.
fn words_of(answer: Product) -> (u64, u64) {
    match answer {
        Product::Done(rotations) => (0, rotations),
        Product::Failed(block, rotations) => ((block as u64).wrapping_add(1), rotations),
    }
}

// Replays a record: whether a list of blocks is grouped, or else projected, as it says.
pub fn agrees(grouped: bool, record: &[u8]) -> bool {
    if grouped {
        groups(record)
    } else {
        projects(record)
    }
}

// Whether a list of blocks is projected as a record says.
pub fn projects(record: &[u8]) -> bool {
    let Some(dual) = record::flag(record, 0) else {
        return false;
    };
    let blocks = record::size(record, 4);
    if blocks > MOST_WORDS {
        return false;
    }
    let words: [u16; MOST_WORDS] = room::cone_words(record, 6, blocks);
    let list = &words[..blocks];
    let par = semidefinite::parameters(record::number(record, 2), record::word(record, 1));
    routines::projects(
        |x, work| product::product_proj(par, dual, list, x, work).map(words_of),
        record,
        blocks + 6,
        record::size(record, 5),
        record::number(record, 3),
    )
}

// Whether a list of blocks is grouped as a record says.
pub fn groups(record: &[u8]) -> bool {
    let blocks = record::size(record, 0);
    let places = record::size(record, 1);
    if blocks > MOST_WORDS
        || places >= room::ROOM
        || record::words(record) != blocks + 2 * places + 2
    {
        return false;
    }
    let words: [u16; MOST_WORDS] = room::cone_words(record, 2, blocks);
    let list = &words[..blocks];
    routines::agrees_with(
        |_, _, xs| grouping::product_group(list, xs),
        record,
        blocks + 2,
        0,
        places,
    )
}
