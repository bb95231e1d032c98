// A cone list with groups, and the plain list that it says. Everything else reads plain lists: this crate alone knows groups.
#![tactic(auto)]

ghost use Rattle.std.specs.Prelude.{◌+◌, ◌-◌, ◌≤◌, ◌≡◌, true, length};
ghost use Rattle.rules.specs.Groups.{opens, own_of, item_of, plain_at};
ghost use Rattle.groups.specs.Flatten.{Put, FlattenOutcome, count_of};

use rules::MOST_DEEP;

// Whether a word is a group that can be read, where so many levels are left and so many words follow it in its list.
fn opens(levels: usize, word: u16, following: usize) -> bool
    ensures { result ≡ opens levels word following }
{
    word / 8192 == 7 && levels != 0 && (word % 8192) as usize <= following
}

// How many of the following words belong to an item.
fn own_words(opened: bool, word: u16) -> usize
    ensures { result ≡ own_of opened word }
{
    if opened { (word % 8192) as usize } else { 0 }
}

// Reads a list item by item: its plain words come into `plain` from `at` on. Answers the place after them.
#[cycle(read_item_read_list)]
fn read_list(words: &[u16], levels: usize, plain: &mut [u16], at: usize) -> usize
    requires { at + length words.now ≤ length plain.old }
    ensures { Put at plain.old (plain_at levels words.now) result plain.new }
{
    let mut end = at;
    let mut rest = words;
    while let Some((&word, following)) = rest.split_first() {
        let opened = opens(levels, word, following.len());
        let (own, after) = following.split_at(own_words(opened, word));
        end = read_item(opened, word, own, levels, plain, end);
        rest = after;
    }
    end
}

// Reads an item: a group is read as a list, one level deeper; any other word stands for itself.
#[cycle(read_item_read_list)]
fn read_item(
    opened: bool,
    word: u16,
    own: &[u16],
    levels: usize,
    plain: &mut [u16],
    at: usize,
) -> usize
    requires own_in_bounds { at + (1 + length own.now) ≤ length plain.old }
    requires le_levels { opened ≡ true → 1 ≤ levels }
    ensures { Put at plain.old (item_of opened word (plain_at (levels - 1) own.now)) result
        plain.new }
{
    // the place after a word that stands for itself; a group has none of its own
    let next = at + 1;
    if opened {
        return read_list(own, levels - 1, plain, at);
    }
    plain[at] = word;
    next
}

// The plain words of a list come to the front of `plain`, and it answers how many they are. No exactly where `plain` has fewer places than the list has words, and then it is kept.
pub fn flatten(words: &[u16], plain: &mut [u16]) -> Option<usize>
    ensures { FlattenOutcome words.now plain.old result plain.new }
{
    if plain.len() < words.len() {
        return None;
    }
    Some(read_list(words, MOST_DEEP, plain, 0))
}

// How many words a plain list has that was made; none after a no.
pub fn count_of(flattened: Option<usize>) -> usize
    ensures { result ≡ count_of flattened }
{
    match flattened {
        Some(count) => count,
        None => 0,
    }
}
