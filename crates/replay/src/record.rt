// A record of a list without its first two words: sizes, numbers and the answer, each a word of eight
// bytes.
ghost use Rattle.std.specs.Prelude.{◌≡◌, ◌+◌, ◌/◌, length};
ghost use Rattle.std.specs.Float.Ieee as Ieee;
ghost use Rattle.std.specs.Float.{binary64};
ghost use Rattle.rules.specs.Arithmetic.{each};
ghost use Rattle.replay.specs.Records.{word_of, flag_of, number_of, stands, stand_from, all_have, stand_before, cone_word, ConeWords};

// How many words the record has.
pub fn words(record: &[u8]) -> usize
    ensures { result ≡ length «record».now / 8 }
{
    record.len() / 8
}

// A word of the record, 0 past the end.
#[tactic(auto, using(crate::proofs::Records::word_there, crate::proofs::Records::word_past))]
pub fn word(record: &[u8], at: usize) -> u64
    ensures { result ≡ word_of «record».now at }
{
    if at < record.len() / 8 {
        patterns::word_at(record, at * 8)
    } else {
        0
    }
}

// The word so many places after a place, 0 past the end.
#[tactic(auto, using(crate::proofs::Records::word_past))]
fn word_after(record: &[u8], at: usize, k: usize) -> u64
    ensures { result ≡ word_of «record».now (at + k) }
{
    at.checked_add(k).map_or(0, |place| word(record, place))
}

// A word that is a size.
pub fn size(record: &[u8], at: usize) -> usize
    ensures { result ≡ word_of «record».now at }
{
    word(record, at) as usize
}

// A word that is yes or no.
#[tactic(auto, unfolding(crate::specs::Records::flag_of))]
pub fn flag(record: &[u8], at: usize) -> Option<bool>
    ensures { result ≡ flag_of «record».now at }
{
    match word(record, at) {
        0 => Some(false),
        1 => Some(true),
        _ => None,
    }
}

#[tactic(auto, unfolding(crate::specs::Records::number_of))]
pub fn number(record: &[u8], at: usize) -> f64
    ensures { result ≡ number_of «record».now at }
{
    patterns::number_of(word(record, at))
}

// The numbers from a place on, as many as there is room for; past the end stands +0.
pub fn fill(record: &[u8], at: usize, numbers: &mut [f64])
    ensures { numbers.new ≡ each (λ k v. number_of «record».now (at + k)) numbers.old }
{
    for (i, number) in numbers.iter_mut().enumerate() {
        *number = patterns::number_of(word_after(record, at, i));
    }
}

// The cone words from a place on, as many as there is room for.
pub fn fill_words(record: &[u8], at: usize, words: &mut [u16])
    ensures { ConeWords «record».now at (length words.old) words.old words.new }
{
    for (i, word) in words.iter_mut().enumerate() {
        *word = cone_word(word_after(record, at, i));
    }
}

// A cone word; what is too large for one counts as the largest, which is bad.
#[tactic(auto, unfolding(crate::specs::Records::cone_word))]
fn cone_word(word: u64) -> u16
    ensures { result ≡ cone_word word }
{
    u16::try_from(word).unwrap_or(u16::MAX)
}

// Whether a number stands in the record at a place, bit for bit.
pub fn holds_one(record: &[u8], at: usize, number: f64) -> bool
    ensures { result ≡ stands «record».now at number }
{
    patterns::pattern_of(number) == word(record, at)
}

// Whether these numbers stand in the record from a place on, bit for bit; past its end stands +0.
// A loop: of `.enumerate().all(..)` the proof left `c.all.result ≡ list_all ..` open.
pub fn holds(record: &[u8], at: usize, numbers: &[f64]) -> bool
    ensures { result ≡ stand_from «record».now at numbers.now }
{
    for (i, &number) in numbers.iter().enumerate() {
        if patterns::pattern_of(number) != word_after(record, at, i) {
            return false;
        }
    }
    true
}

// Whether each of these numbers has the pattern.
pub fn all_have(pattern: u64, numbers: &[f64]) -> bool
    ensures { result ≡ all_have pattern numbers.now }
{
    numbers
        .iter()
        .all(|&number| patterns::pattern_of(number) == pattern)
}

// Whether the first n of these numbers stand in the record from a place on, and all after them have the
// pattern.
#[tactic(auto, unfolding(crate::specs::Records::stand_before))]
pub fn holds_before(record: &[u8], at: usize, numbers: &[f64], n: usize, pattern: u64) -> bool
    ensures { result ≡ stand_before «record».now at numbers.now n pattern }
{
    n <= numbers.len() && holds(record, at, &numbers[..n]) && all_have(pattern, &numbers[n..])
}
