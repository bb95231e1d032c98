// The sum of d(d−1) over the semidefinite blocks of a plain list.
ghost use Rattle.std.specs.Prelude.{◌≤◌, ◌≡◌, length};
ghost use Rattle.rules.specs.Limits.{most_words};
ghost use Rattle.rules.specs.Blocks.{read_word, places, blocks_of};
ghost use Rattle.rules.specs.Demands.{pairs_twice, all_pairs_twice};
ghost use Rattle.later_check.specs.Parts.{pairs_said};

use rules::Cone;
use word::read_word;

pub(crate) fn pairs_twice(words: &[u16]) -> u64
    requires { length words.now ≤ most_words }
    ensures { result ≡ all_pairs_twice (blocks_of words.now) }
{
    let mut sum = 0;
    for &word in words {
        sum += pairs_said(word);
    }
    sum
}

// Of one word: no size that a word says is above 8191.
fn pairs_said(word: u16) -> u64
    ensures value { result ≡ pairs_said (read_word word) }
    ensures few { result ≤ 16383 }
{
    match read_word(word) {
        Some(block) => pairs_of(block),
        None => 0,
    }
}

fn pairs_of(block: Cone) -> u64
    requires { places block ≤ 8191 }
    ensures value { result ≡ pairs_twice block }
    ensures few { result ≤ 16383 }
{
    match block {
        Cone::PSD(order) => (order * order.saturating_sub(1)) as u64,
        _ => 0,
    }
}
