// One cone word of a plain list: with the reader of groups the only place that knows how words are made. Everything else is over the blocks.
#![tactic(auto)]

ghost use Rattle.std.specs.Prelude.{◌≡◌};
ghost use Rattle.rules.specs.Blocks.{order_of, read_word};

use matrix::triangle;
use rules::Cone;

// The largest order whose triangle has at most that many places, of those that a word can say.
fn order_of(size: usize) -> usize
    ensures { result ≡ order_of size }
{
    for order in 0..127 {
        if size < triangle(order + 1) {
            return order;
        }
    }
    127
}

// The block that a cone word says, of 3 bits of kind and then 13 bits of size: a bad word says none.
#[tactic(auto, unfolding(rules::specs::Blocks::read_word, rules::specs::Blocks::read_kind))]
pub fn read_word(word: u16) -> Option<Cone>
    ensures { result ≡ read_word word }
{
    let size = usize::from(word % 8192);
    match word / 8192 {
        0 => Some(Cone::Zero(size)),
        1 => Some(Cone::RPos(size)),
        2 => Some(Cone::SOC(size)),
        3 => Some(Cone::RotSOC(size)),
        4 => {
            let order = order_of(size);
            (triangle(order) == size).then_some(Cone::PSD(order))
        }
        _ => None,
    }
}
