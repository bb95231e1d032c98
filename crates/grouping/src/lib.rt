// Grouping a list of blocks: each has its part of the lent slice, in list order.
#![tactic(auto)]

ghost use Rattle.std.specs.Prelude.{◌≡◌, true};
ghost use Rattle.rules.specs.Outcome.{Outcome};
ghost use Rattle.rules.specs.Blocks.{blocks_of};
ghost use Rattle.rules.specs.Product.{grouped, is_grouped, group_block, group_all, list_fits};

use block::places_of;
use rules::Cone;
use word::read_word;
use words::list_fits;

// Every place becomes the smallest of all.
fn group(t: &mut [f64])
    ensures { t.new ≡ grouped t.old }
{
    if let Some(&first) = t.first() {
        let mut smallest = first;
        for &value in t.iter() {
            smallest = float::smaller(smallest, value);
        }
        t.fill(smallest);
    }
}

// Whether a block's places go together: those of second-order, rotated and semidefinite cones.
fn is_grouped(cone: Cone) -> bool
    ensures { result ≡ is_grouped cone }
{
    matches!(cone, Cone::SOC(_) | Cone::RotSOC(_) | Cone::PSD(_))
}

// Groups a block, if its places go together.
fn group_block(cone: Cone, t: &mut [f64])
    ensures { t.new ≡ group_block cone t.old }
{
    if is_grouped(cone) {
        group(t);
    }
}

// Groups the blocks of a list that fits.
fn group_all(words: &[u16], xs: &mut [f64])
    requires { list_fits words.now xs.old ≡ true }
    ensures { xs.new ≡ group_all (blocks_of words.now) xs.old }
{
    let mut start = 0;
    for &word in words {
        // no list that fits has a bad one
        let Some(block) = read_word(word) else {
            return;
        };
        let end = start + places_of(block);
        group_block(block, &mut xs[start..end]);
        start = end;
    }
}

// Gives each block of the kinds that go together its smallest value. Where the list doesn't fit, it answers no and changes nothing.
pub fn product_group(words: &[u16], xs: &mut [f64]) -> bool
    ensures { Outcome (list_fits words.now xs.old)
        (group_all (blocks_of words.now) xs.old) xs.old result xs.new }
{
    if !list_fits(words, xs.len()) {
        return false;
    }
    group_all(words, xs);
    true
}
