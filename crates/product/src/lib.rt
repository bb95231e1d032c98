// The projection of a list of blocks: each has its part of the lent slice, in list order.
#![tactic(auto)]

ghost use Rattle.std.specs.Prelude.{◌≡◌, true};
ghost use Rattle.rules.specs.Blocks.{blocks_of};
ghost use Rattle.rules.specs.Product.{proj_all, product_fits, ProductOutcome};

use block::places_of;
use cone::proj;
use rules::{Product, Projection, SolverParam};
use word::read_word;
use words::product_fits;

// Projects the blocks of a list that fits.
fn proj_all(
    par: SolverParam,
    dual: bool,
    words: &[u16],
    x: &mut [f64],
    work: &mut [f64],
) -> Option<Product>
    requires { product_fits par words.now x.old work.old ≡ true }
    ensures { ProductOutcome true
        (proj_all par dual (blocks_of words.now) x.old work.old) x.old
        work.old result x.new work.new }
{
    let mut start = 0;
    let mut rotations = 0;
    let mut number = 0;
    for &word in words {
        let block = read_word(word)?;
        let end = start + places_of(block);
        match proj(par, dual, block, &mut x[start..end], work)? {
            Projection::Done(made) => rotations += made,
            Projection::Failed(made) => return Some(Product::Failed(number, rotations + made)),
        }
        start = end;
        number += 1;
    }
    Some(Product::Done(rotations))
}

// Projects each block of a list, and stops at the first that fails: the answer names it, counted from 0. Where the list, a length or the
// sweep limit doesn't fit, it answers no and changes nothing.
pub fn product_proj(
    par: SolverParam,
    dual: bool,
    words: &[u16],
    x: &mut [f64],
    work: &mut [f64],
) -> Option<Product>
    ensures { ProductOutcome (product_fits par words.now x.old work.old)
        (proj_all par dual (blocks_of words.now) x.old work.old) x.old
        work.old result x.new work.new }
{
    if !product_fits(par, words, x.len(), work.len()) {
        return None;
    }
    proj_all(par, dual, words, x, work)
}
