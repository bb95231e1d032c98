// How much of a file is read: a file that is longer than any card is judged by its front.
ghost use Rattle.std.specs.Prelude.{◌≡◌};
ghost use Rattle.card.specs.Card.{front_length};

// So many bytes of any file tell its card, one more than the longest card has.
pub const ENOUGH: usize = 8862;

// How many bytes of a file of this length tell its card.
pub fn front_length(length: usize) -> usize
    ensures { result ≡ front_length length }
{
    length.min(ENOUGH)
}
