// Answers many cards: standard input holds their number and then each card with its length before it, as
// compare/README.md says. What is written must be the original's answers, one after another.
#![tactic(auto)]

use std::io::Read;

// Reads a card and answers it: whether there was a whole one, and all of the answer was written.
fn answer_one<R: Read, P: Print>(input: &mut R, out: &P) -> bool {
    let Ok(length) = lines::next_word(input) else {
        return false;
    };
    let mut card = [0u8; card_file::ENOUGH];
    let count = card_file::read_front(input, length as usize, &mut card);
    if count as u64 != length {
        return false;
    }
    let mut text = [0u8; card_text::TEXT_ROOM];
    let end = card_text::answer_text(&card[..count], &mut text);
    out.write_all(&text[..end]).is_ok()
}

// Answers so many cards, or up to one that can't be read: whether all were, and nothing follows.
fn replay<R: Read, P: Print>(input: &mut R, out: &P, cards: u64) -> bool {
    for _ in 0..cards {
        if !answer_one(input, out) {
            return false;
        }
    }
    lines::at_end(input)
}

// A write of the last line that fails is told by nothing.
fn main(rt: HostRuntime) {
    let mut input = rt.stdin();
    let Ok(cards) = lines::next_word(&mut input) else {
        let _ = rt.println("stopped: there is no list");
        return;
    };
    if !replay(&mut input, &rt, cards) {
        let _ = rt.println("stopped: a card is cut short, or one too many");
    }
}
