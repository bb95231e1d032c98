// Solves cards: the files that the arguments name, one after another, `-` being standard input, which is
// also solved where there is no argument. The answers are written to standard output; why a file can't be
// read, to standard error.
#![tactic(auto)]

use card_file::ENOUGH;
use std::rt::Runtime;

fn main(rt: HostRuntime) {
    solve_argument(&rt, 1);
    for i in 2..card_input::argument_count(&rt) {
        solve_argument(&rt, i);
    }
}

fn solve_argument<R: Runtime>(rt: &R, i: usize) {
    let mut bytes = [0u8; ENOUGH];
    if let Some(length) = card_input::read_argument(rt, i, &mut bytes) {
        solve(rt, &bytes[..length]);
    }
}

// Writes the answer to a card.
fn solve<R: Print + Eprint>(rt: &R, bytes: &[u8]) {
    let mut text = [0u8; card_text::TEXT_ROOM];
    let end = card_text::answer_text(bytes, &mut text);
    if let Err(e) = rt.write_all(&text[..end]) {
        card_input::fail(rt, "standard output", e);
    }
}
