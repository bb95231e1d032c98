// Takes the runs of cards in pieces. The arguments are groups of three: a card, as those of solve_card name it; how
// many steps the piece may take; and a file with the state that this program wrote after the piece before. `-` for that
// file, or none after the last group, begins a run. Standard output has, for each group, what became of the piece:
// what solve_card writes where the run has ended, the card has a fault or is refused; `Refused 7` for a state that
// does not fit; `Halted`, k and q for a run that goes on. After a run that halts or has ended its state is written.
#![tactic(auto)]

mod state;
mod text;

ghost use Rattle.std.specs.Prelude.{◌+◌, ◌<◌};

use card_file::ENOUGH;
use piece_rules::RunRecord;
use state::{CONE_WORK, WORDS, WORK};
use std::rt::{Env, Files, Runtime};

fn main(rt: HostRuntime) {
    let count = card_input::argument_count(&rt);
    if count < 3 || count % 3 == 2 {
        tell_use(&rt);
        return;
    }
    for group in 0..count / 3 {
        take_piece(&rt, 3 * group + 1);
    }
}

fn tell_use<R: Eprint>(rt: &R) {
    let _ = eprintln!(rt;
        "piece_card: groups of a card, a number of steps from 0 to 4294967295, and a state or -"
    );
}

// The group that starts at an argument.
fn take_piece<R: Runtime>(rt: &R, i: usize)
    requires { i + 2 < 18446744073709551616 }
{
    let mut bytes = [0u8; ENOUGH];
    if let Some(length) = card_input::read_argument(rt, i, &mut bytes) {
        take_piece_of(rt, &bytes[..length], i);
    }
}

fn take_piece_of<R: Runtime>(rt: &R, card: &[u8], i: usize)
    requires { i + 2 < 18446744073709551616 }
{
    match card_input::number_argument(rt, i + 1) {
        None => tell_use(rt),
        Some(given) if is_none(rt, i + 2) => begin(rt, card, given),
        Some(given) => go_on(rt, card, given, i + 2),
    }
}

// Whether an argument names no state.
fn is_none<R: Env>(rt: &R, i: usize) -> bool {
    let mut name = [0u8; 2];
    !card_input::is_argument(rt, i) || matches!(rt.arg(i, &mut name), Ok(1)) && name[0] == b'-'
}

fn begin<R: Print + Eprint>(rt: &R, card: &[u8], given: u32) {
    let mut work = [0.0; WORK];
    let mut cone_work = [0.0; CONE_WORK];
    let told = card_pieces::first_of_card(card, given, &mut work, &mut cone_work);
    text::write_told(rt, told, &work, &cone_work);
}

// Goes on from the state that an argument names. Why its file can't be read is told where it is read.
fn go_on<R: Env + Files + Print + Eprint>(rt: &R, card: &[u8], given: u32, i: usize) {
    let mut bytes = [0u8; state::MOST];
    if let Some(length) = card_input::read_file(rt, i, &mut bytes) {
        let mut words = [0u64; WORDS];
        match state::read_state(&bytes[..length], &mut words) {
            Ok(record) => go_on_from(rt, card, given, record, &words),
            Err(damage) => text::write_damaged(rt, damage),
        }
    }
}

fn go_on_from<R: Print + Eprint>(
    rt: &R,
    card: &[u8],
    given: u32,
    record: RunRecord,
    words: &[u64],
) {
    let mut work = card_problem::numbers_from::<WORK>(words, state::WORK_AT);
    let mut cone_work = card_problem::numbers_from::<CONE_WORK>(words, state::CONE_WORK_AT);
    let told = card_pieces::later_of_card(card, record, given, &mut work, &mut cone_work);
    text::write_told(rt, told, &work, &cone_work);
}
