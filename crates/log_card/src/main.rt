// Solves cards with a progress record: the first argument is the period of its rows, the others name files as
// those of solve_card do. For each card the first line of its answer is written to standard output; then, of an
// ending, the rows written and dropped, and each row that was written: its step, and four numbers.
#![tactic(auto)]

mod rows;

use card::Fault;
use card_answer::Told;
use card_file::ENOUGH;
use rules::Logged;
use std::io;
use std::rt::Runtime;

fn main(rt: HostRuntime) {
    match card_input::number_argument(&rt, 1) {
        None => {
            let _ = eprintln!(rt;
                "log_card: the period of the rows is a whole number from 0 to 4294967295"
            );
        }
        Some(period) => log_all(&rt, period),
    }
}

fn log_all<R: Runtime>(rt: &R, period: u32) {
    log_argument(rt, 2, period);
    for i in 3..card_input::argument_count(rt) {
        log_argument(rt, i, period);
    }
}

fn log_argument<R: Runtime>(rt: &R, i: usize, period: u32) {
    let mut bytes = [0u8; ENOUGH];
    if let Some(length) = card_input::read_argument(rt, i, &mut bytes) {
        log(rt, &bytes[..length], period);
    }
}

// Writes the answer to a card and the record of its run.
fn log<R: Print + Eprint>(rt: &R, bytes: &[u8], period: u32) {
    let mut work = [0.0; card_answer::WORK];
    let mut record = rows::empty();
    let told = card_answer::logged_answer(bytes, period, &mut work, &mut record);
    if let Err(e) = write_told(rt, told, period, &record) {
        card_input::fail(rt, "standard output", e);
    }
}

fn write_told<P: Print>(
    out: &P,
    told: Result<Told<Logged>, Fault>,
    period: u32,
    record: &[f64],
) -> io::Result<()> {
    let mut text = [0u8; card_text::TEXT_ROOM];
    let end = card_text::first_line(told.map_err(Fault::number), &mut text);
    out.write_all(&text[..end])?;
    match told {
        Ok(told) => rows::write_record(out, told.answer, period, record),
        Err(_) => Ok(()),
    }
}
