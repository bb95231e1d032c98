// What became of a piece, as text on standard output.
use crate::state;
use crate::state::Damage;
use card::Fault;
use card_answer::Told;
use piece_rules::PieceAnswer;
use rules::{Answer, Ending, Logged};
use std::io;

pub(crate) fn write_told<R: Print + Eprint>(
    rt: &R,
    told: Result<Told<PieceAnswer>, Fault>,
    work: &[f64],
    cone_work: &[f64],
) {
    let written = match told {
        Ok(told) => write_answer(rt, told, work, cone_work),
        Err(fault) => write_first(rt, Err(fault)),
    };
    if let Err(e) = written {
        card_input::fail(rt, "standard output", e);
    }
}

// Why a state can't be taken up.
pub(crate) fn write_damaged<R: Print + Eprint>(rt: &R, damage: Damage) {
    if let Err(e) = println!(rt; "State damaged: {damage}") {
        card_input::fail(rt, "standard output", e);
    }
}

fn write_answer<P: Print>(
    out: &P,
    told: Told<PieceAnswer>,
    work: &[f64],
    cone_work: &[f64],
) -> io::Result<()> {
    let Told { rows, cols, answer } = told;
    match answer {
        PieceAnswer::Refused(ending) => {
            let answer = turned_away(ending);
            write_first(out, Ok(Told { rows, cols, answer }))
        }
        PieceAnswer::StaleRun => println!(out; "Refused 7"),
        PieceAnswer::Halted(record) => {
            println!(out; "Halted {} {}", record.steps, record.rotations)?;
            state::write_state(out, record, work, cone_work)
        }
        PieceAnswer::Ended(answer, record) => {
            write_first(out, Ok(Told { rows, cols, answer }))?;
            state::write_numbers(out, solution::solution_x(work, cols))?;
            state::write_numbers(out, solution::solution_y(work, rows, cols))?;
            state::write_state(out, record, work, cone_work)
        }
    }
}

// A refusal takes no step.
fn turned_away(ending: Ending) -> Logged {
    let answer = Answer {
        ending,
        steps: 0,
        rotations: 0,
    };
    Logged {
        answer,
        written: 0,
        dropped: 0,
    }
}

// The first line of the text that solve_card writes.
fn write_first<P: Print>(out: &P, told: Result<Told<Logged>, Fault>) -> io::Result<()> {
    let mut text = [0u8; card_text::TEXT_ROOM];
    let end = card_text::first_line(told.map_err(Fault::number), &mut text);
    out.write_all(&text[..end])
}
