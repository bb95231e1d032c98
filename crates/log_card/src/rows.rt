// The rows of a progress record as text.
use rules::Logged;
use std::io;

// So many rows are kept of a run, of four places each.
const ROWS: usize = 4096;

const PLACES: usize = 4 * ROWS;

pub(crate) fn empty() -> [f64; PLACES] {
    [0.0; PLACES]
}

// Writes the rows of a run and how many there are, and nothing of a refusal, which takes no step.
pub(crate) fn write_record<P: Print>(
    out: &P,
    logged: Logged,
    period: u32,
    record: &[f64],
) -> io::Result<()> {
    if logged.answer.steps == 0 {
        return Ok(());
    }
    println!(out; "rows {} {}", logged.written, logged.dropped)?;
    let mut step: u64 = 1;
    for row in record.chunks_exact(4).take(logged.written as usize) {
        write_row(out, step, row)?;
        step = step.wrapping_add(u64::from(period));
    }
    Ok(())
}

// Writes a row after its step.
fn write_row<P: Print>(out: &P, step: u64, row: &[f64]) -> io::Result<()> {
    print!(out; "{step}")?;
    for &number in row {
        print!(out; " {:016x}", patterns::pattern_of(number))?;
    }
    println!(out)
}
