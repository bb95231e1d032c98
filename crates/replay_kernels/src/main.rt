// Replays the original's answers of the vector and matrix routines and the float helpers: standard
// input holds the number of records and then the records, as compare/README.md says. Each answer is
// had again from this repository's routines and held to the list.
#![tactic(auto)]

mod operations;

use operations::Operation;
use std::io::Read;
use tally::{Counts, Tally};

// One more than the largest number of an operation.
const OPERATIONS: usize = 24;

// The longest record, of 1,024 words.
const RECORD_BYTES: usize = 8192;

// Replays a record of the operation of this number, if there is one.
fn replay(number: u64, record: &[u8], tally: &mut Tally<OPERATIONS>) -> bool {
    let Ok(operation) = Operation::try_from(number) else {
        return false;
    };
    tally.count(number as usize, operation.agrees(record))
}

fn name_of(number: usize) -> Option<&'static str> {
    Operation::try_from(number as u64).ok().map(Operation::name)
}

fn run<R: Read, P: Print>(input: &mut R, out: &P) {
    let Ok(records) = lines::next_word(input) else {
        lines::write(out, b"stopped: there is no list\n");
        return;
    };
    let mut room = [0; RECORD_BYTES];
    let mut tally = Tally::new();
    let whole = lines::replay_records(input, records, &mut room, |number, record| {
        replay(number, record, &mut tally)
    });
    tally.write_each(out, name_of);
    Counts {
        records,
        ..tally.total()
    }
    .write_total_each(out, "kernels", whole);
}

fn main(rt: HostRuntime) {
    run(&mut rt.stdin(), &rt);
}
