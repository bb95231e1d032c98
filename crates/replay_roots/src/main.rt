// Replays the original's square roots: standard input holds the number of records and then, for each,
// the pattern of a number and that of its root, as compare/README.md says. Each root is taken again
// by root::root and held to the list.
#![tactic(auto)]

use std::io::Read;
use tally::{Counts, Tally};

// Whether the next record's root is had here too; none where it is cut short. Both words are read at once: each read is a call of the system's.
fn agrees<R: Read>(input: &mut R) -> Option<bool> {
    let mut record = [0; 16];
    if !lines::read(input, &mut record, 16) {
        return None;
    }
    let x = patterns::number_of(patterns::word_at(&record, 0));
    Some(patterns::pattern_of(root::root(x)) == patterns::word_at(&record, 8))
}

// Replays so many records, or up to one that is cut short.
fn replay<R: Read>(input: &mut R, records: u64) -> Counts {
    let mut tally = Tally::<1>::new();
    for _ in 0..records {
        let Some(agrees) = agrees(input) else {
            break;
        };
        tally.count(0, agrees);
    }
    Counts {
        records,
        ..tally.of(0)
    }
}

fn run<R: Read, P: Print>(input: &mut R, out: &P) {
    // Of a list that is cut short here, what there is counts.
    let mut head = [0; 8];
    lines::read_full(input, &mut head);
    let counts = replay(input, u64::from_be_bytes(head));
    lines::write(out, b"roots");
    counts.write(out);
}

fn main(rt: HostRuntime) {
    run(&mut rt.stdin(), &rt);
}
