// What no clause says of reading: reads that are interrupted, and reads that fail.
use lines::{next_word, read_word, replay_all, replay_records};
use std::io;
use std::io::Read;
use std::test::Fail;

// A record of the tag 7 and of one word, 258.
const LIST: [u8; 24] = [
    0, 0, 0, 0, 0, 0, 0, 7, 0, 0, 0, 0, 0, 0, 0, 1, 0, 0, 0, 0, 0, 0, 1, 2,
];

// Whether it is that record.
fn is_the_record(tag: u64, record: &[u8]) -> bool {
    tag == 7 && record.len() == 8 && patterns::word_at(record, 0) == 258
}

// A reader of whose reads the one of a number fails, and of the others two of three are interrupted.
#[derive(Drop)]
struct Faulty<'a> {
    bytes: &'a [u8],
    reads: u64,
    fails: u64,
}

impl Read for Faulty<'_> {
    fn read(&mut self, buffer: &mut [u8]) -> io::Result<usize> {
        let read = self.reads;
        self.reads = read.wrapping_add(1);
        if read == self.fails {
            Err(io::ErrorKind::StorageFull.into())
        } else if read % 3 < 2 {
            Err(io::ErrorKind::Interrupted.into())
        } else {
            self.bytes.read(buffer)
        }
    }
}

fn failing<'a>(fails: u64) -> Faulty<'a> {
    Faulty {
        bytes: &LIST,
        reads: 0,
        fails,
    }
}

// Of its reads none fails.
fn interrupted<'a>(bytes: &'a [u8]) -> Faulty<'a> {
    Faulty {
        bytes,
        reads: 0,
        fails: u64::MAX,
    }
}

#[test]
fn words_are_read_whatever_interrupts(rt: HostRuntime) -> Result<(), Fail> {
    let mut input = interrupted(&LIST);
    for want in [7, 1, 258] {
        assert_eq!(rt; read_word(&mut input)?, want);
    }
    assert!(rt; read_word(&mut input).is_err(), "nothing is left");
    assert!(rt;
        next_word(&mut interrupted(&LIST)).is_err(),
        "it ends there"
    );
    Ok(())
}

#[test]
fn records_are_replayed_whatever_interrupts(rt: HostRuntime) {
    let mut room = [0; 8];
    assert!(rt; replay_all(&mut interrupted(&LIST), 1, &mut room, is_the_record));
    assert!(rt;
        !replay_all(&mut interrupted(&LIST), 2, &mut room, is_the_record),
        "one is missing"
    );
    assert!(rt;
        !replay_all(&mut interrupted(&LIST), 0, &mut room, is_the_record),
        "one too many"
    );
    assert!(rt;
        !replay_all(&mut interrupted(&LIST[..23]), 1, &mut room, is_the_record),
        "cut short"
    );
    assert!(rt; !replay_all(&mut interrupted(&LIST), 1, &mut room, |_, _| false));
    assert!(rt;
        !replay_all(&mut interrupted(&LIST), 1, &mut [], is_the_record),
        "no room"
    );
    assert!(rt;
        !replay_records(&mut interrupted(&LIST), 1, &mut room, is_the_record),
        "it ends there"
    );
}

// Each of the first three reads, of which the third gives a word; and each of the nine that a record takes.
#[test]
fn a_read_that_fails_is_the_error(rt: HostRuntime) {
    for fails in 0..3 {
        let failed = read_word(&mut failing(fails));
        assert!(rt;
            matches!(failed, Err(e) if e.kind() == io::ErrorKind::StorageFull),
            "at {fails}"
        );
    }
    let mut room = [0; 8];
    for fails in 0..9 {
        assert!(rt;
            !replay_all(&mut failing(fails), 1, &mut room, is_the_record),
            "at {fails}"
        );
    }
}
