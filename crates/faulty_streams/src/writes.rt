// What no clause says of writing: the lines, and writes that fail.
use std::alloc::Allocator;
use std::cell::Cell;
use std::test::Fail;
use std::{fmt, io};
use tally::{Counts, Tally};

// Two of three numbers have a name.
fn name_of(number: usize) -> Option<&'static str> {
    match number {
        0 => Some("none"),
        2 => Some("two"),
        _ => None,
    }
}

// Takes so many writes and fails at each further one; how many were tried.
#[derive(Drop)]
struct Taking {
    takes: Cell<u64>,
    tried: Cell<u64>,
}

impl Taking {
    fn of(takes: u64) -> Self {
        Taking {
            takes: Cell::new(takes),
            tried: Cell::new(0),
        }
    }

    fn take(&self) -> io::Result<()> {
        self.tried.set(self.tried.get().wrapping_add(1));
        let left = self.takes.get();
        if left == 0 {
            return Err(io::ErrorKind::StorageFull.into());
        }
        self.takes.set(left - 1);
        Ok(())
    }
}

impl Print for Taking {
    fn print<D: fmt::Display + Drop>(&self, value: D) -> io::Result<()> {
        let _ = value;
        self.take()
    }

    fn println<D: fmt::Display + Drop>(&self, value: D) -> io::Result<()> {
        let _ = value;
        self.take()
    }

    fn write_all(&self, bytes: &[u8]) -> io::Result<()> {
        let _ = bytes;
        self.take()
    }
}

// Whether it is the error of a write that Taking does not take.
fn is_full(answer: io::Result<()>) -> bool {
    matches!(answer, Err(e) if e.kind() == io::ErrorKind::StorageFull)
}

#[test]
fn a_write_that_fails_ends_a_tally(rt: HostRuntime) {
    let tally = Tally::<3>::new();
    for takes in 0..2 {
        let out = Taking::of(takes);
        assert!(rt; is_full(tally.write(&out, name_of)), "at {takes}");
        assert_eq!(rt; out.tried.get(), takes + 1, "at {takes}");
        // a name that fails has no counts after it; where one is written, seven more writes are tried
        let each = Taking::of(takes);
        tally.write_each(&each, name_of);
        assert_eq!(rt;
            each.tried.get(),
            if takes == 0 { 2 } else { 9 },
            "at {takes}"
        );
    }
    assert!(rt; tally.write(&Taking::of(2), name_of).is_ok());
}

#[test]
fn a_write_that_fails_ends_a_total(rt: HostRuntime) {
    let counts = Counts::new(3, 1);
    for (whole, lines) in [(true, 1), (false, 2)] {
        for takes in 0..lines {
            let out = Taking::of(takes);
            assert!(rt;
                is_full(counts.write_total(&out, "all", whole)),
                "at {takes}"
            );
            assert_eq!(rt; out.tried.get(), takes + 1, "at {takes}");
        }
        assert!(rt; counts.write_total(&Taking::of(lines), "all", whole).is_ok());
    }
}

// Holds each line against the one that is wanted.
#[derive(Drop)]
struct Wanting<'a, A> {
    alloc: A,
    want: &'a [&'a str],
    at: Cell<usize>,
    agree: Cell<bool>,
}

impl<'a, A: Allocator + Clone> Wanting<'a, A> {
    fn of(alloc: A, want: &'a [&'a str]) -> Self {
        Wanting {
            alloc,
            want,
            at: Cell::new(0),
            agree: Cell::new(true),
        }
    }

    // Whether all lines came, and no other.
    fn has_all(&self) -> bool {
        self.agree.get() && self.at.get() == self.want.len()
    }
}

impl<A: Allocator + Clone> Print for Wanting<'_, A> {
    fn print<D: fmt::Display + Drop>(&self, value: D) -> io::Result<()> {
        let _ = value;
        self.agree.set(false);
        Ok(())
    }

    fn println<D: fmt::Display + Drop>(&self, value: D) -> io::Result<()> {
        let text = format!(in self.alloc.clone()?; "{value}")?;
        let at = self.at.get();
        if at >= self.want.len() || text.as_str() != self.want[at] {
            self.agree.set(false);
        }
        self.at.set(at.wrapping_add(1));
        Ok(())
    }

    fn write_all(&self, bytes: &[u8]) -> io::Result<()> {
        let _ = bytes;
        self.agree.set(false);
        Ok(())
    }
}

#[test]
fn counts_are_shown(rt: HostRuntime) -> Result<(), Fail> {
    let text = format!(in rt.alloc(); "{}", Counts::new(3, 1))?;
    assert_eq!(rt; text.as_str(), "4 records, 3 agree, 1 differ");
    Ok(())
}

#[test]
fn lines_say_all_counts(rt: HostRuntime) {
    let mut tally = Tally::<3>::new();
    for (number, agrees) in [(0, true), (2, true), (2, true), (2, false)] {
        tally.count(number, agrees);
    }
    let want = [
        "none: 1 records, 1 agree, 0 differ",
        "two: 3 records, 2 agree, 1 differ",
    ];
    let out = Wanting::of(rt.alloc(), &want);
    assert!(rt; tally.write(&out, name_of).is_ok());
    assert!(rt; out.has_all());

    let want = [
        "all: 4 records, 3 agree, 1 differ",
        "stopped: a record is cut short, of no known operation, or one too many",
        "all: 4 records, 3 agree, 2 differ",
        "stopped: a record is cut short, of no known operation, or one too many",
        "all: 18446744073709551615 records, 0 agree, 0 differ",
    ];
    let out = Wanting::of(rt.alloc(), &want);
    let total = tally.total();
    assert!(rt; total.write_total(&out, "all", true).is_ok());
    assert!(rt; total.write_total(&out, "all", false).is_ok());
    assert!(rt;
        Counts::new(0, u64::MAX)
            .write_total(&out, "all", false)
            .is_ok()
    );
    assert!(rt; out.has_all());
}
