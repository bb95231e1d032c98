// What agrees and what differs, by number.
ghost use Rattle.std.specs.Prelude.{◌≡◌, cond, nat_lt, replicate, slice_index};
ghost use Rattle.tally.specs.Tallies.{counted, total_of};
ghost use Rattle.tally.specs.Counted.{counts};

use std::{fmt, io};

// How many records there are of a kind, how many agree with the list, and how many differ.
#[derive(Clone, Copy)]
pub struct Counts {
    pub records: u64,
    pub agree: u64,
    pub differ: u64,
}

impl Counts {
    pub fn new(agree: u64, differ: u64) -> Self
        ensures { result ≡ counts agree differ }
    {
        Counts {
            records: agree.wrapping_add(differ),
            agree,
            differ,
        }
    }

    // The counts after a name, to the end of the line.
    pub fn write<P: Print>(self, out: &P) {
        lines::write_counts(out, self.records, self.agree, self.differ);
    }

    // The last line: all counts after the list's name. What stopped the replay is a difference too. A write that fails is the error, and the last.
    pub fn write_total<P: Print>(self, out: &P, name: &str, whole: bool) -> io::Result<()> {
        if whole {
            return println!(out; "{name}: {self}");
        }
        let counts = Counts {
            differ: self.differ.wrapping_add(1),
            ..self
        };
        out.println("stopped: a record is cut short, of no known operation, or one too many")?;
        println!(out; "{name}: {counts}")
    }

    // The same lines, of which each part is tried, whatever became of those before it.
    pub fn write_total_each<P: Print>(self, out: &P, name: &str, whole: bool) {
        lines::write_total(
            out,
            name.as_bytes(),
            whole,
            self.records,
            self.agree,
            self.differ,
        );
    }
}

impl fmt::Display for Counts {
    fn fmt<W: fmt::Write>(&self, f: &mut fmt::Formatter<W>) -> fmt::Result {
        let Counts {
            records,
            agree,
            differ,
        } = *self;
        write!(f, "{records} records, {agree} agree, {differ} differ")
    }
}

// Such counts for each number below N.
#[derive(Clone, Copy)]
pub struct Tally<const N: usize> {
    agree: [u64; N],
    differ: [u64; N],
}

impl<const N: usize> Tally<N> {
    pub fn new() -> Self
        ensures agree { result.agree ≡ replicate N 0 }
        ensures differ { result.differ ≡ replicate N 0 }
    {
        Tally {
            agree: [0; N],
            differ: [0; N],
        }
    }

    // One more of a number, which agrees or differs: whether it is counted at all.
    pub fn count(&mut self, at: usize, agrees: bool) -> bool
        ensures answer { result ≡ nat_lt at N }
        ensures agree { self.new.agree ≡ cond agrees (counted self.old.agree at) self.old.agree }
        ensures differ { self.new.differ ≡ cond agrees self.old.differ (counted self.old.differ at) }
    {
        if agrees {
            crate::count(&mut self.agree, at)
        } else {
            crate::count(&mut self.differ, at)
        }
    }

    // The counts of a number, none where it is not counted.
    pub fn of(&self, at: usize) -> Counts
        ensures { result ≡ counts (slice_index self.now.agree at) (slice_index self.now.differ at) }
    {
        if at < N {
            Counts::new(self.agree[at], self.differ[at])
        } else {
            Counts::new(0, 0)
        }
    }

    pub fn total(&self) -> Counts
        ensures { result ≡ counts (total_of self.now.agree) (total_of self.now.differ) }
    {
        Counts::new(crate::total(&self.agree), crate::total(&self.differ))
    }

    // A line for each number that has a name. A write that fails is the error, and the last.
    pub fn write<P: Print, D: fmt::Display + Drop, F: Fn(usize) -> Option<D>>(
        &self,
        out: &P,
        name_of: F,
    ) -> io::Result<()>
        requires { F.IsAlwaysCallable name_of }
    {
        for at in 0..N {
            if let Some(name) = name_of(at) {
                println!(out; "{name}: {}", self.of(at))?;
            }
        }
        Ok(())
    }

    // The same lines. Where a name can't be written its counts are not; the next line is tried all the same.
    pub fn write_each<P: Print, D: fmt::Display + Drop, F: Fn(usize) -> Option<D>>(
        &self,
        out: &P,
        name_of: F,
    )
        requires { F.IsAlwaysCallable name_of }
    {
        for at in 0..N {
            if let Some(name) = name_of(at) {
                if out.print(name).is_ok() {
                    self.of(at).write(out);
                }
            }
        }
    }
}
