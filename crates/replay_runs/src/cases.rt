// The runs worked by hand in document 01 that are left to a program.
use lines::write_case;
use rules::{Cols, Rows, SolverParam, Storage};

// How many numbers of c, A or b, and how many places of work there may be.
const ROOM: usize = 16;

const WORK_ROOM: usize = 64;

// The answer to a dense problem of zeros, with so many numbers of c and of A, places of work, and one
// cone word.
fn of_zeros(m: usize, n: usize, c: usize, a: usize, work: usize, word: u16) -> u64 {
    if m > ROOM || c > ROOM || a > ROOM || work > WORK_ROOM {
        return 0;
    }
    let zeros = [0.0; ROOM];
    let mut lent = [0.0; WORK_ROOM];
    let mut cone_work = [0.0; 12];
    let answer = solver::solve(
        SolverParam::new(1, 64),
        Rows(m),
        Cols(n),
        Storage::Dense,
        &zeros[..c],
        &zeros[..a],
        &zeros[..m],
        &[word],
        &mut lent[..work],
        &mut cone_work,
    );
    replay_answers::number_of(answer.ending)
}

// The words are a semidefinite block of 3 and of 4. Sizes at the limit are in limit_cases.
pub fn write_cases<P: Print>(out: &P) {
    lines::write(out, b"kind 4 of size 3, accepted");
    write_case(out, of_zeros(3, 1, 1, 3, 42, 32771) > 6);
    lines::write(out, b"kind 4 of size 4, refused by 4");
    write_case(out, of_zeros(4, 1, 1, 4, 52, 32772) == 4);
    lines::write(out, b"c of wrong length and short work, refused by 3");
    write_case(out, of_zeros(3, 1, 2, 3, 41, 32771) == 3);
}
