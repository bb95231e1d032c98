// Routines that answer whether the lengths fit: one that takes a matrix, x and y, and changes y alone, where without a matrix x stands in its place; and a
// projection, which changes x and its cone work, and answers two words.
use replay::{record, room};
use rules::{Cols, MatType, Rows};

// The routines of vectors and matrices, each with the sizes and factors of its record.
#[derive(Clone, Copy)]
pub enum Routine {
    Copy,
    // alpha
    Add(f64),
    // alpha, beta
    TransformDi(f64, f64),
    TransformGe(bool, Rows, Cols, f64, f64),
    TransformSp(Rows, f64, f64),
    Op(MatType, f64, f64),
    TransOp(MatType, f64, f64),
    AbsaddCols(MatType),
    AbsaddRows(MatType),
}

impl Routine {
    // First is its matrix and second its x; without a matrix, first is its x.
    fn run(self, first: &[f64], second: &[f64], y: &mut [f64]) -> bool {
        match self {
            Routine::Copy => linalg::copy(first, y),
            Routine::Add(alpha) => linalg::add(alpha, first, y),
            Routine::TransformDi(alpha, beta) => {
                linalg::transform_di(alpha, first, second, beta, y)
            }
            Routine::TransformGe(transpose, rows, cols, alpha, beta) => transform::transform_ge(
                transpose, rows, cols, alpha, first, second, beta, y,
            ),
            Routine::TransformSp(rows, alpha, beta) => packed_transform::transform_sp(
                rows, alpha, first, second, beta, y,
            ),
            Routine::Op(t, alpha, beta) => matop::op(t, alpha, first, second, beta, y),
            Routine::TransOp(t, alpha, beta) => matop::trans_op(t, alpha, first, second, beta, y),
            Routine::AbsaddCols(t) => absadd::absadd_cols(t, first, y),
            Routine::AbsaddRows(t) => absadd::absadd_rows(t, first, y),
        }
    }
}

// Replays one of these, as agrees_with says. It asks nothing, where a closure must be one that may be called.
pub fn agrees(routine: Routine, record: &[u8], start: usize, width: usize, height: usize) -> bool {
    agrees_with(
        |first, second, y| routine.run(first, second, y),
        record,
        start,
        width,
        height,
    )
}

// Runs a routine on the first n places of y, and again on one place more, which is one too many:
// whether it answers yes and then no.
fn fits_and_not<F: FnMut(&[f64], &[f64], &mut [f64]) -> bool>(
    mut routine: F,
    first: &[f64],
    second: &[f64],
    y: &mut [f64],
    n: usize,
) -> bool
    requires { F.IsAlwaysCallable routine }
{
    n < y.len() && routine(first, second, &mut y[..n]) && !routine(first, second, &mut y[..n + 1])
}

// Replays a routine: whether it takes the record's numbers and answers as the list says, and then
// turns a y down that is one place too long, and leaves it as it is. The numbers start at a place of
// the record: the matrix, or x where there is none; x, of the width; y, of the height; the answer.
// The first of these is what the others leave of the record, and the routine says whether it fits.
pub fn agrees_with<F: FnMut(&[f64], &[f64], &mut [f64]) -> bool>(
    routine: F,
    record: &[u8],
    start: usize,
    width: usize,
    height: usize,
) -> bool
    requires { F.IsAlwaysCallable routine }
{
    if start > room::ROOM || width > room::ROOM || height >= room::ROOM {
        return false;
    }
    let words = record::words(record);
    if words < start + width + 2 * height {
        return false;
    }
    let y_at = words - 2 * height;
    let stored = y_at - width - start;
    if stored > room::ROOM {
        return false;
    }
    let first = room::numbers(record, start, stored);
    let second = room::numbers(record, y_at - width, width);
    let mut y = room::numbers(record, y_at, height);
    // Past the record's end stands +0, as in the place too many.
    fits_and_not(routine, &first[..stored], &second[..width], &mut y, height)
        && record::holds(record, words - height, &y[..height + 1])
}

// Projects the first places of x, and then one place more, which is one too many, and with one place of cone work fewer than are used: what the first comes to,
// where the others are turned down.
fn projects_and_not<F: FnMut(&mut [f64], &mut [f64]) -> Option<(u64, u64)>>(
    mut project: F,
    x: &mut [f64],
    places: usize,
    work: &mut [f64],
    used: usize,
) -> Option<(u64, u64)>
    requires { F.IsAlwaysCallable project }
{
    if x.len() <= places || work.len() < used {
        return None;
    }
    let answer = project(&mut x[..places], work)?;
    if project(&mut x[..places + 1], work).is_some() {
        return None;
    }
    if used > 0 && project(&mut x[..places], &mut work[..used - 1]).is_some() {
        return None;
    }
    Some(answer)
}

// Replays a projection, whose record holds from a place on x; the two words of the answer; x, projected; and the places of cone work that are used. All of cone
// work holds one number before, and what lies past the places that are used must hold it afterwards.
pub fn projects<F: FnMut(&mut [f64], &mut [f64]) -> Option<(u64, u64)>>(
    project: F,
    record: &[u8],
    at: usize,
    places: usize,
    before: f64,
) -> bool
    requires { F.IsAlwaysCallable project }
{
    if at > room::ROOM || places >= room::ROOM {
        return false;
    }
    let answer_at = at + places;
    let x_at = answer_at + 2;
    let work_at = x_at + places;
    let words = record::words(record);
    if words < work_at || words - work_at > room::ROOM {
        return false;
    }
    let used = words - work_at;
    let mut x = room::numbers(record, at, places);
    let mut work = [before; room::ROOM];
    let Some((one, other)) = projects_and_not(project, &mut x, places, &mut work, used) else {
        return false;
    };
    one == record::word(record, answer_at)
        && other == record::word(record, answer_at + 1)
        && record::holds_before(record, x_at, &x, places, 0)
        && record::holds_before(record, work_at, &work, used, patterns::pattern_of(before))
}
