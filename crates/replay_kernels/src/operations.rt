// The operations of the list, by their numbers: whether a record's answer is this repository's too.
use replay::{record, room};
use replay_routines::routines;
use replay_routines::routines::Routine;
use rules::{Cols, MatType, Rows};

#[derive(Clone, Copy)]
pub enum Operation {
    Norm,
    Copy,
    Scale,
    Add,
    Adds,
    Abssum,
    TransformDi,
    TransformGe,
    TransformSp,
    Op,
    TransOp,
    AbsaddCols,
    AbsaddRows,
    Larger,
    Smaller,
    Magnitude,
    Reciprocal,
}

impl TryFrom<u64> for Operation {
    type Error = ();

    fn try_from(number: u64) -> Result<Operation, ()> {
        match number {
            1 => Ok(Operation::Norm),
            2 => Ok(Operation::Copy),
            3 => Ok(Operation::Scale),
            4 => Ok(Operation::Add),
            5 => Ok(Operation::Adds),
            6 => Ok(Operation::Abssum),
            7 => Ok(Operation::TransformDi),
            8 => Ok(Operation::TransformGe),
            9 => Ok(Operation::TransformSp),
            10 => Ok(Operation::Op),
            11 => Ok(Operation::TransOp),
            12 => Ok(Operation::AbsaddCols),
            13 => Ok(Operation::AbsaddRows),
            20 => Ok(Operation::Larger),
            21 => Ok(Operation::Smaller),
            22 => Ok(Operation::Magnitude),
            23 => Ok(Operation::Reciprocal),
            _ => Err(()),
        }
    }
}

impl Operation {
    pub fn name(self) -> &'static str {
        match self {
            Operation::Norm => "norm",
            Operation::Copy => "copy",
            Operation::Scale => "scale",
            Operation::Add => "add",
            Operation::Adds => "adds",
            Operation::Abssum => "abssum",
            Operation::TransformDi => "transform_di",
            Operation::TransformGe => "transform_ge",
            Operation::TransformSp => "transform_sp",
            Operation::Op => "op",
            Operation::TransOp => "trans_op",
            Operation::AbsaddCols => "absadd_cols",
            Operation::AbsaddRows => "absadd_rows",
            Operation::Larger => "larger",
            Operation::Smaller => "smaller",
            Operation::Magnitude => "magnitude",
            Operation::Reciprocal => "reciprocal",
        }
    }

    pub fn agrees(self, record: &[u8]) -> bool {
        match self {
            Operation::Norm => norm(record),
            Operation::Copy => copy(record),
            Operation::Scale => changes(record, linalg::scale),
            Operation::Add => add(record),
            Operation::Adds => changes(record, linalg::adds),
            Operation::Abssum => abssum(record),
            Operation::TransformDi => transform_di(record),
            Operation::TransformGe => transform_ge(record),
            Operation::TransformSp => transform_sp(record),
            Operation::Op => op(record),
            Operation::TransOp => trans_op(record),
            Operation::AbsaddCols => absadd_cols(record),
            Operation::AbsaddRows => absadd_rows(record),
            Operation::Larger => of_two(record, float::larger),
            Operation::Smaller => of_two(record, float::smaller),
            Operation::Magnitude => of_one(record, float::magnitude),
            Operation::Reciprocal => of_one(record, float::reciprocal),
        }
    }
}

fn norm(record: &[u8]) -> bool {
    let n = record::size(record, 0);
    if n > room::ROOM || record::words(record) != n + 2 {
        return false;
    }
    let x = room::numbers(record, 1, n);
    record::holds_one(record, n + 1, sums::norm(&x[..n]))
}

fn copy(record: &[u8]) -> bool {
    let n = record::size(record, 0);
    routines::agrees(Routine::Copy, record, 1, 0, n)
}

fn add(record: &[u8]) -> bool {
    let n = record::size(record, 0);
    let alpha = record::number(record, 1);
    routines::agrees(Routine::Add(alpha), record, 2, 0, n)
}

// Whether a routine that changes a vector by a number makes of it what the record holds.
fn changes<F: FnOnce(f64, &mut [f64])>(record: &[u8], change: F) -> bool
    requires { F.IsAlwaysCallable change }
{
    let n = record::size(record, 0);
    if n > room::ROOM || record::words(record) != 2 * n + 2 {
        return false;
    }
    let mut y = room::numbers(record, 2, n);
    change(record::number(record, 1), &mut y[..n]);
    record::holds(record, n + 2, &y[..n])
}

fn abssum(record: &[u8]) -> bool {
    let n = record::size(record, 0);
    if n > room::ROOM || record::words(record) != n + 3 {
        return false;
    }
    let x = room::numbers(record, 2, n);
    let sum = sums::abssum(&x[..n], record::size(record, 1));
    record::holds_one(record, n + 2, sum)
}

fn transform_di(record: &[u8]) -> bool {
    let n = record::size(record, 0);
    let alpha = record::number(record, 1);
    let beta = record::number(record, 2);
    routines::agrees(Routine::TransformDi(alpha, beta), record, 3, n, n)
}

fn transform_sp(record: &[u8]) -> bool {
    let n = record::size(record, 0);
    let alpha = record::number(record, 1);
    let beta = record::number(record, 2);
    routines::agrees(Routine::TransformSp(Rows(n), alpha, beta), record, 3, n, n)
}

// Rows and columns, which stand after a flag.
fn sizes(record: &[u8]) -> (usize, usize) {
    (record::size(record, 1), record::size(record, 2))
}

// The flag says whether the matrix is transposed.
fn transform_ge(record: &[u8]) -> bool {
    let (rows, cols) = sizes(record);
    let Some(transpose) = record::flag(record, 0) else {
        return false;
    };
    let (width, height) = if transpose {
        (rows, cols)
    } else {
        (cols, rows)
    };
    let alpha = record::number(record, 3);
    let beta = record::number(record, 4);
    routines::agrees(
        Routine::TransformGe(transpose, Rows(rows), Cols(cols), alpha, beta),
        record,
        5,
        width,
        height,
    )
}

// The flag says whether the matrix is packed, and then it is a square.
fn mat_type(record: &[u8]) -> Option<MatType> {
    let (rows, cols) = sizes(record);
    let packed = record::flag(record, 0)?;
    if !packed {
        return Some(MatType::General(Rows(rows), Cols(cols)));
    }
    (rows == cols).then_some(MatType::SymPack(Rows(rows)))
}

fn op(record: &[u8]) -> bool {
    let Some(t) = mat_type(record) else {
        return false;
    };
    let (rows, cols) = sizes(record);
    let alpha = record::number(record, 3);
    let beta = record::number(record, 4);
    routines::agrees(Routine::Op(t, alpha, beta), record, 5, cols, rows)
}

fn trans_op(record: &[u8]) -> bool {
    let Some(t) = mat_type(record) else {
        return false;
    };
    let (rows, cols) = sizes(record);
    let alpha = record::number(record, 3);
    let beta = record::number(record, 4);
    routines::agrees(Routine::TransOp(t, alpha, beta), record, 5, rows, cols)
}

fn absadd_cols(record: &[u8]) -> bool {
    let Some(t) = mat_type(record) else {
        return false;
    };
    let (_, cols) = sizes(record);
    routines::agrees(Routine::AbsaddCols(t), record, 3, 0, cols)
}

fn absadd_rows(record: &[u8]) -> bool {
    let Some(t) = mat_type(record) else {
        return false;
    };
    let (rows, _) = sizes(record);
    routines::agrees(Routine::AbsaddRows(t), record, 3, 0, rows)
}

// Whether a helper makes of the first number the one that the record holds after it.
fn of_one<F: FnOnce(f64) -> f64>(record: &[u8], helper: F) -> bool
    requires { F.IsAlwaysCallable helper }
{
    let made = helper(record::number(record, 0));
    record::words(record) == 2 && record::holds_one(record, 1, made)
}

fn of_two<F: FnOnce(f64, f64) -> f64>(record: &[u8], helper: F) -> bool
    requires { F.IsAlwaysCallable helper }
{
    let made = helper(record::number(record, 0), record::number(record, 1));
    record::words(record) == 3 && record::holds_one(record, 2, made)
}
