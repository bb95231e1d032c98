// The operations of the list, by their numbers: whether a record's answer is this repository's too.
// Each routine is then asked again with one place too many, or too few, and has to turn that down
// and leave everything as it is.
use replay::{record, room};
use replay_lists::lists;
use replay_semidefinite::semidefinite;
use rules::Cone;

#[derive(Clone, Copy)]
pub enum Operation {
    Zero,
    Nonnegative,
    SecondOrder,
    Rotated,
    Semidefinite,
    Product,
    Grouping,
}

impl TryFrom<u64> for Operation {
    type Error = ();

    fn try_from(number: u64) -> Result<Operation, ()> {
        match number {
            1 => Ok(Operation::Zero),
            2 => Ok(Operation::Nonnegative),
            3 => Ok(Operation::SecondOrder),
            4 => Ok(Operation::Rotated),
            5 => Ok(Operation::Semidefinite),
            6 => Ok(Operation::Product),
            7 => Ok(Operation::Grouping),
            _ => Err(()),
        }
    }
}

impl Operation {
    pub fn name(self) -> &'static str {
        match self {
            Operation::Zero => "zero",
            Operation::Nonnegative => "nonnegative",
            Operation::SecondOrder => "second-order",
            Operation::Rotated => "rotated",
            Operation::Semidefinite => "semidefinite",
            Operation::Product => "product",
            Operation::Grouping => "grouping",
        }
    }

    pub fn agrees(self, record: &[u8]) -> bool {
        match self {
            Operation::Zero => projects(Cone::Zero(record::size(record, 1)), record),
            Operation::Nonnegative => projects(Cone::RPos(record::size(record, 1)), record),
            Operation::SecondOrder => projects(Cone::SOC(record::size(record, 1)), record),
            Operation::Rotated => projects(Cone::RotSOC(record::size(record, 1)), record),
            Operation::Semidefinite => semidefinite::agrees(record),
            Operation::Product => lists::agrees(false, record),
            Operation::Grouping => lists::agrees(true, record),
        }
    }
}

// Whether one block that needs no cone work is projected as a record says.
fn projects(cone: Cone, record: &[u8]) -> bool {
    let Some(dual) = record::flag(record, 0) else {
        return false;
    };
    let size = record::size(record, 1);
    if size >= room::ROOM || record::words(record) != 2 * size + 2 {
        return false;
    }
    let mut x = room::numbers(record, 2, size);
    // Past the record's end stands +0, as in the place too many.
    projects_and_not(cone, dual, &mut x, size) && record::holds(record, size + 2, &x[..size + 1])
}

// Projects the first places of x, and again one place more: whether that is done without a rotation,
// and then turned down.
fn projects_and_not(cone: Cone, dual: bool, x: &mut [f64], size: usize) -> bool {
    if x.len() <= size {
        return false;
    }
    let par = semidefinite::parameters(0.0, 1);
    let once = cone::proj(par, dual, cone, &mut x[..size], &mut []);
    let again = cone::proj(par, dual, cone, &mut x[..size + 1], &mut []);
    semidefinite::is_done(once, 0) && semidefinite::is_no(again)
}
