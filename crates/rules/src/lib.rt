// What is right. The rules stand in specs/, in document 01's order and words; this file declares
// the types that the rules and the code share.
#![tactic(auto)]

ghost use Rattle.std.specs.Prelude.{◌≡◌};
ghost use Rattle.rules.specs.Parameters.{param_made, param_of, with_eps_zero, with_log_period, with_edition, defaults};

// The most rows and the most columns of a matrix, which are the largest m and n.
pub const LIMIT: usize = 1024;

// Number of rows and number of columns are types of their own, so the two can't be swapped by mistake.
#[derive(Clone, Copy)]
pub struct Rows(pub usize);

#[derive(Clone, Copy)]
pub struct Cols(pub usize);

// The kinds of matrix, with their sizes: any matrix by columns, or a symmetric one, of which the upper
// triangle is stored, by columns.
#[derive(Clone, Copy)]
pub enum MatType {
    General(Rows, Cols),
    SymPack(Rows),
}

// A block of the cone list, with its number of places; of a semidefinite block, its order.
#[derive(Clone, Copy)]
pub enum Cone {
    Zero(usize),
    RPos(usize),
    SOC(usize),
    RotSOC(usize),
    PSD(usize),
}

// The most sweeps that Jacobi's method may be allowed.
pub const MOST_SWEEPS: u64 = 64;

// How a matrix is stored: all of it by columns, or the upper triangle of a symmetric one.
#[derive(Clone, Copy)]
pub enum Storage {
    Dense,
    Packed,
}

// The sizes of a problem, how its matrix is stored, and how it stands in two slices: of a dense one the first holds so many columns and
// the second the rest; a packed one stands in the first.
#[derive(Clone, Copy)]
pub struct Shape {
    pub rows: Rows,
    pub cols: Cols,
    pub storage: Storage,
    pub first: Cols,
}

// The largest max_iter, and the most cone words.
pub const MOST_STEPS: u64 = 1000000;

pub const MOST_WORDS: usize = 128;

// The most groups of cone words that may stand in one another.
pub const MOST_DEEP: usize = 8;

// The most places of a list of blocks: their rotations, at most MOST_SWEEPS a place, then fit 64 bits.
pub const MOST_PLACES: usize = (u64::MAX / MOST_SWEEPS) as usize;

// The parameters of a run.
#[derive(Clone, Copy)]
pub struct SolverParam {
    pub max_iter: u64,
    pub eps_acc: f64,
    pub eps_inf: f64,
    pub eps_zero: f64,
    pub sweep_limit: u64,
    // Which steps a progress record has: 1, 1 + log_period, 1 + 2 * log_period and so on; 0 means none.
    pub log_period: u32,
    // How norms and matrix products are added up: 1 from the left, 2 by halves.
    pub edition: u32,
}

impl SolverParam {
    pub const EPS_ACC: f64 = 0.000001;

    pub const EPS_INF: f64 = 0.000001;

    pub const EPS_ZERO: f64 = 0.000000000001;

    // The default tolerances, with the limits that every run must name.
    pub fn new(max_iter: u64, sweep_limit: u64) -> Self
        ensures { result ≡ defaults max_iter sweep_limit }
    {
        Self::of(
            max_iter,
            Self::EPS_ACC,
            Self::EPS_INF,
            Self::EPS_ZERO,
            sweep_limit,
        )
    }

    // The parameters with these limits and tolerances, no progress record, and edition one.
    pub fn of(max_iter: u64, eps_acc: f64, eps_inf: f64, eps_zero: f64, sweep_limit: u64) -> Self
        ensures { result ≡ param_of max_iter eps_acc eps_inf eps_zero sweep_limit }
    {
        Self {
            max_iter,
            eps_acc,
            eps_inf,
            eps_zero,
            sweep_limit,
            log_period: 0,
            edition: 1,
        }
    }

    // The same parameters but for eps_zero.
    pub fn with_eps_zero(self, eps_zero: f64) -> Self
        ensures { result ≡ with_eps_zero self eps_zero }
    {
        Self { eps_zero, ..self }
    }

    // The same parameters but for log_period.
    pub fn with_log_period(self, log_period: u32) -> Self
        ensures { result ≡ with_log_period self log_period }
    {
        Self { log_period, ..self }
    }

    // The same parameters but for the edition.
    pub fn with_edition(self, edition: u32) -> Self
        ensures { result ≡ with_edition self edition }
    {
        Self { edition, ..self }
    }
}

// What projecting one block comes to: the rotations that it took, or those after which its sweeps had not ended. It is no Result: the rotations
// of both ends count. A routine that may answer a plain no answers an Option of it.
#[derive(Clone, Copy)]
pub enum Projection {
    Done(u64),
    Failed(u64),
}

// What projecting a list of blocks comes to: the rotations that it took, or the block that failed with the rotations up to there, which count
// too: no Result.
#[derive(Clone, Copy)]
pub enum Product {
    Done(u64),
    Failed(usize, u64),
}

// How a run ends, with the criteria that decided it, or why the hub is turned away.
#[derive(Clone, Copy)]
pub enum Ending {
    BadParam,
    TooLarge,
    InvalidOp,
    BadCone,
    NotFinite,
    WorkShortage,
    // primal, dual, gap
    Converged(f64, f64, f64),
    // tau above eps_zero: primal, dual, gap
    ExcessIter(f64, f64, f64),
    // tau not above it: unbounded, infeasible
    ExcessIterUnscaled(f64, f64),
    Unbounded(f64),
    Infeasible(f64),
    // the block's number from 0
    ConeFailure(usize),
}

// The Frobenius norms of b and c.
#[derive(Clone, Copy)]
pub struct Norms {
    pub b: f64,
    pub c: f64,
}

// The criteria of a step.
#[derive(Clone, Copy)]
pub enum Criteria {
    // tau above eps_zero: primal, dual, gap
    Conv(f64, f64, f64),
    // tau not above it: unbounded, infeasible
    Inf(f64, f64),
}

// What a run answers: the ending, the steps k and the Jacobi rotations q.
#[derive(Clone, Copy)]
pub struct Answer {
    pub ending: Ending,
    pub steps: u64,
    pub rotations: u64,
}

// What a run with a progress record answers: the same, and the rows written and dropped.
#[derive(Clone, Copy)]
pub struct Logged {
    pub answer: Answer,
    pub written: u64,
    pub dropped: u64,
}
