// What is right of a run in pieces. The rules stand in specs/, in the order and words of request (xii) of document 02; this file declares the
// types that they and the code share.
#![tactic(auto)]

use rules::{Ending, Logged, Norms, SolverParam};

// The sizes of a problem, the number of its cone words and the lengths of the three buffers that are lent for it.
#[derive(Clone, Copy)]
pub struct RunLengths {
    pub cols: usize,
    pub rows: usize,
    pub words: usize,
    pub work: usize,
    pub cone_work: usize,
    pub log: usize,
}

// What is kept of a run between two of its pieces, beside its buffers: lengths, parameters, the norms of b and c, tau, the steps k, the rotations q, the
// rows written and dropped, and whether it has ended.
#[derive(Clone, Copy)]
pub struct RunRecord {
    pub lengths: RunLengths,
    pub par: SolverParam,
    pub norms: Norms,
    pub tau: f64,
    pub steps: u64,
    pub rotations: u64,
    pub written: u64,
    pub dropped: u64,
    pub ended: bool,
}

// Why a later piece of a run is turned away: by one of the six tests of a run, or since its record is stale.
#[derive(Clone, Copy)]
pub enum LaterRefusal {
    Refused(Ending),
    StaleRun,
}

// What a piece of a run answers: why it was turned away, or its record, with the answer of the run where it has ended.
#[derive(Clone, Copy)]
pub enum PieceAnswer {
    Refused(Ending),
    StaleRun,
    Halted(RunRecord),
    Ended(Logged, RunRecord),
}
