// How a run's vectors come into work.
ghost use Rattle.std.specs.Prelude.{◌+◌, ◌≤◌, ◌≡◌, ◌++◌, length, drop};
ghost use Rattle.rules.specs.Problem.{length_x};
ghost use Rattle.rules.specs.Run.{finished_x};
ghost use Rattle.settle.specs.Parts.{copied_to};

// x and y times 1/tau, where the ending asks for it.
pub(crate) fn finish(m: usize, n: usize, by_tau: bool, x: &mut [f64])
    requires { length x.old ≡ length_x m n }
    ensures { x.new ≡ finished_x m n by_tau x.old }
{
    if by_tau {
        let end = n + m;
        let by = 1.0 / x[end + m];
        for v in x[..end].iter_mut() {
            *v = by * *v;
        }
    }
}

// The six vectors of a run, one after another at the front of work.
pub(crate) fn lay_out(
    x: &[f64],
    y: &[f64],
    dp_tau: &[f64],
    dp_sigma: &[f64],
    rx: &[f64],
    tx: &[f64],
    work: &mut [f64],
)
    requires { length x.now + length y.now + length dp_tau.now + length dp_sigma.now + length rx.now +
        length tx.now ≤ length work.old }
    ensures { work.new
        ≡ x.now ++ y.now ++ dp_tau.now ++ dp_sigma.now ++ rx.now ++ tx.now ++ drop
        (length x.now + length y.now + length dp_tau.now + length
        dp_sigma.now + length rx.now + length tx.now)
        work.old }
{
    let to_y = x.len();
    let to_tau = to_y + y.len();
    let to_sigma = to_tau + dp_tau.len();
    let to_rx = to_sigma + dp_sigma.len();
    let to_tx = to_rx + rx.len();
    copy_to(x, 0, work);
    copy_to(y, to_y, work);
    copy_to(dp_tau, to_tau, work);
    copy_to(dp_sigma, to_sigma, work);
    copy_to(rx, to_rx, work);
    copy_to(tx, to_tx, work);
}

#[tactic(auto, unfolding(crate::specs::Parts::copied_to))]
fn copy_to(v: &[f64], start: usize, work: &mut [f64])
    requires { start + length v.now ≤ length work.old }
    ensures { work.new ≡ copied_to start v.now work.old }
{
    let end = start + v.len();
    work[start..end].copy_from_slice(v);
}
