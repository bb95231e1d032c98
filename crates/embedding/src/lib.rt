// The self-dual embedding, of c, A and b that fit (SelfDualEmbed in solver.rs): the parts of the vectors that it goes between, and the
// products with c, A and b and with each of them transposed.
#![tactic(auto)]

ghost use Rattle.std.specs.Prelude.{◌≡◌, true};
ghost use Rattle.shape.specs.Lent.{lent_fit};

use shape::{Operators, column};

// c, A and b that fit, with the edition of the sums.
#[derive(Clone, Copy)]
pub struct Embedding<'a> {
    pub edition: u32,
    pub operators: Operators<'a>,
    pub ghost fits: { lent_fit operators ≡ true },
}

// A vector like x by its parts, of n, m, m places and one.
#[derive(Clone, Copy)]
pub struct XParts<'a> {
    pub x: &'a [f64],
    pub y: &'a [f64],
    pub s: &'a [f64],
    pub tau: &'a [f64],
}

// A vector like y by its parts, of n, m places and one.
#[derive(Clone, Copy)]
pub struct YParts<'a> {
    pub n: &'a [f64],
    pub m: &'a [f64],
    pub one: &'a [f64],
}

impl<'a> Embedding<'a> {
    ghost use Rattle.std.specs.Prelude.{false, cond, [], length, MatchOption};
    ghost use Rattle.rules.specs.Outcome.{Outcome};
    ghost use Rattle.rules.specs.Step.{x_x, x_y, x_s, x_tau, y_n, y_m, y1};
    ghost use Rattle.rules.specs.Step.{c_op, a_op, b_op, c_trans, a_trans, b_trans};
    ghost use Rattle.embedding.specs.Embedding.{embed_of, is_like_x, is_like_y, lengths_fit};

    // The embedding of these, if they fit.
    pub fn new(edition: u32, operators: &Operators<'a>) -> Option<Embedding<'a>>
        ensures { MatchOption result (lent_fit operators.now ≡ false)
            (λ k. (k.edition ≡ edition) × (k.operators ≡ operators.now)) }
    {
        if shape::operators_fit(operators) {
            Some(Embedding {
                edition,
                operators: *operators,
            })
        } else {
            None
        }
    }

    // The parts of a vector like x. Each is empty where it is not like x.
    #[tactic(auto, using(crate::proofs::Fitting::x_alone))]
    pub fn split_x<'b>(&self, x: &'b [f64]) -> XParts<'b>
        ensures x { result.x.now ≡ cond (is_like_x self.now x.now) (x_x (embed_of self.now) x.now) [] }
        ensures y { result.y.now ≡ cond (is_like_x self.now x.now) (x_y (embed_of self.now) x.now) [] }
        ensures s { result.s.now ≡ cond (is_like_x self.now x.now) (x_s (embed_of self.now) x.now) [] }
        ensures tau { result.tau.now ≡ cond (is_like_x self.now x.now) (x_tau (embed_of self.now) x.now) [] }
        ensures x_length { length result.x.now ≡ cond (is_like_x self.now x.now) self.now.operators.shape.cols.0 0 }
        ensures y_length { length result.y.now ≡ cond (is_like_x self.now x.now) self.now.operators.shape.rows.0 0 }
        ensures s_length { length result.s.now ≡ cond (is_like_x self.now x.now) self.now.operators.shape.rows.0 0 }
        ensures tau_length { length result.tau.now ≡ cond (is_like_x self.now x.now) 1 0 }
    {
        if !shape::fits_x(self.operators.shape, x) {
            return XParts {
                x: &[],
                y: &[],
                s: &[],
                tau: &[],
            };
        }
        let m = self.operators.shape.rows.0;
        let n = self.operators.shape.cols.0;
        let nm = n + m;
        let nmm = nm + m;
        XParts {
            x: &x[..n],
            y: &x[n..nm],
            s: &x[nm..nmm],
            tau: &x[nmm..nmm + 1],
        }
    }

    // The parts of a vector like y. Each is empty where it is not like y.
    #[tactic(auto, using(crate::proofs::Fitting::y_alone))]
    pub fn split_y<'b>(&self, y: &'b [f64]) -> YParts<'b>
        ensures n { result.n.now ≡ cond (is_like_y self.now y.now) (y_n (embed_of self.now) y.now) [] }
        ensures m { result.m.now ≡ cond (is_like_y self.now y.now) (y_m (embed_of self.now) y.now) [] }
        ensures one { result.one.now ≡ cond (is_like_y self.now y.now) (y1 (embed_of self.now) y.now) [] }
        ensures n_length { length result.n.now ≡ cond (is_like_y self.now y.now) self.now.operators.shape.cols.0 0 }
        ensures m_length { length result.m.now ≡ cond (is_like_y self.now y.now) self.now.operators.shape.rows.0 0 }
        ensures one_length { length result.one.now ≡ cond (is_like_y self.now y.now) 1 0 }
    {
        if !shape::fits_y(self.operators.shape, y) {
            return YParts {
                n: &[],
                m: &[],
                one: &[],
            };
        }
        let m = self.operators.shape.rows.0;
        let n = self.operators.shape.cols.0;
        let nm = n + m;
        YParts {
            n: &y[..n],
            m: &y[n..nm],
            one: &y[nm..nm + 1],
        }
    }

    // The products: each answers whether the two lengths fit, and changes nothing where they don't.

    // y becomes alpha * c * x + beta * y, where c is a matrix of one column.
    #[tactic(auto, using(crate::proofs::Fitting::c_op_asks))]
    pub fn c_op(&self, alpha: f64, x: &[f64], beta: f64, y: &mut [f64]) -> bool
        ensures { Outcome (lengths_fit 1 self.now.operators.shape.cols.0 x.now y.old)
            (c_op (embed_of self.now) alpha x.now beta y.old)
            y.old result y.new }
    {
        let Operators { shape, c, .. } = self.operators;
        matop_by::op_by(self.edition, column(shape.cols.0), alpha, c, x, beta, y)
    }

    // y becomes alpha * A * x + beta * y.
    #[tactic(auto, using(crate::proofs::Fitting::a_op_asks))]
    pub fn a_op(&self, alpha: f64, x: &[f64], beta: f64, y: &mut [f64]) -> bool
        ensures { Outcome (lengths_fit self.now.operators.shape.cols.0 self.now.operators.shape.rows.0 x.now y.old)
            (a_op (embed_of self.now) alpha x.now beta y.old)
            y.old result y.new }
    {
        let Operators { shape, a1, a2, .. } = self.operators;
        matop_by::split::op_by(self.edition, shape, alpha, a1, a2, x, beta, y)
    }

    // y becomes alpha * b * x + beta * y, where b is a matrix of one column.
    #[tactic(auto, using(crate::proofs::Fitting::b_op_asks))]
    pub fn b_op(&self, alpha: f64, x: &[f64], beta: f64, y: &mut [f64]) -> bool
        ensures { Outcome (lengths_fit 1 self.now.operators.shape.rows.0 x.now y.old)
            (b_op (embed_of self.now) alpha x.now beta y.old)
            y.old result y.new }
    {
        let Operators { shape, b, .. } = self.operators;
        matop_by::op_by(self.edition, column(shape.rows.0), alpha, b, x, beta, y)
    }

    // y becomes alpha * c transposed * x + beta * y.
    #[tactic(auto, using(crate::proofs::Fitting::c_trans_asks))]
    pub fn c_trans(&self, alpha: f64, x: &[f64], beta: f64, y: &mut [f64]) -> bool
        ensures { Outcome (lengths_fit self.now.operators.shape.cols.0 1 x.now y.old)
            (c_trans (embed_of self.now) alpha x.now beta y.old)
            y.old result y.new }
    {
        let Operators { shape, c, .. } = self.operators;
        matop_by::trans_op_by(self.edition, column(shape.cols.0), alpha, c, x, beta, y)
    }

    // y becomes alpha * A transposed * x + beta * y.
    #[tactic(auto, using(crate::proofs::Fitting::a_trans_asks))]
    pub fn a_trans(&self, alpha: f64, x: &[f64], beta: f64, y: &mut [f64]) -> bool
        ensures { Outcome (lengths_fit self.now.operators.shape.rows.0 self.now.operators.shape.cols.0 x.now y.old)
            (a_trans (embed_of self.now) alpha x.now beta y.old)
            y.old result y.new }
    {
        let Operators { shape, a1, a2, .. } = self.operators;
        matop_by::split::trans_op_by(self.edition, shape, alpha, a1, a2, x, beta, y)
    }

    // y becomes alpha * b transposed * x + beta * y.
    #[tactic(auto, using(crate::proofs::Fitting::b_trans_asks))]
    pub fn b_trans(&self, alpha: f64, x: &[f64], beta: f64, y: &mut [f64]) -> bool
        ensures { Outcome (lengths_fit self.now.operators.shape.rows.0 1 x.now y.old)
            (b_trans (embed_of self.now) alpha x.now beta y.old)
            y.old result y.new }
    {
        let Operators { shape, b, .. } = self.operators;
        matop_by::trans_op_by(self.edition, column(shape.rows.0), alpha, b, x, beta, y)
    }
}
