//! A curve with the maximal order of each side.

ghost use Rattle.std.specs.Prelude.{◌≡◌, IfOk};
ghost use Rattle.value_theory.specs.IntegralLattices.{presentation};
ghost use Rattle.ff_rr.specs.Frames.{order_on};

use ff_algebra::Side;
use ff_algebra::curve::Curve;
use ff_algebra::elem::Pres;
use ff_lattice::Order;
use std::alloc::{AllocError, Global};
use std::marker::Model;

/// A curve with an order over k[x] and one over k[t], t = 1/x: those of the integral functions of its two sides, where
/// contracts say so.
#[derive(Debug, Drop)]
pub struct Frame {
    curve: Curve,
    fin: Order,
    inf: Order,
}

impl Model for Frame {
    ghost use Rattle.ff_rr.specs.Frames.{FrameValue};

    ghost Value = { FrameValue };

    ghost view = { λ f. record { curve = f.curve; fin = f.fin; inf = f.inf } };
}

impl Frame {
    /// The frame of a curve and an order of each side. Nothing is tested.
    pub fn new(curve: Curve, fin: Order, inf: Order) -> Frame
        ensures { result ≡ record { curve = curve; fin = fin; inf = inf } }
    {
        Frame { curve, fin, inf }
    }

    /// The curve.
    pub fn curve(&self) -> &Curve
        ensures { result.now ≡ self.now.curve }
    {
        &self.curve
    }

    /// The order over k[x].
    pub fn fin(&self) -> &Order
        ensures { result.now ≡ self.now.fin }
    {
        &self.fin
    }

    /// The order over k[t], t = 1/x.
    pub fn inf(&self) -> &Order
        ensures { result.now ≡ self.now.inf }
    {
        &self.inf
    }

    /// The order of a side.
    pub fn order(&self, side: Side) -> &Order
        ensures { result.now ≡ order_on self.now side }
    {
        match side {
            Side::Finite => &self.fin,
            Side::Infinite => &self.inf,
        }
    }

    /// The presentation of the curve on a side.
    pub fn presentation(&self, side: Side) -> &Pres
        ensures { result.now ≡ presentation self.now.curve side }
    {
        match side {
            Side::Finite => self.curve.fin(),
            Side::Infinite => self.curve.inf(),
        }
    }

    /// An equal frame, in memory of its own.
    pub fn copy(&self, alloc: Global) -> Result<Frame, AllocError>
        ensures { IfOk result (λ f. f ≡ self.now) }
    {
        let curve = self.curve.copy(alloc)?;
        let fin = self.fin.copy(alloc)?;
        let inf = self.inf.copy(alloc)?;
        Ok(Frame { curve, fin, inf })
    }
}
