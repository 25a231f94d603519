//! Primes of orders, as values.

ghost use Rattle.std.specs.Prelude.{◌≡◌, IfOk};
ghost use Rattle.value_theory.specs.Primes.{PrimeValue};

use ff_algebra::Side;
use ff_lattice::Lattice;
use ff_poly::Poly;
use std::alloc::{AllocError, Global};
use std::marker::Model;

/// A prime of an order: the side of its place, the polynomial that it lies over, its number among the primes over that,
/// its ramification index and its degree, and the lattices of the prime and of its inverse. Which of these are a prime
/// of an order, contracts say.
#[derive(Debug, Drop)]
pub struct Prime {
    side: Side,
    p: Poly,
    number: u32,
    e: u32,
    degree: u32,
    rows: Lattice,
    inverse: Lattice,
}

impl Model for Prime {
    ghost use Rattle.value_theory.specs.Primes.{PrimeValue};

    ghost Value = { PrimeValue };

    ghost view = { λ q. record {
      side = q.side;
      p = q.p;
      number = q.number;
      e = q.e;
      degree = q.degree;
      rows = q.rows;
      inverse = q.inverse;
    } };
}

impl Prime {
    /// The prime of these parts. Nothing is tested.
    pub fn new(
        side: Side,
        p: Poly,
        number: u32,
        e: u32,
        degree: u32,
        rows: Lattice,
        inverse: Lattice,
    ) -> Prime
        ensures { result ≡ record {
          side = side;
          p = p;
          number = number;
          e = e;
          degree = degree;
          rows = rows;
          inverse = inverse;
        } }
    {
        Prime {
            side,
            p,
            number,
            e,
            degree,
            rows,
            inverse,
        }
    }

    /// The side of its place.
    pub fn side(&self) -> Side
        ensures { result ≡ self.now.side }
    {
        self.side
    }

    /// The polynomial that it lies over.
    pub fn p(&self) -> &Poly
        ensures { result.now ≡ self.now.p }
    {
        &self.p
    }

    /// Its number among the primes over the polynomial.
    pub fn number(&self) -> u32
        ensures { result ≡ self.now.number }
    {
        self.number
    }

    /// Its ramification index.
    pub fn e(&self) -> u32
        ensures { result ≡ self.now.e }
    {
        self.e
    }

    /// Its degree.
    pub fn degree(&self) -> u32
        ensures { result ≡ self.now.degree }
    {
        self.degree
    }

    /// The lattice of its members.
    pub fn rows(&self) -> &Lattice
        ensures { result.now ≡ self.now.rows }
    {
        &self.rows
    }

    /// The lattice of its inverse.
    pub fn inverse(&self) -> &Lattice
        ensures { result.now ≡ self.now.inverse }
    {
        &self.inverse
    }

    /// The same prime with another number.
    pub fn renumber(&mut self, number: u32)
        ensures { self.new ≡ record self.old { number = number } }
    {
        self.number = number;
    }

    /// An equal prime, in memory of its own.
    pub fn copy(&self, alloc: Global) -> Result<Prime, AllocError>
        ensures { IfOk result (λ q. q ≡ self.now) }
    {
        let p = self.p.copy(alloc)?;
        let rows = self.rows.copy(alloc)?;
        let inverse = self.inverse.copy(alloc)?;
        Ok(Prime {
            side: self.side,
            p,
            number: self.number,
            e: self.e,
            degree: self.degree,
            rows,
            inverse,
        })
    }
}
