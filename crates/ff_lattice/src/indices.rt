//! Indices of lattices and dimensions of quotients, by pivot degrees.

ghost use Rattle.std.specs.Prelude.{◌≡◌, ◌↔◌, ◌≤◌, ℕ, pos, ◌-ℤ◌};
ghost use Rattle.function_field.specs.Values.{Functions, equation_of};
ghost use Rattle.ff_lattice.specs.Lattices.{IsLatticeValue, Contains, pivot_degree_of};
ghost use Rattle.function_field.specs.Indices.{HasIndex};
ghost use Rattle.ff_lattice.specs.Quotients.{IsQuotient, dimension};

use crate::lattice::Lattice;
use crate::quotient::Quotient;
use ff_algebra::Pres;
use ff_fields::field::SmallField;

/// The dimension over k of a lattice modulo a smaller one is the difference of their pivot degrees, and no other
/// number. Where the pivot degrees are the same, so are the lattices.
pub fn index_law<K: SmallField>(k: &K, p: &Pres, a: &Lattice, b: &Lattice)
    requires a_form { IsLatticeValue (K.field k.now).ops p.now.n a.now }
    requires b_form { IsLatticeValue (K.field k.now).ops p.now.n b.now }
    requires positive { 1 ≤ p.now.n }
    requires within { let k = K.field k.now in (z : Functions k p.now) → Contains k p.now a.now z
        → Contains k p.now b.now z }
    ensures index { let k = K.field k.now in
        (g : ℕ) → HasIndex (equation_of k p.now) (Contains k p.now a.now) (Contains k p.now b.now) g
        ↔ (pos g ≡ pivot_degree_of a.now -ℤ pivot_degree_of b.now) }
    ensures exists { let k = K.field k.now in (g : ℕ)
        × HasIndex (equation_of k p.now) (Contains k p.now a.now) (Contains k p.now b.now) g }
    ensures same { pivot_degree_of a.now ≡ pivot_degree_of b.now → a.now ≡ b.now }
{}

/// The dimension of a quotient is the pivot degree of the ideal less that of the order.
pub fn dimension_law<K: SmallField>(k: &K, q: &Quotient)
    requires { IsQuotient (K.field k.now) q.now }
    ensures { pos (dimension q.now) ≡ pivot_degree_of q.now.ideal -ℤ pivot_degree_of q.now.order }
{}
