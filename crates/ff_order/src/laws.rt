//! When an enlarged order has all integral functions.

ghost use Rattle.std.specs.Prelude.{◌≡◌, ◌↔◌, ◌≤◌, map, All};
ghost use Rattle.std.specs.List.{Any};
ghost use Rattle.linear_theory.specs.Euclidean.{IsDivisorIn};
ghost use Rattle.ff_fields.specs.Over.{IsOver};
ghost use Rattle.ff_poly.specs.Words.{IsIrreducibleList};
ghost use Rattle.ff_poly.specs.Value.{value};
ghost use Rattle.ff_poly.specs.Polynomials.{polynomials};
ghost use Rattle.function_field.specs.declared.side.Side.TheVariants.{Finite};
ghost use Rattle.function_field.specs.Discriminant.{discriminant};
ghost use Rattle.function_field.specs.Places.{IsIntegralAt};
ghost use Rattle.function_field.specs.Values.{Functions, equation_of, setting};
ghost use Rattle.trace_theory.specs.Traces.{HasPolynomialCoordinates, polynomial_product};
ghost use Rattle.ff_lattice.specs.Lattices.{Contains};
ghost use Rattle.ff_lattice.specs.Orders.{IsOrderLattice};
ghost use Rattle.ff_order.specs.Enlargements.{TakenByProducts};

use ff_algebra::Pres;
use ff_fields::field::SmallField;
use ff_lattice::Order;
use ff_poly::Poly;

/// What `maximal` answers for an order that has k[x][y] are exactly the integral functions, where the listed
/// polynomials are all irreducible ones whose squares divide the discriminant. The factors of the discriminant are
/// given as a list of irreducible polynomials, with repeats, whose product it divides.
pub fn integral_law<K: SmallField>(
    k: &K,
    p: &Pres,
    o: &Order,
    m: &Order,
    primes: &[Poly],
    factors: &[Poly],
)
    requires positive { 1 ≤ p.now.n }
    requires o_order { IsOrderLattice (K.field k.now) p.now o.now }
    requires start { let k = K.field k.now in
        (z : Functions k p.now) → HasPolynomialCoordinates (equation_of k p.now) z → Contains k p.now o.now z }
    requires m_order { IsOrderLattice (K.field k.now) p.now m.now }
    requires enlarged { let k = K.field k.now in
        (z : Functions k p.now) → Contains k p.now m.now z
        ↔ TakenByProducts (equation_of k p.now) (map (value k) primes.now) (Contains k p.now o.now) z }
    requires factors_in { All (IsOver (K.field k.now).ops) factors.now }
    requires irreducible { All (IsIrreducibleList (K.field k.now).ops) factors.now }
    requires product { let k = K.field k.now in
        IsDivisorIn (polynomials k).ops (discriminant (equation_of k p.now))
        (polynomial_product k (map (value k) factors.now)) }
    requires listed { let k = K.field k.now in
        All (λ q. IsDivisorIn (polynomials k).ops ((polynomials k).◌⊗◌ (value k q) (value k q))
        (discriminant (equation_of k p.now)) → Any (λ r. r ≡ q) primes.now) factors.now }
    ensures { let k = K.field k.now in
        (z : Functions k p.now) → Contains k p.now m.now z ↔ IsIntegralAt (setting k p.now) Finite z }
{}
