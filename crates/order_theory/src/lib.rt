//! Orders and finite places of a function field F = k(x)[y]/(f) over a finite field k: the order of the functions that
//! are integral over the polynomials, invertible modules over orders, and the finite places over an irreducible
//! polynomial. Nothing is asked of f but, where it is said, that its discriminant isn't 0: F need not be a field. Each
//! main theorem is the contract of a function with an empty body; the crates above cite the lemmas of proofs/. For
//! functions integral over k[t], t = 1/x, the same theorems hold of the infinite presentation.
#![tactic(auto)]

ghost use Rattle.std.specs.Prelude.{◌≡◌, ℕ, ℤ, ◌-◌, ◌*◌, ◌<◌, ◌↔◌, ◌⊎◌, List, length};
ghost use Rattle.std.specs.List.{Any};
ghost use Rattle.std.proofs.Common.{pos};
ghost use Rattle.ring_theory.specs.Subsets.{IsModule, Product};
ghost use Rattle.ring_theory.specs.Local.{Locally};
ghost use Rattle.ff_fields.specs.Field.{CodeField};
ghost use Rattle.ff_poly.specs.Words.{IsIrreducibleList};
ghost use Rattle.ff_poly.specs.Polynomials.{Polynomial, polynomials, codes_of};
ghost use Rattle.function_field.specs.declared.side.Side.TheVariants.{Finite};
ghost use Rattle.function_field.specs.Functions.{Equation, FunctionOf, ring_of, of_poly, degree_of_y, setting_of};
ghost use Rattle.function_field.specs.Discriminant.{discriminant};
ghost use Rattle.function_field.specs.Places.{Place, IsPlace, IsIn, IsSamePlace, IsIntegralAt, LiesOver, HasValuation, HasValuationAtLeast};
ghost use Rattle.function_field.specs.Divisors.{HasDegree};
ghost use Rattle.prime_theory.specs.Ideals.{Invertible};
ghost use Rattle.prime_theory.specs.Orders.{MaximalAt};
ghost use Rattle.prime_theory.specs.Primes.{IsPrime};
ghost use Rattle.function_field.specs.Indices.{HasIndex};
ghost use Rattle.lattice_theory.specs.Lattices.{IsLattice};
ghost use Rattle.order_theory.specs.Orders.{IsOrder, IsPrimeTo, TakenByPowers, IsOrderUpTo};
ghost use Rattle.order_theory.specs.PlaceLists.{PlaceOver, IsAllOver, sum_of_degrees};

use lattice_theory::FunctionSets;

/// The members of an order are integral over the polynomials, and so is what takes a lattice into itself. Where the
/// discriminant isn't 0, a polynomial takes all integral functions into an order; so a chain of orders over one is no
/// longer than the index of that in the integral functions.
pub fn order_law<S: FunctionSets>()
    ensures member { IsOrder S.equation S.first → (z : FunctionOf S.equation) → S.first z
        → IsIntegralAt (setting_of S.equation) Finite z }
    ensures factor { ¬ (discriminant S.equation ≡ (polynomials S.field).𝟘) → IsOrder S.equation S.first
        → (a : Polynomial S.field) × (¬ (a ≡ (polynomials S.field).𝟘))
        × ((z : FunctionOf S.equation) → IsIntegralAt (setting_of S.equation) Finite z
        → S.first ((ring_of S.equation).◌⊗◌ (of_poly S.equation a) z)) }
    ensures chain { ¬ (discriminant S.equation ≡ (polynomials S.field).𝟘) → IsOrder S.equation S.first
        → IsOrder S.equation S.second
        → ((z : FunctionOf S.equation) → S.first z → S.second z)
        → ¬ ((z : FunctionOf S.equation) → S.second z → S.first z) → (g h : ℕ)
        → HasIndex S.equation S.first (IsIntegralAt (setting_of S.equation) Finite) g
        → HasIndex S.equation S.second (IsIntegralAt (setting_of S.equation) Finite) h → h < g }
    ensures stable { IsLattice S.equation S.first → (z : FunctionOf S.equation)
        → ((y : FunctionOf S.equation) → S.first y → S.first ((ring_of S.equation).◌⊗◌ z y))
        → IsIntegralAt (setting_of S.equation) Finite z }
{}

/// Where the discriminant isn't 0, the functions that are integral over the polynomials are an order, the maximal one;
/// and integrality is decided.
pub fn integral_order_law()
    ensures order { (k : CodeField) (c : Equation k) → ¬ (discriminant c ≡ (polynomials k).𝟘)
        → IsOrder c (IsIntegralAt (setting_of c) Finite) }
    ensures decided { (k : CodeField) (c : Equation k) → ¬ (discriminant c ≡ (polynomials k).𝟘) → (z : FunctionOf c)
        → Dec (IsIntegralAt (setting_of c) Finite z) }
{}

/// The integral functions that powers of an irreducible p take into an order are an order that is maximal at p. A
/// lattice that is a ring is maximal at p exactly where it has each integral function up to a factor prime to p.
pub fn local_order_law<S: FunctionSets>()
    ensures order { (p : Polynomial S.field) → IsIrreducibleList S.field.ops (codes_of S.field p)
        → ¬ (discriminant S.equation ≡ (polynomials S.field).𝟘)
        → IsOrder S.equation S.first → IsOrder S.equation (TakenByPowers S.equation p S.first) }
    ensures maximal { (p : Polynomial S.field) → IsIrreducibleList S.field.ops (codes_of S.field p)
        → IsOrder S.equation S.first
        → MaximalAt (ring_of S.equation).ops (of_poly S.equation p) (IsIntegralAt (setting_of S.equation) Finite)
        (TakenByPowers S.equation p S.first) }
    ensures locally { (p : Polynomial S.field) → IsIrreducibleList S.field.ops (codes_of S.field p)
        → IsLattice S.equation S.first
        → MaximalAt (ring_of S.equation).ops (of_poly S.equation p) (IsIntegralAt (setting_of S.equation) Finite)
        S.first
        ↔ ((z : FunctionOf S.equation) → IsIntegralAt (setting_of S.equation) Finite z
        → Locally (ring_of S.equation).ops (IsPrimeTo S.equation p) S.first z) }
{}

/// Each lattice that is closed under an order is invertible, where at each irreducible p the order is maximal or the
/// lattice is the order up to functions prime to p. So each one is where the order has all integral functions.
pub fn inverse_law<S: FunctionSets>()
    ensures { IsOrder S.equation S.first → IsLattice S.equation S.second
        → IsModule (ring_of S.equation).ops S.first S.second
        → ((p : Polynomial S.field) → IsIrreducibleList S.field.ops (codes_of S.field p)
        → MaximalAt (ring_of S.equation).ops (of_poly S.equation p) (IsIntegralAt (setting_of S.equation) Finite)
        S.first ⊎ IsOrderUpTo S.equation p S.first S.second)
        → Invertible (ring_of S.equation).ops S.first S.second }
{}

/// The index of X·P in X, for a prime P of an order and an invertible module X over it, is that of P in the order.
pub fn product_index_law<S: FunctionSets>()
    ensures { IsOrder S.equation S.first → IsPrime (ring_of S.equation).ops S.first S.third
        → IsModule (ring_of S.equation).ops S.first S.second
        → Invertible (ring_of S.equation).ops S.first S.second → (g : ℕ) → HasIndex S.equation S.third S.first g
        → HasIndex S.equation (Product (ring_of S.equation).ops S.second S.third) S.second g }
{}

/// Each finite place has a monic irreducible polynomial, and one only: the place lies over it.
pub fn lies_over_law()
    ensures over { (k : CodeField) (c : Equation k) (P : Place (FunctionOf c)) → IsPlace (setting_of c) P → P.side
        ≡ Finite
        → (p : Polynomial k) × IsIrreducibleList k.ops (codes_of k p) × LiesOver (setting_of c) P (of_poly c p) }
    ensures once { (k : CodeField) (c : Equation k) (P : Place (FunctionOf c)) (p q : Polynomial k)
        → IsPlace (setting_of c) P
        → IsIrreducibleList k.ops (codes_of k p) → IsIrreducibleList k.ops (codes_of k q)
        → LiesOver (setting_of c) P (of_poly c p) → LiesOver (setting_of c) P (of_poly c q)
        → p ≡ q }
{}

/// A finite place is a lattice, so membership in it and sameness with another are decided; it is a prime of the ring
/// of integral functions. Its degree is its index there.
pub fn finite_place_law()
    ensures lattice { (k : CodeField) (c : Equation k) (P : Place (FunctionOf c)) → IsPlace (setting_of c) P → P.side
        ≡ Finite → IsLattice c (IsIn (setting_of c) P) }
    ensures prime { (k : CodeField) (c : Equation k) (P : Place (FunctionOf c)) → IsPlace (setting_of c) P → P.side
        ≡ Finite
        → IsPrime (ring_of c).ops (IsIntegralAt (setting_of c) Finite) (IsIn (setting_of c) P) }
    ensures same { (k : CodeField) (c : Equation k) (P Q : Place (FunctionOf c)) → IsPlace (setting_of c) P → P.side
        ≡ Finite → IsPlace (setting_of c) Q
        → Q.side ≡ Finite → Dec (IsSamePlace (setting_of c) P Q) }
    ensures degree { (k : CodeField) (c : Equation k) (P : Place (FunctionOf c)) (g : ℕ) → P.side ≡ Finite
        → HasIndex c (IsIn (setting_of c) P) (IsIntegralAt (setting_of c) Finite) g → HasDegree (setting_of c) P g }
    ensures has_degree { (k : CodeField) (c : Equation k) (P : Place (FunctionOf c))
        → ¬ (discriminant c ≡ (polynomials k).𝟘) → IsPlace (setting_of c) P
        → P.side ≡ Finite → (g : ℕ) × HasDegree (setting_of c) P g }
{}

/// The places over an irreducible polynomial p are finitely many, and listed; the sum of e·f over them is n times the
/// degree of p.
pub fn places_over_law()
    ensures { (k : CodeField) (c : Equation k) (p : Polynomial k) → ¬ (discriminant c ≡ (polynomials k).𝟘)
        → IsIrreducibleList k.ops (codes_of k p)
        → (ps : List (PlaceOver (setting_of c) (of_poly c p))) × IsAllOver (setting_of c) (of_poly c p) ps
        × (sum_of_degrees (setting_of c) (of_poly c p) ps ≡ degree_of_y c * (length p.0 - 1)) }
{}

/// The functions without poles at finite places are those that are integral over the polynomials.
pub fn regular_law()
    ensures { (k : CodeField) (c : Equation k) (z : FunctionOf c) → ¬ (discriminant c ≡ (polynomials k).𝟘)
        → ((P : Place (FunctionOf c)) → IsPlace (setting_of c) P → P.side ≡ Finite
        → HasValuationAtLeast (setting_of c) P z (pos 0))
        ↔ IsIntegralAt (setting_of c) Finite z }
{}

/// A function with an inverse has a value at each finite place; it is 0 where the function and its inverse have
/// denominators that aren't in the place, and so at all but finitely many.
pub fn value_law()
    ensures exists { (k : CodeField) (c : Equation k) (P : Place (FunctionOf c))
        → ¬ (discriminant c ≡ (polynomials k).𝟘) → IsPlace (setting_of c) P
        → P.side ≡ Finite → (z y : FunctionOf c) → (ring_of c).◌⊗◌ z y ≡ (ring_of c).𝟙 → (m : ℤ)
        × HasValuation (setting_of c) P z m }
    ensures finitely { (k : CodeField) (c : Equation k) → ¬ (discriminant c ≡ (polynomials k).𝟘) → (z y : FunctionOf c)
        → (ring_of c).◌⊗◌ z y ≡ (ring_of c).𝟙 → (ps : List (Place (FunctionOf c)))
        × ((P : Place (FunctionOf c)) → IsPlace (setting_of c) P → P.side ≡ Finite
        → HasValuation (setting_of c) P z (pos 0) ⊎ Any (λ Q. IsSamePlace (setting_of c) Q P) ps) }
    ensures zero { (k : CodeField) (c : Equation k) (P : Place (FunctionOf c)) → IsPlace (setting_of c) P → P.side
        ≡ Finite
        → (z y a b : FunctionOf c) → (ring_of c).◌⊗◌ z y ≡ (ring_of c).𝟙
        → IsIntegralAt (setting_of c) Finite a → ¬ (IsIn (setting_of c) P a)
        → IsIntegralAt (setting_of c) Finite ((ring_of c).◌⊗◌ a z)
        → IsIntegralAt (setting_of c) Finite b → ¬ (IsIn (setting_of c) P b)
        → IsIntegralAt (setting_of c) Finite ((ring_of c).◌⊗◌ b y)
        → HasValuation (setting_of c) P z (pos 0) }
{}
