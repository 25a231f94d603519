//! Ideals of a function field F = k(x)[y]/(f) over a finite field k: products of powers of places and their
//! conditions, indices as sums of degrees, principal ideals, and records of primes that show an order to be maximal.
//! Nothing is asked of f but that its discriminant isn't 0 where it is said: F need not be a field. Each main theorem
//! is the contract of a function with an empty body; the crates above cite the lemmas of proofs/.
#![tactic(auto)]

ghost use Rattle.std.specs.Prelude.{◌≡◌, ◌↔◌, ℕ, suc, ◌<◌, ℤ, ◌+ℤ◌, List};
ghost use Rattle.ff_fields.specs.Field.{CodeField};
ghost use Rattle.ff_poly.specs.Words.{IsIrreducibleList};
ghost use Rattle.ff_poly.specs.Polynomials.{Polynomial, polynomials, codes_of};
ghost use Rattle.function_field.specs.declared.side.Side.{Side};
ghost use Rattle.function_field.specs.declared.side.Side.TheVariants.{Finite, Infinite};
ghost use Rattle.function_field.specs.Functions.{Equation, FunctionOf, ring_of, of_poly, y_of, degree_of_y, setting_of};
ghost use Rattle.function_field.specs.Discriminant.{discriminant};
ghost use Rattle.function_field.specs.Divisors.{Divisor, HasTotalDegree, MeetsOn};
ghost use Rattle.function_field.specs.Places.{Place, IsPlace, LiesOver, IsIntegralAt, HasValuationAtLeast};
ghost use Rattle.places_theory.specs.Orders.{InPrime};
ghost use Rattle.std.proofs.Common.{pos};
ghost use Rattle.prime_theory.specs.Ideals.{SameSet, Multiple, Inverse, Invertible, Power};
ghost use Rattle.prime_theory.specs.Orders.{MaximalAt};
ghost use Rattle.prime_theory.specs.Primes.{IsPrime};
ghost use Rattle.prime_theory.specs.Systems.{IsFamily, IsSystem, AreDistinctPrimes};
ghost use Rattle.linear_theory.specs.Euclidean.{IsDivisorIn};
ghost use Rattle.ring_lemmas.specs.Ring.{pow};
ghost use Rattle.ring_theory.specs.Subsets.{IsModule, Product, Colon};
ghost use Rattle.order_theory.specs.Orders.{IsOrder};
ghost use Rattle.lattice_theory.specs.Lattices.{IsLattice};
ghost use Rattle.ideal_theory.specs.Ideals.{IsDivisorOn, IsDivisorOf, DivisorIdeal, HasValuesOf, opposite_divisor};
ghost use Rattle.ideal_theory.specs.Indices.{HasRelativeIndex};
ghost use Rattle.ideal_theory.specs.Records.{IsAdmitted, RowSpan, RecordedPrime, ProductOfPowers, IsRecordAt, AreAllPlaces, ArePrimesOfPlaces};

use lattice_theory::FunctionSets;

/// The product of the powers of different places of one side is given by its conditions: it has the functions whose
/// values at those places are at least the exponents, and at least 0 at all others of the side.
pub fn conditions_law()
    ensures finite { (k : CodeField) (c : Equation k) (D : Divisor (FunctionOf c))
        → ¬ (discriminant c ≡ (polynomials k).𝟘)
        → IsDivisorOn (setting_of c) Finite D → (z : FunctionOf c) → DivisorIdeal (setting_of c) Finite D z
        ↔ HasValuesOf (setting_of c) Finite D z }
    ensures infinite { (k : CodeField) (c : Equation k) (D : Divisor (FunctionOf c))
        → ¬ (discriminant c ≡ (polynomials k).𝟘)
        → IsDivisorOn (setting_of c) Infinite D → (z : FunctionOf c) → DivisorIdeal (setting_of c) Infinite D z
        ↔ HasValuesOf (setting_of c) Infinite D z }
{}

/// The index of one lattice relative to another, as an integer: there is one, it is one number, and such indices add.
pub fn relative_index_law<S: FunctionSets>()
    ensures exists { IsLattice S.equation S.first → IsLattice S.equation S.second → (m : ℤ)
        × HasRelativeIndex S.equation S.first S.second m }
    ensures once { IsLattice S.equation S.first → IsLattice S.equation S.second → (m n : ℤ)
        → HasRelativeIndex S.equation S.first S.second m
        → HasRelativeIndex S.equation S.first S.second n → m ≡ n }
    ensures add { IsLattice S.equation S.first → IsLattice S.equation S.second → IsLattice S.equation S.third
        → (m n : ℤ)
        → HasRelativeIndex S.equation S.first S.second m → HasRelativeIndex S.equation S.second S.third n
        → HasRelativeIndex S.equation S.first S.third (m +ℤ n) }
{}

/// The index of a product of powers of finite places, relative to the integral functions, is the sum of the exponents
/// times the degrees; exponents below 0 included.
pub fn ideal_index_law()
    ensures lattice { (k : CodeField) (c : Equation k) (D : Divisor (FunctionOf c))
        → ¬ (discriminant c ≡ (polynomials k).𝟘)
        → IsDivisorOn (setting_of c) Finite D → IsLattice c (DivisorIdeal (setting_of c) Finite D) }
    ensures index { (k : CodeField) (c : Equation k) (D : Divisor (FunctionOf c)) (d : ℤ)
        → ¬ (discriminant c ≡ (polynomials k).𝟘)
        → IsDivisorOn (setting_of c) Finite D → HasTotalDegree (setting_of c) D d
        → HasRelativeIndex c (DivisorIdeal (setting_of c) Finite D) (IsIntegralAt (setting_of c) Finite) d }
{}

/// A function with an inverse has a divisor on each side: its values are those at finitely many places, and 0 at all
/// others of the side. Its multiples by the integral functions of the side are the product of the powers of the places
/// with its values as exponents; on the finite side their index is the degree of that divisor.
pub fn principal_ideal_law()
    ensures divisor { (k : CodeField) (c : Equation k) (s : Side) (z y : FunctionOf c)
        → ¬ (discriminant c ≡ (polynomials k).𝟘)
        → (ring_of c).◌⊗◌ z y ≡ (ring_of c).𝟙 → (D : Divisor (FunctionOf c)) × IsDivisorOf (setting_of c) s D z }
    ensures ideal { (k : CodeField) (c : Equation k) (s : Side) (z y : FunctionOf c) (D : Divisor (FunctionOf c))
        → ¬ (discriminant c ≡ (polynomials k).𝟘)
        → (ring_of c).◌⊗◌ z y ≡ (ring_of c).𝟙 → IsDivisorOf (setting_of c) s D z
        → SameSet (DivisorIdeal (setting_of c) s D) (Multiple (ring_of c).ops z (IsIntegralAt (setting_of c) s)) }
    ensures index { (k : CodeField) (c : Equation k) (z y : FunctionOf c) (D : Divisor (FunctionOf c)) (d : ℤ)
        → ¬ (discriminant c ≡ (polynomials k).𝟘)
        → (ring_of c).◌⊗◌ z y ≡ (ring_of c).𝟙 → IsDivisorOf (setting_of c) Finite D z
        → HasTotalDegree (setting_of c) D d
        → HasRelativeIndex c (Multiple (ring_of c).ops z (IsIntegralAt (setting_of c) Finite))
        (IsIntegralAt (setting_of c) Finite) d }
{}

/// Products and inverses of lattices that are admitted over an order are admitted: at each irreducible polynomial the
/// order is maximal, or the lattice is the order up to functions prime to it. An admitted lattice that is closed under
/// the order is invertible.
pub fn admitted_law<S: FunctionSets>()
    ensures product { IsOrder S.equation S.first → IsAdmitted S.equation S.first S.second
        → IsAdmitted S.equation S.first S.third
        → IsAdmitted S.equation S.first (Product (ring_of S.equation).ops S.second S.third) }
    ensures inverse { IsOrder S.equation S.first → IsAdmitted S.equation S.first S.second
        → IsAdmitted S.equation S.first (Inverse (ring_of S.equation).ops S.first S.second) }
    ensures invertible { IsOrder S.equation S.first → IsLattice S.equation S.second
        → IsModule (ring_of S.equation).ops S.first S.second
        → IsAdmitted S.equation S.first S.second → Invertible (ring_of S.equation).ops S.first S.second }
{}

/// In an order that is maximal at p, a function lies in a power of a prime over p exactly where the power of the
/// inverse takes it into the order; for the prime of a place over p, a member of the order does where its value is at
/// least the exponent; and of the powers that have a given lattice within the order there is a greatest exponent.
pub fn greatest_power_law<S: FunctionSets>()
    ensures inverse { (p : Polynomial S.field) → IsIrreducibleList S.field.ops (codes_of S.field p)
        → IsOrder S.equation S.first
        → MaximalAt (ring_of S.equation).ops (of_poly S.equation p) (IsIntegralAt (setting_of S.equation) Finite)
        S.first
        → IsPrime (ring_of S.equation).ops S.first S.second → S.second (of_poly S.equation p)
        → (m : ℕ) (z : FunctionOf S.equation)
        → Power (ring_of S.equation).ops S.first S.second m z
        ↔ Colon (ring_of S.equation).ops S.first
        (Power (ring_of S.equation).ops S.first (Inverse (ring_of S.equation).ops S.first S.second) m) z }
    ensures value { (p : Polynomial S.field) → IsIrreducibleList S.field.ops (codes_of S.field p)
        → IsOrder S.equation S.first
        → MaximalAt (ring_of S.equation).ops (of_poly S.equation p) (IsIntegralAt (setting_of S.equation) Finite)
        S.first
        → (M : Place (FunctionOf S.equation)) → IsPlace (setting_of S.equation) M
        → LiesOver (setting_of S.equation) M (of_poly S.equation p)
        → (z : FunctionOf S.equation) → S.first z → (m : ℕ) → HasValuationAtLeast (setting_of S.equation) M z (pos m)
        ↔ Power (ring_of S.equation).ops S.first (InPrime (setting_of S.equation) M S.first) m z }
    ensures greatest { (p : Polynomial S.field) → IsIrreducibleList S.field.ops (codes_of S.field p)
        → IsOrder S.equation S.first
        → MaximalAt (ring_of S.equation).ops (of_poly S.equation p) (IsIntegralAt (setting_of S.equation) Finite)
        S.first
        → IsPrime (ring_of S.equation).ops S.first S.second → S.second (of_poly S.equation p)
        → IsLattice S.equation S.third → ((z : FunctionOf S.equation) → S.third z → S.first z)
        → (m : ℕ) × ((z : FunctionOf S.equation) → S.third z → Power (ring_of S.equation).ops S.first S.second m z)
        × (¬ ((z : FunctionOf S.equation) → S.third z → Power (ring_of S.equation).ops S.first S.second (suc m) z)) }
{}

/// A record of primes over p for an order: the second rows of each ideal span its inverse, the ideals are a prime
/// system at p, their product with the exponents is p·O, and the order is maximal at p.
pub fn record_law<S: FunctionSets>()
    ensures inverse { IsOrder S.equation S.first → (P : RecordedPrime S.equation S.first)
        → SameSet (RowSpan S.equation P.inverse_rows)
        (Inverse (ring_of S.equation).ops S.first (RowSpan S.equation P.rows)) }
    ensures system { (p : Polynomial S.field) (ps : List (RecordedPrime S.equation S.first))
        → IsIrreducibleList S.field.ops (codes_of S.field p)
        → IsOrder S.equation S.first → IsRecordAt S.equation S.first p ps
        → IsFamily (ring_of S.equation).ops S.first (RecordedPrime S.equation S.first) (λ P. RowSpan S.equation P.rows)
        × IsSystem (ring_of S.equation).ops S.first (of_poly S.equation p) (RecordedPrime S.equation S.first)
        (λ P. RowSpan S.equation P.rows) ps
        × AreDistinctPrimes (λ P. RowSpan S.equation P.rows) ps }
    ensures product { (p : Polynomial S.field) (ps : List (RecordedPrime S.equation S.first))
        → IsIrreducibleList S.field.ops (codes_of S.field p)
        → IsOrder S.equation S.first → IsRecordAt S.equation S.first p ps
        → SameSet (ProductOfPowers S.equation S.first ps)
        (Multiple (ring_of S.equation).ops (of_poly S.equation p) S.first) }
    ensures maximal { (p : Polynomial S.field) (ps : List (RecordedPrime S.equation S.first))
        → IsIrreducibleList S.field.ops (codes_of S.field p)
        → IsOrder S.equation S.first → IsRecordAt S.equation S.first p ps
        → MaximalAt (ring_of S.equation).ops (of_poly S.equation p) (IsIntegralAt (setting_of S.equation) Finite)
        S.first }
{}

/// A record of primes over p of any order lists the places over p: each prime is what one place has of the order, its
/// exponent is the ramification index of the place and its number the degree, different primes are those of different
/// places, and each place over p is that of a prime of the list.
pub fn order_places_law<S: FunctionSets>()
    ensures { (p : Polynomial S.field) (ps : List (RecordedPrime S.equation S.first))
        → ¬ (discriminant S.equation ≡ (polynomials S.field).𝟘)
        → IsIrreducibleList S.field.ops (codes_of S.field p) → IsOrder S.equation S.first
        → IsRecordAt S.equation S.first p ps
        → ArePrimesOfPlaces S.equation S.first p ps }
{}

/// Of the maximal order, a record of primes over p lists the places over p: the rows of its ideals span them, each
/// once, its exponents are their ramification indices, and its numbers are their degrees.
pub fn recorded_places_law()
    ensures { (k : CodeField) (c : Equation k) (p : Polynomial k)
        (ps : List (RecordedPrime c (IsIntegralAt (setting_of c) Finite)))
        → ¬ (discriminant c ≡ (polynomials k).𝟘) → IsIrreducibleList k.ops (codes_of k p)
        → IsRecordAt c (IsIntegralAt (setting_of c) Finite) p ps
        → AreAllPlaces c p ps }
{}

/// The conditions of L(D) on a side are those of the ideal of -D.
pub fn space_conditions_law()
    ensures { (k : CodeField) (c : Equation k) (s : Side) (D : Divisor (FunctionOf c))
        → ¬ (discriminant c ≡ (polynomials k).𝟘)
        → IsDivisorOn (setting_of c) s D → (z : FunctionOf c) → DivisorIdeal (setting_of c) s (opposite_divisor D) z
        ↔ MeetsOn (setting_of c) D s z }
{}

/// An order with 1, y, up to y^(n-1) is that of all integral functions where it is maximal at each irreducible
/// polynomial whose square divides the discriminant; so where it has a record of primes over each of them.
pub fn recorded_order_law<S: FunctionSets>()
    ensures maximal { IsOrder S.equation S.first
        → ((i : ℕ) → i < degree_of_y S.equation → S.first (pow (ring_of S.equation).ops (y_of S.equation) i))
        → ¬ (discriminant S.equation ≡ (polynomials S.field).𝟘)
        → ((p : Polynomial S.field) → IsIrreducibleList S.field.ops (codes_of S.field p)
        → IsDivisorIn (polynomials S.field).ops ((polynomials S.field).◌⊗◌ p p) (discriminant S.equation)
        → MaximalAt (ring_of S.equation).ops (of_poly S.equation p) (IsIntegralAt (setting_of S.equation) Finite)
        S.first)
        → SameSet S.first (IsIntegralAt (setting_of S.equation) Finite) }
    ensures recorded { IsOrder S.equation S.first
        → ((i : ℕ) → i < degree_of_y S.equation → S.first (pow (ring_of S.equation).ops (y_of S.equation) i))
        → ¬ (discriminant S.equation ≡ (polynomials S.field).𝟘)
        → ((p : Polynomial S.field) → IsIrreducibleList S.field.ops (codes_of S.field p)
        → IsDivisorIn (polynomials S.field).ops ((polynomials S.field).◌⊗◌ p p) (discriminant S.equation)
        → (ps : List (RecordedPrime S.equation S.first)) × IsRecordAt S.equation S.first p ps)
        → SameSet S.first (IsIntegralAt (setting_of S.equation) Finite) }
{}
