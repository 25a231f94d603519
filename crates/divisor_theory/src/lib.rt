//! Divisors of a function field F = k(x)[y]/(f) over a finite field k, by the pairs of a lattice and a lattice at
//! infinity that stand for them: indices of products of infinite places, records of primes over t = 1/x, the genus
//! over the field of constants, and the theorem of Riemann and Roch by degrees. That F is a field is asked only where
//! it is said. Each main theorem is the contract of a function with an empty body; the crates above cite the lemmas of
//! proofs/.
#![tactic(auto)]

ghost use Rattle.std.specs.Prelude.{◌≡◌, ◌↔◌, ℕ, ◌+◌, ◌*◌, ◌-◌, ◌<◌, ℤ, ◌+ℤ◌, ◌-ℤ◌, ◌<ℤ◌, ◌≤ℤ◌, List, length, map};
ghost use Rattle.std.proofs.Common.{pos};
ghost use Rattle.ring_lemmas.specs.Ring.{IsField};
ghost use Rattle.ring_theory.specs.Subsets.{Span, Colon};
ghost use Rattle.ff_fields.specs.Field.{CodeField};
ghost use Rattle.ff_fields.specs.Code.{code_ring};
ghost use Rattle.ff_poly.specs.Polynomials.{polynomials, x_poly};
ghost use Rattle.linear_theory.specs.Basis.{IsNull};
ghost use Rattle.linear_theory.specs.Lists.{entry};
ghost use Rattle.prime_theory.specs.Ideals.{SameSet};
ghost use Rattle.function_field.specs.declared.side.Side.{Side};
ghost use Rattle.function_field.specs.declared.side.Side.TheVariants.{Finite, Infinite};
ghost use Rattle.function_field.specs.Functions.{Equation, FunctionOf, ring_of, setting_of, degree_of_y, IsFiniteAtInfinity};
ghost use Rattle.function_field.specs.Values.{PresValue, Functions, functions, equation_of};
ghost use Rattle.function_field.specs.Places.{Place, IsPlace, IsIntegralAt};
ghost use Rattle.function_field.specs.Divisors.{Divisor, IsDivisor, HasMultiplicity, HasTotalDegree, MeetsOn, InSpace, IsConstant, HasGenus, IsCanonical};
ghost use Rattle.function_field.specs.Discriminant.{discriminant};
ghost use Rattle.function_field.specs.Infinity.{IsInfinitePresentation};
ghost use Rattle.trace_theory.specs.Traces.{HasPolynomialCoordinates};
ghost use Rattle.function_field.specs.Indices.{HasIndex, space_ops};
ghost use Rattle.lattice_theory.specs.Lattices.{IsLattice, polynomial_ops};
ghost use Rattle.order_theory.specs.Orders.{IsOrder};
ghost use Rattle.reduced_basis_theory.specs.Degree.{degree_sum, dimension_sum, genus_sum};
ghost use Rattle.reduced_basis_theory.specs.Reduced.{InLattice};
ghost use Rattle.infinite_theory.specs.Supported.{IsSupportedAt};
ghost use Rattle.infinite_theory.specs.InfiniteMaps.{IsInfiniteMap};
ghost use Rattle.ideal_theory.specs.Ideals.{IsDivisorOn, DivisorIdeal};
ghost use Rattle.ideal_theory.specs.Indices.{HasRelativeIndex};
ghost use Rattle.ideal_theory.specs.Records.{RowSpan, RecordedPrime, IsRecordAt};
ghost use Rattle.space_theory.specs.Spaces.{IsLatticeAtInfinity, IsReducedBasis, multiples_of};
ghost use Rattle.space_theory.specs.TraceDuals.{TraceDual, CanonicalDual};
ghost use Rattle.divisor_theory.specs.Indices.{HasIndexAtInfinity};
ghost use Rattle.divisor_theory.specs.Parts.{IsDifference, IsPrincipal};
ghost use Rattle.divisor_theory.specs.InfiniteRecords.{AreInfinitePlaces};

use infinite_theory::InfiniteSets;
use lattice_theory::FunctionSets;

/// The index of one lattice at infinity relative to another, as an integer: there is one number, and it is the
/// difference of the sums of degrees of reduced bases with any one lattice over the polynomials.
pub fn infinite_relative_index_law<S: FunctionSets>()
    ensures once { IsLatticeAtInfinity S.equation S.first → IsLatticeAtInfinity S.equation S.second → (m n : ℤ)
        → HasIndexAtInfinity S.equation S.first S.second m
        → HasIndexAtInfinity S.equation S.first S.second n → m ≡ n }
    ensures degrees { IsLatticeAtInfinity S.equation S.first → IsLatticeAtInfinity S.equation S.second → (m : ℤ)
        → HasIndexAtInfinity S.equation S.first S.second m
        → IsLattice S.equation S.third → (a b : List (FunctionOf S.equation)) (d e : ℕ → ℤ)
        → IsReducedBasis S.equation S.third S.first a d
        → IsReducedBasis S.equation S.third S.second b e → m
        ≡ degree_sum (degree_of_y S.equation) d -ℤ degree_sum (degree_of_y S.equation) e }
{}

/// A product of powers of infinite places over O_inf is a lattice at infinity, whose index relative to O_inf is the
/// sum of the exponents times the degrees; exponents below 0 included.
pub fn infinite_ideal_law()
    ensures lattice { (k : CodeField) (c : Equation k) (D : Divisor (FunctionOf c))
        → ¬ (discriminant c ≡ (polynomials k).𝟘)
        → IsDivisorOn (setting_of c) Infinite D → IsLatticeAtInfinity c (DivisorIdeal (setting_of c) Infinite D) }
    ensures index { (k : CodeField) (c : Equation k) (D : Divisor (FunctionOf c)) (d : ℤ)
        → ¬ (discriminant c ≡ (polynomials k).𝟘)
        → IsDivisorOn (setting_of c) Infinite D → HasTotalDegree (setting_of c) D d
        → HasIndexAtInfinity c (DivisorIdeal (setting_of c) Infinite D) (IsIntegralAt (setting_of c) Infinite) d }
{}

/// A record of primes over t for an order in the infinite presentation lists the infinite places: the images of its
/// rows span them, each once, its exponents are their ramification indices over t, and its numbers are their degrees.
pub fn infinite_record_law<S: InfiniteSets>()
    ensures { (c : ℕ) (f : Functions S.field S.infinite → Functions S.field S.presentation)
        → IsInfiniteMap S.field S.presentation S.infinite c f
        → ¬ (discriminant (equation_of S.field S.infinite) ≡ (polynomials S.field).𝟘)
        → IsOrder (equation_of S.field S.infinite) S.members
        → (ps : List (RecordedPrime (equation_of S.field S.infinite) S.members))
        → IsRecordAt (equation_of S.field S.infinite) S.members (x_poly S.field) ps
        → AreInfinitePlaces S.field S.presentation S.infinite f S.members ps }
{}

/// The constants are the functions that are integral on both sides, and have the dimension over k that the degrees of
/// a reduced basis of (O_fin, O_inf) tell. An inverse of a constant is a constant; so they are a field where F is one.
pub fn constants_law()
    ensures members { (k : CodeField) (c : Equation k) → ¬ (discriminant c ≡ (polynomials k).𝟘) → (z : FunctionOf c)
        → IsConstant (setting_of c) z
        ↔ (IsIntegralAt (setting_of c) Finite z × IsIntegralAt (setting_of c) Infinite z) }
    ensures dimension { (k : CodeField) (c : Equation k) (b : List (FunctionOf c)) (d : ℕ → ℤ)
        → IsReducedBasis c (IsIntegralAt (setting_of c) Finite) (IsIntegralAt (setting_of c) Infinite) b d
        → HasIndex c (IsNull (space_ops c)) (IsConstant (setting_of c)) (dimension_sum (degree_of_y c) d (pos 0)) }
    ensures inverse { (k : CodeField) (c : Equation k) → ¬ (discriminant c ≡ (polynomials k).𝟘)
        → (z y : FunctionOf c) → IsConstant (setting_of c) z
        → (ring_of c).◌⊗◌ z y ≡ (ring_of c).𝟙 → IsConstant (setting_of c) y }
{}

/// The genus of a field F: it times the dimension of the constants over k is the sum of the max(0, d_i - 1) over the
/// degrees of a reduced basis of (O_fin, O_inf). There is a genus, and it is one number.
pub fn genus_over_constants_law()
    ensures degrees { (k : CodeField) (c : Equation k) → ¬ (discriminant c ≡ (polynomials k).𝟘)
        → IsField (ring_of c).ops
        → (b : List (FunctionOf c)) (d : ℕ → ℤ)
        → IsReducedBasis c (IsIntegralAt (setting_of c) Finite) (IsIntegralAt (setting_of c) Infinite) b d
        → (n : ℕ) → HasIndex c (IsNull (space_ops c)) (IsConstant (setting_of c)) n → (g : ℕ)
        → HasGenus (setting_of c) g
        → n * g ≡ genus_sum (degree_of_y c) d }
    ensures exists { (k : CodeField) (c : Equation k) → ¬ (discriminant c ≡ (polynomials k).𝟘)
        → IsField (ring_of c).ops → (g : ℕ) × HasGenus (setting_of c) g }
    ensures once { (k : CodeField) (c : Equation k) → ¬ (discriminant c ≡ (polynomials k).𝟘)
        → IsField (ring_of c).ops → (g h : ℕ)
        → HasGenus (setting_of c) g → HasGenus (setting_of c) h → g ≡ h }
{}

/// The pair of a divisor D: what it allows at the finite places is a lattice, and what it allows at the infinite ones
/// a lattice at infinity. The sum of degrees of its reduced bases is that of (O_fin, O_inf) less the degree of D. What
/// W - D allows on a side is what takes the functions that D allows into those that W allows.
pub fn divisor_pair_law()
    ensures finite { (k : CodeField) (c : Equation k) (D : Divisor (FunctionOf c))
        → ¬ (discriminant c ≡ (polynomials k).𝟘) → IsDivisor (setting_of c) D
        → IsLattice c (MeetsOn (setting_of c) D Finite) }
    ensures infinite { (k : CodeField) (c : Equation k) (D : Divisor (FunctionOf c))
        → ¬ (discriminant c ≡ (polynomials k).𝟘) → IsDivisor (setting_of c) D
        → IsLatticeAtInfinity c (MeetsOn (setting_of c) D Infinite) }
    ensures degrees { (k : CodeField) (c : Equation k) (D : Divisor (FunctionOf c))
        → ¬ (discriminant c ≡ (polynomials k).𝟘) → IsDivisor (setting_of c) D
        → (d : ℤ) → HasTotalDegree (setting_of c) D d → (a b : List (FunctionOf c)) (f g : ℕ → ℤ)
        → IsReducedBasis c (MeetsOn (setting_of c) D Finite) (MeetsOn (setting_of c) D Infinite) a f
        → IsReducedBasis c (IsIntegralAt (setting_of c) Finite) (IsIntegralAt (setting_of c) Infinite) b g
        → degree_sum (degree_of_y c) f ≡ degree_sum (degree_of_y c) g -ℤ d }
    ensures difference { (k : CodeField) (c : Equation k) (W D E : Divisor (FunctionOf c))
        → ¬ (discriminant c ≡ (polynomials k).𝟘) → IsDivisor (setting_of c) W
        → IsDivisor (setting_of c) D → IsDifference (setting_of c) W D E → (s : Side)
        → SameSet (MeetsOn (setting_of c) E s)
        (Colon (ring_of c).ops (MeetsOn (setting_of c) W s) (MeetsOn (setting_of c) D s)) }
{}

/// The sum of degrees of a pair: rows that span a lattice I over k[x], and rows over k[t] that span a lattice J which
/// differs from k[t][Y] at t alone. For the pair of I and the combinations of J over the fractions of degree at most 0
/// it is the index of I relative to k[x][y], that of J relative to k[t][Y], and c·n·(n - 1)/2.
pub fn sum_of_degrees_law()
    ensures sum { (k : CodeField) (p q : PresValue) (c : ℕ) (f : Functions k q → Functions k p)
        → IsInfiniteMap k p q c f → IsInfinitePresentation k p c q
        → (rows : List (Functions k p)) → IsLattice (equation_of k p) (RowSpan (equation_of k p) rows)
        → (infinite : List (Functions k q)) → IsLattice (equation_of k q) (RowSpan (equation_of k q) infinite)
        → IsSupportedAt (equation_of k q) (x_poly k) (RowSpan (equation_of k q) infinite)
        → (a b : ℤ) → HasRelativeIndex (equation_of k p) (RowSpan (equation_of k p) rows)
        (HasPolynomialCoordinates (equation_of k p)) a
        → HasRelativeIndex (equation_of k q) (RowSpan (equation_of k q) infinite)
        (HasPolynomialCoordinates (equation_of k q)) b
        → (bs : List (Functions k p)) (d : ℕ → ℤ) → IsReducedBasis (equation_of k p) (RowSpan (equation_of k p) rows)
        (Span (functions k p).ops (IsFiniteAtInfinity (equation_of k p)) (map f infinite)) bs d
        → degree_sum (degree_of_y (equation_of k p)) d
        ≡ (a +ℤ b) +ℤ degree_sum (degree_of_y (equation_of k p)) (λ i. pos (c * i)) }
    ensures standard { (c n : ℕ) → (degree_sum n (λ i. pos (c * i)) +ℤ degree_sum n (λ i. pos (c * i)))
        ≡ pos (c * (n * (n - 1))) }
{}

/// What a checker of a pair compares: n functions b_i in x^(d_i)·N that span I over the polynomials are a reduced
/// basis of (I, N) where the sum of the d_i is the sum of degrees of the pair.
pub fn reduced_certificate_law<S: FunctionSets>()
    ensures { (a : List (FunctionOf S.equation)) (e : ℕ → ℤ) → IsReducedBasis S.equation S.first S.second a e
        → (b : List (FunctionOf S.equation)) (d : ℕ → ℤ)
        → length b ≡ degree_of_y S.equation
        → SameSet S.first (InLattice (code_ring S.field) (polynomial_ops S.equation) b)
        → ((i : ℕ) → i < degree_of_y S.equation
        → multiples_of S.equation S.second (d i) (entry (ring_of S.equation).𝟘 b i))
        → degree_sum (degree_of_y S.equation) d ≡ degree_sum (degree_of_y S.equation) e
        → IsReducedBasis S.equation S.first S.second b d }
{}

/// Each two divisors have a difference. Each divisor has a degree, which is one number; and its space has a dimension
/// over k, which the degrees of a reduced basis of its pair tell.
pub fn divisor_degree_law()
    ensures difference { (k : CodeField) (c : Equation k) (W D : Divisor (FunctionOf c)) → IsDivisor (setting_of c) W
        → IsDivisor (setting_of c) D
        → (E : Divisor (FunctionOf c)) × IsDifference (setting_of c) W D E }
    ensures degree { (k : CodeField) (c : Equation k) (D : Divisor (FunctionOf c))
        → ¬ (discriminant c ≡ (polynomials k).𝟘) → IsDivisor (setting_of c) D
        → (d : ℤ) × HasTotalDegree (setting_of c) D d }
    ensures once { (k : CodeField) (c : Equation k) (D : Divisor (FunctionOf c))
        → ¬ (discriminant c ≡ (polynomials k).𝟘) → IsDivisor (setting_of c) D
        → (d e : ℤ) → HasTotalDegree (setting_of c) D d → HasTotalDegree (setting_of c) D e → d ≡ e }
    ensures basis { (k : CodeField) (c : Equation k) (D : Divisor (FunctionOf c))
        → ¬ (discriminant c ≡ (polynomials k).𝟘) → IsDivisor (setting_of c) D
        → (b : List (FunctionOf c)) × (d : ℕ → ℤ)
        × IsReducedBasis c (MeetsOn (setting_of c) D Finite) (MeetsOn (setting_of c) D Infinite) b d }
    ensures dimension { (k : CodeField) (c : Equation k) (D : Divisor (FunctionOf c)) (b : List (FunctionOf c))
        (d : ℕ → ℤ)
        → ¬ (discriminant c ≡ (polynomials k).𝟘) → IsDivisor (setting_of c) D
        → IsReducedBasis c (MeetsOn (setting_of c) D Finite) (MeetsOn (setting_of c) D Infinite) b d
        → HasIndex c (IsNull (space_ops c)) (InSpace (setting_of c) D) (dimension_sum (degree_of_y c) d (pos 0)) }
{}

/// A function with an inverse has a divisor, whose degree is 0. Where F is a field and the degree of D is below 0,
/// L(D) has no function but 0.
pub fn principal_degree_law()
    ensures exists { (k : CodeField) (c : Equation k) (z y : FunctionOf c) → ¬ (discriminant c ≡ (polynomials k).𝟘)
        → (ring_of c).◌⊗◌ z y ≡ (ring_of c).𝟙 → (D : Divisor (FunctionOf c)) × IsPrincipal (setting_of c) D z }
    ensures degree { (k : CodeField) (c : Equation k) (z y : FunctionOf c) (D : Divisor (FunctionOf c)) (d : ℤ)
        → ¬ (discriminant c ≡ (polynomials k).𝟘)
        → (ring_of c).◌⊗◌ z y ≡ (ring_of c).𝟙 → IsPrincipal (setting_of c) D z → HasTotalDegree (setting_of c) D d
        → d ≡ pos 0 }
    ensures negative { (k : CodeField) (c : Equation k) (D : Divisor (FunctionOf c)) (d : ℤ)
        → ¬ (discriminant c ≡ (polynomials k).𝟘) → IsField (ring_of c).ops
        → IsDivisor (setting_of c) D → HasTotalDegree (setting_of c) D d → d <ℤ pos 0 → (z : FunctionOf c)
        → InSpace (setting_of c) D z
        → z ≡ (ring_of c).𝟘 }
{}

/// Where F is a field, there is a canonical divisor; and any two have the same multiplicities. For where a divisor
/// allows on a side what another allows there, its multiplicities on the side are at least those of the other.
pub fn canonical_divisor_law()
    ensures exists { (k : CodeField) (c : Equation k) → ¬ (discriminant c ≡ (polynomials k).𝟘) → IsField (ring_of c).ops
        → (W : Divisor (FunctionOf c)) × IsCanonical (setting_of c) W }
    ensures once { (k : CodeField) (c : Equation k) (W V : Divisor (FunctionOf c))
        → ¬ (discriminant c ≡ (polynomials k).𝟘) → IsCanonical (setting_of c) W
        → IsCanonical (setting_of c) V → (P : Place (FunctionOf c)) → IsPlace (setting_of c) P → (m n : ℤ)
        → HasMultiplicity (setting_of c) W P m
        → HasMultiplicity (setting_of c) V P n → m ≡ n }
    ensures allowed { (k : CodeField) (c : Equation k) (D E : Divisor (FunctionOf c))
        → ¬ (discriminant c ≡ (polynomials k).𝟘) → IsDivisor (setting_of c) D
        → (P : Place (FunctionOf c)) → IsPlace (setting_of c) P
        → ((z : FunctionOf c) → MeetsOn (setting_of c) D P.side z → MeetsOn (setting_of c) E P.side z)
        → (m n : ℤ) → HasMultiplicity (setting_of c) D P m → HasMultiplicity (setting_of c) E P n → m ≤ℤ n }
{}

/// What a checker of a canonical divisor compares: a divisor W is canonical where what it allows on each side lies in
/// the dual of the integral functions of the side, with traces of degree at most -2 at infinity, and its degree is
/// twice the sum of degrees of (O_fin, O_inf) less 2n, for the degree n in y.
pub fn canonical_certificate_law()
    ensures { (k : CodeField) (c : Equation k) (W : Divisor (FunctionOf c)) → ¬ (discriminant c ≡ (polynomials k).𝟘)
        → IsDivisor (setting_of c) W
        → ((z : FunctionOf c) → MeetsOn (setting_of c) W Finite z → TraceDual c (IsIntegralAt (setting_of c) Finite) z)
        → ((z : FunctionOf c) → MeetsOn (setting_of c) W Infinite z
        → CanonicalDual c (IsIntegralAt (setting_of c) Infinite) z)
        → (w : ℤ) → HasTotalDegree (setting_of c) W w → (b : List (FunctionOf c)) (d : ℕ → ℤ)
        → IsReducedBasis c (IsIntegralAt (setting_of c) Finite) (IsIntegralAt (setting_of c) Infinite) b d
        → w ≡ (degree_sum (degree_of_y c) d +ℤ degree_sum (degree_of_y c) d) -ℤ pos (degree_of_y c + degree_of_y c)
        → IsCanonical (setting_of c) W }
{}

/// Riemann and Roch for a field F of genus g whose constants have dimension n over k: where W is canonical, the
/// dimensions over k of L(D) and L(W - D) differ by deg D + n·(1 - g). The degree of W is n·(2g - 2). Where that of D
/// is greater, the dimension of L(D) is deg D + n·(1 - g).
pub fn riemann_roch_law()
    ensures dimensions { (k : CodeField) (c : Equation k) → ¬ (discriminant c ≡ (polynomials k).𝟘)
        → IsField (ring_of c).ops
        → (n : ℕ) → HasIndex c (IsNull (space_ops c)) (IsConstant (setting_of c)) n → (g : ℕ)
        → HasGenus (setting_of c) g
        → (W D E : Divisor (FunctionOf c)) → IsCanonical (setting_of c) W → IsDivisor (setting_of c) D
        → IsDifference (setting_of c) W D E
        → (d : ℤ) → HasTotalDegree (setting_of c) D d → (l m : ℕ)
        → HasIndex c (IsNull (space_ops c)) (InSpace (setting_of c) D) l
        → HasIndex c (IsNull (space_ops c)) (InSpace (setting_of c) E) m → pos l -ℤ pos m
        ≡ d +ℤ (pos n -ℤ pos (n * g)) }
    ensures canonical { (k : CodeField) (c : Equation k) → ¬ (discriminant c ≡ (polynomials k).𝟘)
        → IsField (ring_of c).ops
        → (n : ℕ) → HasIndex c (IsNull (space_ops c)) (IsConstant (setting_of c)) n → (g : ℕ)
        → HasGenus (setting_of c) g
        → (W : Divisor (FunctionOf c)) → IsCanonical (setting_of c) W → (w : ℤ) → HasTotalDegree (setting_of c) W w
        → w ≡ pos (2 * (n * g)) -ℤ pos (2 * n) }
    ensures large { (k : CodeField) (c : Equation k) → ¬ (discriminant c ≡ (polynomials k).𝟘) → IsField (ring_of c).ops
        → (n : ℕ) → HasIndex c (IsNull (space_ops c)) (IsConstant (setting_of c)) n → (g : ℕ)
        → HasGenus (setting_of c) g
        → (D : Divisor (FunctionOf c)) → IsDivisor (setting_of c) D → (d : ℤ) → HasTotalDegree (setting_of c) D d
        → (pos (2 * (n * g)) -ℤ pos (2 * n)) <ℤ d → (l : ℕ)
        → HasIndex c (IsNull (space_ops c)) (InSpace (setting_of c) D) l
        → pos l ≡ d +ℤ (pos n -ℤ pos (n * g)) }
{}
