//! Riemann-Roch spaces of a function field F = k(x)[y]/(f) over a finite field k: lattices at infinity, reduced bases
//! of a pair of a lattice I over the polynomials and a lattice N over the fractions of degree at most 0, the space of
//! I ∩ N, the dimension of F over I + N, and the theorem of Riemann and Roch for a pair and its dual under the trace.
//! Nothing is asked of f but, where it is said, that its discriminant isn't 0: F need not be a field. Each main
//! theorem is the contract of a function with an empty body; the crates above cite the lemmas of proofs/.
#![tactic(auto)]

ghost use Rattle.std.specs.Prelude.{◌≡◌, ℕ, ◌+◌, ◌<◌, ℤ, ◌+ℤ◌, ◌-ℤ◌, List, length, map};
ghost use Rattle.std.proofs.Common.{pos};
ghost use Rattle.ring_theory.specs.Subsets.{Span, Colon};
ghost use Rattle.ff_fields.specs.Field.{CodeField};
ghost use Rattle.ff_fields.specs.Code.{code_ring};
ghost use Rattle.linear_theory.specs.Basis.{IsSum, IsNull};
ghost use Rattle.ff_poly.specs.Polynomials.{polynomials};
ghost use Rattle.function_field.specs.declared.side.Side.TheVariants.{Finite, Infinite};
ghost use Rattle.function_field.specs.Functions.{Equation, FunctionOf, ring_of, setting_of, degree_of_y, IsPolynomial};
ghost use Rattle.function_field.specs.Values.{Functions, functions, setting, equation_of};
ghost use Rattle.function_field.specs.Places.{IsIntegralAt};
ghost use Rattle.function_field.specs.Divisors.{Divisor, MeetsOn, InSpace, IsSpaceBasis, IsSimultaneousBasis, IsSumOfSides, SpansOnce, IsCanonical};
ghost use Rattle.function_field.specs.Discriminant.{discriminant};
ghost use Rattle.prime_theory.specs.Ideals.{SameSet};
ghost use Rattle.function_field.specs.Indices.{HasIndex, space_ops};
ghost use Rattle.lattice_theory.specs.Lattices.{IsLattice, polynomial_ops};
ghost use Rattle.reduced_basis_theory.specs.Degree.{size, degree_sum, dimension_sum, genus_sum};
ghost use Rattle.reduced_basis_theory.specs.Reduced.{IsReducedAt, layers};
ghost use Rattle.infinite_theory.specs.InfiniteMaps.{IsInfiniteMap};
ghost use Rattle.space_theory.specs.Spaces.{IsLatticeAtInfinity, multiples_of, IsReducedBasis, IsBasisOfBoth};
ghost use Rattle.space_theory.specs.TraceDuals.{TraceDual, InfiniteTraceDual, CanonicalDual, IsTraceDualBasis};

use infinite_theory::InfiniteSets;
use lattice_theory::FunctionSets;

/// Lattices at infinity: membership is decided, and such a lattice N has a basis of n functions over the fractions of
/// degree at most 0. A sum of r_i·b_i is in x^m·N exactly where each r_i has degree at most m. Where the discriminant
/// isn't 0, O_inf is one.
pub fn infinite_lattice_law<S: FunctionSets>()
    ensures decided { IsLatticeAtInfinity S.equation S.first → (z : FunctionOf S.equation) → Dec (S.first z) }
    ensures basis { IsLatticeAtInfinity S.equation S.first → (bs : List (FunctionOf S.equation))
        × (length bs ≡ degree_of_y S.equation)
        × SpansOnce (setting_of S.equation) Infinite S.first bs }
    ensures degrees { IsLatticeAtInfinity S.equation S.first → (bs : List (FunctionOf S.equation))
        × IsReducedAt (code_ring S.field) (polynomial_ops S.equation) (degree_of_y S.equation)
        (multiples_of S.equation S.first) bs (λ i. pos 0) }
    ensures integral { ¬ (discriminant S.equation ≡ (polynomials S.field).𝟘)
        → IsLatticeAtInfinity S.equation (IsIntegralAt (setting_of S.equation) Infinite) }
{}

/// The combinations of a lattice over k[t] over the fractions of degree at most 0 are a lattice at infinity.
pub fn combinations_law<L: InfiniteSets>()
    ensures { (c : ℕ) (f : Functions L.field L.infinite → Functions L.field L.presentation)
        → IsInfiniteMap L.field L.presentation L.infinite c f
        → IsLattice (equation_of L.field L.infinite) L.members → (gs : List (Functions L.field L.infinite))
        → SameSet L.members (Span (functions L.field L.infinite).ops (IsPolynomial (equation_of L.field L.infinite)) gs)
        → IsLatticeAtInfinity (equation_of L.field L.presentation)
        (Span (functions L.field L.presentation).ops ((setting L.field L.presentation).IsScalar Infinite) (map f gs)) }
{}

/// The index of a lattice at infinity in a larger one: there is one, it is one number, indices add along a chain, and
/// it is the difference of the sums of degrees of reduced bases with any one lattice over the polynomials.
pub fn infinite_index_law<S: FunctionSets>()
    ensures exists { IsLatticeAtInfinity S.equation S.first → IsLatticeAtInfinity S.equation S.second
        → ((z : FunctionOf S.equation) → S.first z → S.second z)
        → (g : ℕ) × HasIndex S.equation S.first S.second g }
    ensures once { IsLatticeAtInfinity S.equation S.first → (g h : ℕ) → HasIndex S.equation S.first S.second g
        → HasIndex S.equation S.first S.second h → g ≡ h }
    ensures add { IsLatticeAtInfinity S.equation S.first → IsLatticeAtInfinity S.equation S.second
        → IsLatticeAtInfinity S.equation S.third
        → ((z : FunctionOf S.equation) → S.first z → S.second z)
        → ((z : FunctionOf S.equation) → S.second z → S.third z) → (g h : ℕ)
        → HasIndex S.equation S.first S.second g → HasIndex S.equation S.second S.third h
        → HasIndex S.equation S.first S.third (g + h) }
    ensures degrees { IsLatticeAtInfinity S.equation S.first → IsLatticeAtInfinity S.equation S.second
        → ((z : FunctionOf S.equation) → S.first z → S.second z)
        → (a b : List (FunctionOf S.equation)) (d e : ℕ → ℤ) → IsReducedBasis S.equation S.third S.first a d
        → IsReducedBasis S.equation S.third S.second b e
        → (g : ℕ) → HasIndex S.equation S.first S.second g → pos g
        ≡ degree_sum (degree_of_y S.equation) d -ℤ degree_sum (degree_of_y S.equation) e }
{}

/// Each pair of a lattice and a lattice at infinity has a reduced basis: a basis b of the one over the polynomials
/// whose multiples x^(-d_i)·b_i are a basis of the other over the fractions of degree at most 0.
pub fn existence_law<S: FunctionSets>()
    ensures reduced { IsLattice S.equation S.first → IsLatticeAtInfinity S.equation S.second
        → (b : List (FunctionOf S.equation)) × (d : ℕ → ℤ) × IsReducedBasis S.equation S.first S.second b d }
    ensures basis { IsLattice S.equation S.first → IsLatticeAtInfinity S.equation S.second
        → (bs : List (FunctionOf S.equation)) × (ds : List ℤ) × IsBasisOfBoth S.equation S.first S.second bs ds }
{}

/// A divisor whose conditions at the finite places give a lattice, and those at the infinite ones a lattice at
/// infinity, has a simultaneous basis b with degrees d, and the x^j·b_i with 0 ≤ j ≤ -d_i are a basis of its space
/// over k.
pub fn divisor_basis_law()
    ensures { (k : CodeField) (c : Equation k) (D : Divisor (FunctionOf c))
        → IsLattice c (MeetsOn (setting_of c) D Finite)
        → IsLatticeAtInfinity c (MeetsOn (setting_of c) D Infinite) → (bs : List (FunctionOf c)) × (ds : List ℤ)
        × (d : ℕ → ℤ)
        × IsReducedBasis c (MeetsOn (setting_of c) D Finite) (MeetsOn (setting_of c) D Infinite) bs d
        × IsSimultaneousBasis (setting_of c) D bs ds
        × IsSpaceBasis (setting_of c) (InSpace (setting_of c) D)
        (layers (code_ring k) (polynomial_ops c) bs (λ i. size (pos 0 -ℤ d i))) }
{}

/// The x^j·b_i with 0 ≤ j ≤ m - d_i are a basis of I ∩ x^m·N over k, as many as the sum of the max(0, m + 1 - d_i).
/// With m = 0 they are one of I ∩ N.
pub fn space_law<S: FunctionSets>()
    ensures levels { (b : List (FunctionOf S.equation)) (d : ℕ → ℤ) → IsReducedBasis S.equation S.first S.second b d
        → (m : ℤ)
        → IsSpaceBasis (setting_of S.equation) (λ z. S.first z × multiples_of S.equation S.second m z)
        (layers (code_ring S.field) (polynomial_ops S.equation) b (λ i. size (m -ℤ d i))) }
    ensures count { (b : List (FunctionOf S.equation)) (d : ℕ → ℤ) → IsReducedBasis S.equation S.first S.second b d
        → (m : ℤ)
        → length (layers (code_ring S.field) (polynomial_ops S.equation) b (λ i. size (m -ℤ d i)))
        ≡ dimension_sum (degree_of_y S.equation) d m }
    ensures space { (b : List (FunctionOf S.equation)) (d : ℕ → ℤ) → IsReducedBasis S.equation S.first S.second b d
        → IsSpaceBasis (setting_of S.equation) (λ z. S.first z × S.second z)
        (layers (code_ring S.field) (polynomial_ops S.equation) b (λ i. size (pos 0 -ℤ d i))) }
    ensures dimension { (b : List (FunctionOf S.equation)) (d : ℕ → ℤ)
        → IsReducedBasis S.equation S.first S.second b d → (g : ℕ)
        → HasIndex S.equation (IsNull (space_ops S.equation)) (λ z. S.first z × S.second z) g
        → pos g ≡ pos (dimension_sum (degree_of_y S.equation) d (pos 0)) }
{}

/// The dimension of F over I + N is the sum of the max(0, d_i - 1). So where the discriminant isn't 0, the functions
/// have that dimension over the sums of a member of O_fin and one of O_inf.
pub fn genus_law<S: FunctionSets>()
    ensures dimension { (b : List (FunctionOf S.equation)) (d : ℕ → ℤ) → IsReducedBasis S.equation S.first S.second b d
        → HasIndex S.equation (IsSum (space_ops S.equation) S.first S.second) (λ z. Unit {0})
        (genus_sum (degree_of_y S.equation) d) }
    ensures sides { ¬ (discriminant S.equation ≡ (polynomials S.field).𝟘) → (b : List (FunctionOf S.equation))
        × (d : ℕ → ℤ)
        × IsReducedBasis S.equation (IsIntegralAt (setting_of S.equation) Finite)
        (IsIntegralAt (setting_of S.equation) Infinite) b d
        × HasIndex S.equation (IsSumOfSides (setting_of S.equation)) (λ z. Unit {0})
        (genus_sum (degree_of_y S.equation) d) }
{}

/// Where the discriminant isn't 0, a reduced basis has a dual basis under the trace of a product. It is reduced for
/// the pair of the duals with the degrees -d_i, and with 2 - d_i where traces of degree at most -2 are asked at
/// infinity. Over rings O and P these duals are what takes I and N into those of O and P.
pub fn duality_law<S: FunctionSets>()
    ensures dual { ¬ (discriminant S.equation ≡ (polynomials S.field).𝟘)
        → (b : List (FunctionOf S.equation)) (d : ℕ → ℤ)
        → IsReducedBasis S.equation S.first S.second b d → (b' : List (FunctionOf S.equation))
        × IsTraceDualBasis S.equation b b'
        × IsReducedBasis S.equation (TraceDual S.equation S.first) (InfiniteTraceDual S.equation S.second) b'
        (λ i. pos 0 -ℤ d i)
        × IsReducedBasis S.equation (TraceDual S.equation S.first) (CanonicalDual S.equation S.second) b'
        (λ i. pos 2 -ℤ d i) }
    ensures finite { S.first (ring_of S.equation).𝟙
        → ((v u : FunctionOf S.equation) → S.first v → S.second u → S.second ((ring_of S.equation).◌⊗◌ v u))
        → SameSet (TraceDual S.equation S.second)
        (Colon (ring_of S.equation).ops (TraceDual S.equation S.first) S.second) }
    ensures infinite { S.first (ring_of S.equation).𝟙
        → ((v u : FunctionOf S.equation) → S.first v → S.second u → S.second ((ring_of S.equation).◌⊗◌ v u))
        → SameSet (CanonicalDual S.equation S.second)
        (Colon (ring_of S.equation).ops (CanonicalDual S.equation S.first) S.second) }
{}

/// Riemann and Roch for a pair: the dimension of I ∩ N less that of its dual, with traces of degree at most -2 at
/// infinity, is n less the sum of the d_i. The sums of degrees of a pair and of that dual are 2n together.
pub fn riemann_roch_law<S: FunctionSets>()
    ensures dimensions { ¬ (discriminant S.equation ≡ (polynomials S.field).𝟘)
        → (b : List (FunctionOf S.equation)) (d : ℕ → ℤ)
        → IsReducedBasis S.equation S.first S.second b d → (g h : ℕ)
        → HasIndex S.equation (IsNull (space_ops S.equation)) (λ z. S.first z × S.second z) g
        → HasIndex S.equation (IsNull (space_ops S.equation))
        (λ z. TraceDual S.equation S.first z × CanonicalDual S.equation S.second z) h
        → pos g -ℤ pos h ≡ pos (degree_of_y S.equation) -ℤ degree_sum (degree_of_y S.equation) d }
    ensures canonical { ¬ (discriminant S.equation ≡ (polynomials S.field).𝟘)
        → (b b' : List (FunctionOf S.equation)) (d d' : ℕ → ℤ)
        → IsReducedBasis S.equation S.first S.second b d
        → IsReducedBasis S.equation (TraceDual S.equation S.first) (CanonicalDual S.equation S.second) b' d'
        → degree_sum (degree_of_y S.equation) d' +ℤ degree_sum (degree_of_y S.equation) d
        ≡ pos (degree_of_y S.equation + degree_of_y S.equation) }
{}

/// What a canonical divisor allows at the finite places is the dual of O_fin under the trace, and at the infinite ones
/// that of O_inf with traces of degree at most -2.
pub fn canonical_law()
    ensures { (k : CodeField) (c : Equation k) (W : Divisor (FunctionOf c)) → IsCanonical (setting_of c) W
        → SameSet (MeetsOn (setting_of c) W Finite) (TraceDual c (IsIntegralAt (setting_of c) Finite))
        × SameSet (MeetsOn (setting_of c) W Infinite) (CanonicalDual c (IsIntegralAt (setting_of c) Infinite)) }
{}
