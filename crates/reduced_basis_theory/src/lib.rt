//! Reduced bases of pairs of lattices in a function field, and the theorem of Riemann and Roch: a theory without code,
//! by counting dimensions over the constants. Each main theorem is the contract of a function with an empty body; the
//! crates above cite the lemmas of proofs/.
//!
//! V is a module over the polynomials k[x] of a field k, as a function field is. A pair (I, N) stands for a divisor D:
//! I is the lattice over k[x] of what D allows at the finite positions, and N that over the fractions of degree at
//! most 0 of what it allows at infinity; so I ∩ N is L(D), and the dimension of V over I + N is the index of
//! speciality. N comes as the family of its multiples x^m·N. A *reduced basis* of (I, N) is a basis b_1, .., b_n of I
//! with integers d_1, .., d_n such that the sum of the r_i·b_i is in x^m·N exactly where each r_i has degree at most m
//! - d_i.
#![tactic(auto)]

ghost use Rattle.std.specs.Prelude.{◌≡◌, ℕ, suc, ◌+◌, ◌*◌, ◌<◌, ℤ, pos, ◌+ℤ◌, ◌-ℤ◌, ◌≤ℤ◌, ◌<ℤ◌, List, length, ◌↔◌};
ghost use Rattle.ring_lemmas.specs.Ring.{CommRing, TestedRing, IsField};
ghost use Rattle.ring_lemmas.specs.Polynomials.{Pol};
ghost use Rattle.ring_theory.specs.PolynomialRing.{pol_ring};
ghost use Rattle.linear_theory.specs.Fields.{Field};
ghost use Rattle.linear_theory.specs.Module.{Module, combine};
ghost use Rattle.linear_theory.specs.Basis.{IsBasis, IsNull, IsSubspace, IsSum};
ghost use Rattle.linear_theory.specs.Lists.{entry};
ghost use Rattle.reduced_basis_theory.specs.Degree.{size, DegreeAtMost, degree_sum, dimension_sum, genus_sum, count_up_to, HasAscendingDegrees};
ghost use Rattle.reduced_basis_theory.specs.Reduced.{InLattice, Coordinates, CoordinatesAtMost, divided, MultipliedByPower, IsReducedAt, IsReducedBasisOfPair, IsLatticeBasis, constants_ops, layers, Section, HasDimension, HasDivision, IsLocalPair, IsExtension};
ghost use Rattle.reduced_basis_theory.specs.Dual.{AreFractions, FractionAtMost, IsRestriction, IsPowerOfX, IsSymmetricForm, DualLattice, DualFamily, IsDualBasis, negated};
ghost use Rattle.reduced_basis_theory.specs.Rows.{from_rows, row_times, IsPredictable};
ghost use Rattle.reduced_basis_theory.specs.Canonical.{HasLinearProducts, IsTraceForm, IsModulePair, IsCanonicalPair, IsDifferencePair};

use ring_theory::sets::Subset;

/// Subsets of V, one for each integer m: the multiples x^m·N of a lattice N. Only theorems use it, as a type parameter
/// that no value has.
pub trait Filtration<V> {
    ghost members: { ℤ → V → Type 0 };
}

/// Predictable degree: the sum of the p_i·b_i is in x^m·N exactly where each p_i has degree at most m - d_i, for
/// polynomials p_i and for fractions of polynomials. So the x^(-d_i)·b_i are a basis of N over the fractions of degree
/// at most 0. An element that isn't 0 has a least m with it in x^m·N.
pub fn predictable_degree_law<T, V, Q, N: Filtration<V>>()
    ensures polynomials { (k : TestedRing T) → IsField k.ops
        → (M : Module (pol_ring k).ring V) (n : ℕ) (b : List V) (d : ℕ → ℤ)
        → IsReducedAt k M.ops n N.members b d → (p : ℕ → Pol k) (m : ℤ)
        → N.members m (combine M.ops p b) ↔ ((i : ℕ) → i < n → DegreeAtMost k (p i) (m -ℤ d i)) }
    ensures fractions { (k : TestedRing T) → IsField k.ops
        → (M : Module (pol_ring k).ring V) (n : ℕ) (b : List V) (d : ℕ → ℤ)
        → IsReducedAt k M.ops n N.members b d → (R : CommRing Q) (ι : Pol k → Q) → AreFractions k R.ops ι
        → (K : Module R V)
        → IsRestriction k M.ops ι K.ops → (r : ℕ → Q) (m : ℤ)
        → N.members m (combine K.ops r b) ↔ ((i : ℕ) → i < n → FractionAtMost k R.ops ι (r i) (m -ℤ d i)) }
    ensures normal { (k : TestedRing T) → IsField k.ops
        → (M : Module (pol_ring k).ring V) (n : ℕ) (b : List V) (d : ℕ → ℤ)
        → IsReducedAt k M.ops n N.members b d → (R : CommRing Q) (ι : Pol k → Q) → AreFractions k R.ops ι
        → (K : Module R V)
        → IsRestriction k M.ops ι K.ops → (u : ℕ → Q) → ((i : ℕ) → i < n → IsPowerOfX k R.ops ι (pos 0 -ℤ d i) (u i))
        → (s : ℕ → Q) (m : ℤ)
        → N.members m (combine K.ops (λ i. R.◌⊗◌ (s i) (u i)) b)
        ↔ ((i : ℕ) → i < n → FractionAtMost k R.ops ι (s i) m) }
    ensures least { (k : TestedRing T) → IsField k.ops
        → (M : Module (pol_ring k).ring V) (n : ℕ) (b : List V) (d : ℕ → ℤ)
        → IsReducedAt k M.ops n N.members b d
        → ((e : Pol k) (z : V) → ¬ (e ≡ (pol_ring k).𝟘) → M.◌•◌ e z ≡ M.𝟬 → z ≡ M.𝟬)
        → (z : V) → ¬ (z ≡ M.𝟬) → (m : ℤ) × N.members m z × ((l : ℤ) → N.members l z → m ≤ℤ l) }
{}

/// Where x has an inverse on V, what holds of N and its members' coordinates holds of each x^m·N: one set N is enough.
pub fn multiples_law<T, V, N: Subset<V>>()
    ensures { (k : TestedRing T) → IsField k.ops
        → (M : Module (pol_ring k).ring V) (x : HasDivision k M.ops) (n : ℕ) (b : List V) (d : ℕ → ℤ)
        → length b ≡ n → ((p : ℕ → Pol k) → combine M.ops p b ≡ M.𝟬 → (i : ℕ) → i < n → p i ≡ (pol_ring k).𝟘)
        → ((z : V) → Coordinates k M.ops b z)
        → ((z : V) (e : Pol k) (p : ℕ → Pol k) → ¬ (e ≡ (pol_ring k).𝟘) → M.◌•◌ e z ≡ combine M.ops p b
        → N.members z ↔ CoordinatesAtMost k n d e p (pos 0))
        → IsReducedAt k M.ops n (MultipliedByPower k M.ops (divided x.divide) N.members) b d }
{}

/// A matrix with predictable degrees, as a Popov form, takes a reduced basis to one.
pub fn reduction_law<T, V, N: Filtration<V>>()
    ensures { (k : TestedRing T) → IsField k.ops → (M : Module (pol_ring k).ring V) (n : ℕ) (h : List V) (t : ℕ → ℤ)
        → IsReducedAt k M.ops n N.members h t → (P : ℕ → ℕ → Pol k) (d : ℕ → ℤ) → IsPredictable k n P t d
        → ((c : ℕ → Pol k) → ((j : ℕ) → j < n → row_times k n c P j ≡ (pol_ring k).𝟘) → (i : ℕ) → i < n → c i
        ≡ (pol_ring k).𝟘)
        → ((z : V) → Coordinates k M.ops (from_rows k M.ops n h P) z)
        → IsReducedAt k M.ops n N.members (from_rows k M.ops n h P) d }
{}

/// Each pair of a lattice I and a lattice N at infinity has a reduced basis.
pub fn existence_law<T, V, I: Subset<V>, N: Filtration<V>>()
    ensures { (k : TestedRing T) → IsField k.ops → (M : Module (pol_ring k).ring V) (n : ℕ) (h : List V) (t : ℕ → ℤ)
        → IsReducedAt k M.ops (suc n) N.members h t → (g : List V) → IsLatticeBasis k M.ops (suc n) I.members g
        → (b : List V) × (d : ℕ → ℤ) × IsReducedBasisOfPair k M.ops (suc n) I.members N.members b d }
{}

/// The x^j·b_i with 0 ≤ j ≤ m - d_i are a basis of I ∩ x^m·N over the constants. So its dimension is the sum of the
/// max(0, m + 1 - d_i).
pub fn space_law<T, V, I: Subset<V>, N: Filtration<V>>()
    ensures basis { (k : TestedRing T) → IsField k.ops
        → (M : Module (pol_ring k).ring V) (n : ℕ) (b : List V) (d : ℕ → ℤ)
        → IsReducedBasisOfPair k M.ops n I.members N.members b d → (m : ℤ)
        → IsBasis k.ops (constants_ops k M.ops) (IsNull M.ops) (Section I.members N.members m)
        (layers k M.ops b (λ i. size (m -ℤ d i))) }
    ensures dimension { (k : TestedRing T) → IsField k.ops
        → (M : Module (pol_ring k).ring V) (n : ℕ) (b : List V) (d : ℕ → ℤ)
        → IsReducedBasisOfPair k M.ops n I.members N.members b d → (m : ℤ)
        → HasDimension k M.ops (IsNull M.ops) (Section I.members N.members m) (pos (dimension_sum n d m)) }
{}

/// The pair tells the degrees of its reduced bases, up to their order; a smaller pair has the greater sum of degrees.
pub fn degrees_law<T, V, I: Subset<V>, N: Filtration<V>, J: Subset<V>, L: Filtration<V>>()
    ensures counts { (k : TestedRing T) → IsField k.ops
        → (M : Module (pol_ring k).ring V) (n : ℕ) (b b' : List V) (d d' : ℕ → ℤ)
        → IsReducedBasisOfPair k M.ops n I.members N.members b d
        → IsReducedBasisOfPair k M.ops n I.members N.members b' d'
        → (m : ℤ) → count_up_to n d m ≡ count_up_to n d' m }
    ensures ascending { (k : TestedRing T) → IsField k.ops
        → (M : Module (pol_ring k).ring V) (n : ℕ) (b b' : List V) (d d' : ℕ → ℤ)
        → IsReducedBasisOfPair k M.ops n I.members N.members b d
        → IsReducedBasisOfPair k M.ops n I.members N.members b' d'
        → HasAscendingDegrees n d → HasAscendingDegrees n d' → (i : ℕ) → i < n → d i ≡ d' i }
    ensures sum { (k : TestedRing T) → IsField k.ops
        → (M : Module (pol_ring k).ring V) (n : ℕ) (b b' : List V) (d d' : ℕ → ℤ)
        → IsReducedBasisOfPair k M.ops n I.members N.members b d
        → IsReducedBasisOfPair k M.ops n I.members N.members b' d' → degree_sum n d ≡ degree_sum n d' }
    ensures monotone { (k : TestedRing T) → IsField k.ops
        → (M : Module (pol_ring k).ring V) (n : ℕ) (b b' : List V) (d d' : ℕ → ℤ)
        → IsReducedBasisOfPair k M.ops n I.members N.members b d
        → IsReducedBasisOfPair k M.ops n J.members L.members b' d'
        → ((z : V) → I.members z → J.members z) → ((m : ℤ) (z : V) → N.members m z → L.members m z)
        → degree_sum n d' ≤ℤ degree_sum n d }
{}

/// Elements b_i in x^(d_i)·N, as many as V has dimensions, that span I have degrees d_i of at least the sum of those
/// of a reduced basis; where the sums agree, they are a reduced basis.
pub fn spanning_law<T, V, I: Subset<V>, N: Filtration<V>>()
    ensures bound { (k : TestedRing T) → IsField k.ops
        → (M : Module (pol_ring k).ring V) (n : ℕ) (p b : List V) (e d : ℕ → ℤ)
        → IsReducedBasisOfPair k M.ops n I.members N.members p e → length b ≡ n
        → ((z : V) → I.members z ↔ InLattice k M.ops b z)
        → ((i : ℕ) → i < n → N.members (d i) (entry M.𝟬 b i)) → degree_sum n e ≤ℤ degree_sum n d }
    ensures reduced { (k : TestedRing T) → IsField k.ops
        → (M : Module (pol_ring k).ring V) (n : ℕ) (p b : List V) (e d : ℕ → ℤ)
        → IsReducedBasisOfPair k M.ops n I.members N.members p e → length b ≡ n
        → ((z : V) → I.members z ↔ InLattice k M.ops b z)
        → ((i : ℕ) → i < n → N.members (d i) (entry M.𝟬 b i)) → degree_sum n d ≡ degree_sum n e
        → IsReducedBasisOfPair k M.ops n I.members N.members b d }
{}

/// The dimension of a lattice over a smaller one is the difference of the sums of degrees, over the polynomials and at
/// infinity. The difference of the sums of two families is the same for each lattice.
pub fn index_law<T, V, I: Subset<V>, J: Subset<V>, N: Filtration<V>, L: Filtration<V>>()
    ensures finite { (k : TestedRing T) → IsField k.ops
        → (M : Module (pol_ring k).ring V) (n : ℕ) (b b' : List V) (d d' : ℕ → ℤ)
        → IsReducedBasisOfPair k M.ops n I.members N.members b d
        → IsReducedBasisOfPair k M.ops n J.members N.members b' d' → ((z : V) → J.members z → I.members z)
        → HasDimension k M.ops J.members I.members (degree_sum n d' -ℤ degree_sum n d) }
    ensures infinite { (k : TestedRing T) → IsField k.ops
        → (M : Module (pol_ring k).ring V) (n : ℕ) (b b' : List V) (d d' : ℕ → ℤ)
        → HasDivision k M.ops → IsReducedBasisOfPair k M.ops n I.members N.members b d
        → IsReducedBasisOfPair k M.ops n I.members L.members b' d'
        → ((m : ℤ) (z : V) → L.members m z → N.members m z)
        → HasDimension k M.ops (L.members (pos 0)) (N.members (pos 0)) (degree_sum n d' -ℤ degree_sum n d) }
    ensures shift { (k : TestedRing T) → IsField k.ops
        → (M : Module (pol_ring k).ring V) (n : ℕ) (b c b' c' : List V) (d f d' f' : ℕ → ℤ)
        → IsReducedBasisOfPair k M.ops n I.members N.members b d
        → IsReducedBasisOfPair k M.ops n I.members L.members c f
        → IsReducedBasisOfPair k M.ops n J.members N.members b' d'
        → IsReducedBasisOfPair k M.ops n J.members L.members c' f'
        → (e : Pol k) → ¬ (e ≡ (pol_ring k).𝟘) → ((z : V) → J.members z → I.members (M.◌•◌ e z))
        → (degree_sum n d -ℤ degree_sum n f) ≡ (degree_sum n d' -ℤ degree_sum n f') }
{}

/// The sum of degrees of (I, N), where N is spanned by a local lattice J within a standard one J₀: the dimension of J₀
/// over J, and the sums of I in a family Y and of a standard lattice I₀ in both.
pub fn sum_of_degrees_law<
    T,
    V,
    J: Subset<V>,
    J0: Subset<V>,
    N: Filtration<V>,
    N0: Filtration<V>,
    I: Subset<V>,
    I0: Subset<V>,
    Y: Filtration<V>,
>()
    ensures index { (k : TestedRing T) → IsField k.ops → (M : Module (pol_ring k).ring V) (n : ℕ) → HasDivision k M.ops
        → IsLocalPair k M.ops J.members J0.members N.members N0.members → IsSubspace (constants_ops k M.ops) J0.members
        → (l : ℤ) → HasDimension k M.ops J.members J0.members l → (b c : List V) (d f : ℕ → ℤ)
        → IsReducedBasisOfPair k M.ops n I.members N.members b d
        → IsReducedBasisOfPair k M.ops n I.members N0.members c f
        → l ≡ degree_sum n d -ℤ degree_sum n f }
    ensures sum { (k : TestedRing T) → IsField k.ops → (M : Module (pol_ring k).ring V) (n : ℕ) → HasDivision k M.ops
        → IsLocalPair k M.ops J.members J0.members N.members N0.members → IsSubspace (constants_ops k M.ops) J0.members
        → (l : ℤ) → HasDimension k M.ops J.members J0.members l → (b c y b₀ y₀ : List V) (d f g d₀ g₀ : ℕ → ℤ)
        → IsReducedBasisOfPair k M.ops n I.members N.members b d
        → IsReducedBasisOfPair k M.ops n I.members N0.members c f
        → IsReducedBasisOfPair k M.ops n I.members Y.members y g
        → IsReducedBasisOfPair k M.ops n I0.members N0.members b₀ d₀
        → IsReducedBasisOfPair k M.ops n I0.members Y.members y₀ g₀
        → (e : Pol k) → ¬ (e ≡ (pol_ring k).𝟘) → ((z : V) → I0.members z → I.members (M.◌•◌ e z))
        → degree_sum n d ≡ ((l +ℤ degree_sum n g) +ℤ (degree_sum n d₀ -ℤ degree_sum n g₀)) }
{}

/// The dimension of V over I + N is the sum of the max(0, d_i - 1). That of I ∩ N less it is n less the sum of the
/// degrees.
pub fn genus_law<T, V, I: Subset<V>, N: Filtration<V>>()
    ensures dimension { (k : TestedRing T) → IsField k.ops
        → (M : Module (pol_ring k).ring V) (n : ℕ) (b : List V) (d : ℕ → ℤ)
        → HasDivision k M.ops → IsReducedBasisOfPair k M.ops n I.members N.members b d
        → HasDimension k M.ops (IsSum (constants_ops k M.ops) I.members (N.members (pos 0))) (λ z. Unit {0})
        (pos (genus_sum n d)) }
    ensures difference { (n : ℕ) (d : ℕ → ℤ) → (pos (dimension_sum n d (pos 0)) -ℤ pos (genus_sum n d))
        ≡ (pos n -ℤ degree_sum n d) }
{}

/// Where I ∩ N is a field within the ring V, no degree is negative. V has a basis over I + N as a space over a larger
/// field of constants that leaves I + N in itself. Its length, the genus, times the dimension of that field over k is
/// the sum of the max(0, d_i - 1).
pub fn constants_law<T, V, C, I: Subset<V>, N: Filtration<V>>()
    ensures nonnegative { (k : TestedRing T) → IsField k.ops
        → (M : Module (pol_ring k).ring V) (n : ℕ) (b : List V) (d : ℕ → ℤ)
        → (F : CommRing V) → HasLinearProducts M.ops F.ops → ((p : Pol k) → M.◌•◌ p F.𝟙 ≡ M.𝟬 → p ≡ (pol_ring k).𝟘)
        → IsReducedBasisOfPair k M.ops n I.members N.members b d → Section I.members N.members (pos 0) F.𝟙
        → ((u v : V) → Section I.members N.members (pos 0) u → Section I.members N.members (pos 0) v
        → Section I.members N.members (pos 0) (F.◌⊗◌ u v))
        → ((u : V) → Section I.members N.members (pos 0) u → ¬ (u ≡ M.𝟬)
        → (v : V) × Section I.members N.members (pos 0) v × (F.◌⊗◌ u v ≡ F.𝟙))
        → (i : ℕ) → i < n → pos 0 ≤ℤ d i }
    ensures exists { (k : TestedRing T) → IsField k.ops
        → (M : Module (pol_ring k).ring V) (n : ℕ) (b : List V) (d : ℕ → ℤ)
        → HasDivision k M.ops → IsReducedBasisOfPair k M.ops n I.members N.members b d
        → (L : Field C) (S : Module k.ring C) (X : Module L.ring V) → IsExtension k M.ops L.ring.ops S.ops X.ops
        → (θ : List C) → IsBasis k.ops S.ops (IsNull S.ops) (λ t. Unit {0}) θ
        → IsSubspace X.ops (IsSum (constants_ops k M.ops) I.members (N.members (pos 0)))
        → (ws : List V) × IsBasis L.ring.ops X.ops (IsSum (constants_ops k M.ops) I.members (N.members (pos 0)))
        (λ z. Unit {0}) ws }
    ensures genus { (k : TestedRing T) → IsField k.ops
        → (M : Module (pol_ring k).ring V) (n : ℕ) (b : List V) (d : ℕ → ℤ)
        → HasDivision k M.ops → IsReducedBasisOfPair k M.ops n I.members N.members b d
        → (L : Field C) (S : Module k.ring C) (X : Module L.ring V) → IsExtension k M.ops L.ring.ops S.ops X.ops
        → (θ : List C) → IsBasis k.ops S.ops (IsNull S.ops) (λ t. Unit {0}) θ
        → (ws : List V) → IsBasis L.ring.ops X.ops (IsSum (constants_ops k M.ops) I.members (N.members (pos 0)))
        (λ z. Unit {0}) ws
        → length ws * length θ ≡ genus_sum n d }
{}

/// Under a form, as the trace of a product, each basis has a dual basis. The dual basis of a reduced basis of (I, N)
/// is a reduced basis of the dual pair, with the degrees -d_i; and the dual of the dual is the pair itself.
pub fn duality_law<T, V, Q, I: Subset<V>, N: Filtration<V>>()
    ensures exists { (k : TestedRing T) → IsField k.ops
        → (M : Module (pol_ring k).ring V) (R : CommRing Q) (ι : Pol k → Q) → AreFractions k R.ops ι
        → (tr : V → V → Q) → IsSymmetricForm k M.ops R.ops ι tr → (n : ℕ) (b : List V) (d : ℕ → ℤ)
        → IsReducedAt k M.ops n N.members b d
        → ((e : Pol k) → ¬ (e ≡ (pol_ring k).𝟘) → (z : V) → (w : V) × (M.◌•◌ e w ≡ z))
        → (c : List V) × IsDualBasis k M.ops ι tr n b c }
    ensures reduced { (k : TestedRing T) → IsField k.ops
        → (M : Module (pol_ring k).ring V) (R : CommRing Q) (ι : Pol k → Q) → AreFractions k R.ops ι
        → (tr : V → V → Q) → IsSymmetricForm k M.ops R.ops ι tr → (n : ℕ) (b c : List V) (d : ℕ → ℤ)
        → IsReducedBasisOfPair k M.ops n I.members N.members b d
        → IsDualBasis k M.ops ι tr n b c
        → IsReducedBasisOfPair k M.ops n (DualLattice k ι tr I.members) (DualFamily k R.ops ι tr N.members) c
        (negated d) }
    ensures double_lattice { (k : TestedRing T) → IsField k.ops
        → (M : Module (pol_ring k).ring V) (R : CommRing Q) (ι : Pol k → Q) → AreFractions k R.ops ι
        → (tr : V → V → Q) → IsSymmetricForm k M.ops R.ops ι tr → (n : ℕ) (b c : List V) (d : ℕ → ℤ)
        → IsReducedBasisOfPair k M.ops n I.members N.members b d
        → IsDualBasis k M.ops ι tr n b c → (z : V) → DualLattice k ι tr (DualLattice k ι tr I.members) z ↔ I.members z }
    ensures double_family { (k : TestedRing T) → IsField k.ops
        → (M : Module (pol_ring k).ring V) (R : CommRing Q) (ι : Pol k → Q) → AreFractions k R.ops ι
        → (tr : V → V → Q) → IsSymmetricForm k M.ops R.ops ι tr → (n : ℕ) (b c : List V) (d : ℕ → ℤ)
        → IsReducedBasisOfPair k M.ops n I.members N.members b d
        → IsDualBasis k M.ops ι tr n b c → (m : ℤ) (z : V)
        → DualFamily k R.ops ι tr (DualFamily k R.ops ι tr N.members) m z ↔ N.members m z }
{}

/// The dual basis of a reduced basis for a divisor D is one for W - D, with the degrees 2 - d_i, where W is canonical.
/// The sums of degrees for W and for the zero divisor are 2n together.
pub fn canonical_law<
    T,
    V,
    Q,
    O: Subset<V>,
    P: Filtration<V>,
    W: Subset<V>,
    X: Filtration<V>,
    I: Subset<V>,
    N: Filtration<V>,
    J: Subset<V>,
    L: Filtration<V>,
>()
    ensures difference { (k : TestedRing T) → IsField k.ops
        → (M : Module (pol_ring k).ring V) (F : CommRing V) (R : CommRing Q) (ι : Pol k → Q)
        → (tr : V → V → Q) → IsTraceForm k M.ops F.ops R.ops ι tr → O.members F.𝟙 → P.members (pos 0) F.𝟙
        → IsCanonicalPair k R.ops ι tr O.members P.members W.members X.members
        → IsModulePair F.ops O.members P.members I.members N.members
        → IsDifferencePair F.ops W.members X.members I.members N.members J.members L.members
        → (n : ℕ) (b c : List V) (d : ℕ → ℤ) → IsReducedBasisOfPair k M.ops n I.members N.members b d
        → IsDualBasis k M.ops ι tr n b c
        → IsReducedBasisOfPair k M.ops n J.members L.members c (λ i. pos 2 -ℤ d i) }
    ensures sum { (k : TestedRing T) → IsField k.ops → (M : Module (pol_ring k).ring V) (F : CommRing V)
        → HasLinearProducts M.ops F.ops
        → (R : CommRing Q) (ι : Pol k → Q) (tr : V → V → Q) → IsTraceForm k M.ops F.ops R.ops ι tr
        → IsCanonicalPair k R.ops ι tr O.members P.members W.members X.members
        → (n : ℕ) (β γ b : List V) (δ d : ℕ → ℤ) → IsReducedBasisOfPair k M.ops n O.members P.members β δ
        → IsDualBasis k M.ops ι tr n β γ
        → IsReducedBasisOfPair k M.ops n W.members X.members b d → (degree_sum n d +ℤ degree_sum n δ) ≡ pos (n + n) }
{}

/// Riemann and Roch, for a divisor D by its pair (I, N), and W - D by (J, L): the dimensions of L(D) and L(W - D)
/// differ by n less the sum of degrees for D. That is the degree of D, as the difference of the sums for 0 and for D,
/// with the dimension of L(0) less that of V over O + P.
pub fn riemann_roch_law<
    T,
    V,
    Q,
    O: Subset<V>,
    P: Filtration<V>,
    W: Subset<V>,
    X: Filtration<V>,
    I: Subset<V>,
    N: Filtration<V>,
    J: Subset<V>,
    L: Filtration<V>,
>()
    ensures dimensions { (k : TestedRing T) → IsField k.ops
        → (M : Module (pol_ring k).ring V) (F : CommRing V) (R : CommRing Q) (ι : Pol k → Q)
        → (tr : V → V → Q) → IsTraceForm k M.ops F.ops R.ops ι tr → O.members F.𝟙 → P.members (pos 0) F.𝟙
        → IsCanonicalPair k R.ops ι tr O.members P.members W.members X.members
        → IsModulePair F.ops O.members P.members I.members N.members
        → IsDifferencePair F.ops W.members X.members I.members N.members J.members L.members
        → (n : ℕ) (b c : List V) (d : ℕ → ℤ) → IsReducedBasisOfPair k M.ops n I.members N.members b d
        → IsDualBasis k M.ops ι tr n b c
        → (l l' : ℤ) → HasDimension k M.ops (IsNull M.ops) (Section I.members N.members (pos 0)) l
        → HasDimension k M.ops (IsNull M.ops) (Section J.members L.members (pos 0)) l' → l -ℤ l'
        ≡ pos n -ℤ degree_sum n d }
    ensures genus { (k : TestedRing T) → IsField k.ops
        → (M : Module (pol_ring k).ring V) (F : CommRing V) (R : CommRing Q) (ι : Pol k → Q)
        → (tr : V → V → Q) → IsTraceForm k M.ops F.ops R.ops ι tr → O.members F.𝟙 → P.members (pos 0) F.𝟙
        → IsCanonicalPair k R.ops ι tr O.members P.members W.members X.members
        → IsModulePair F.ops O.members P.members I.members N.members
        → IsDifferencePair F.ops W.members X.members I.members N.members J.members L.members
        → (n : ℕ) (b c β : List V) (d δ : ℕ → ℤ) → IsReducedBasisOfPair k M.ops n I.members N.members b d
        → IsDualBasis k M.ops ι tr n b c
        → (l l' : ℤ) → HasDimension k M.ops (IsNull M.ops) (Section I.members N.members (pos 0)) l
        → HasDimension k M.ops (IsNull M.ops) (Section J.members L.members (pos 0)) l'
        → HasDivision k M.ops → IsReducedBasisOfPair k M.ops n O.members P.members β δ
        → (l₀ h : ℤ) → HasDimension k M.ops (IsNull M.ops) (Section O.members P.members (pos 0)) l₀
        → HasDimension k M.ops (IsSum (constants_ops k M.ops) O.members (P.members (pos 0))) (λ z. Unit {0}) h
        → l -ℤ l' ≡ (degree_sum n δ -ℤ degree_sum n d) +ℤ (l₀ -ℤ h) }
{}

/// An element with an inverse in I ∩ N makes the sum of degrees at most that of (O, P): a divisor with such a function
/// has degree at least 0. Where the sum is less than for a canonical divisor, and the dual basis has inverses, each
/// degree is at most 1: the divisor isn't special.
pub fn positivity_law<T, V, Q, O: Subset<V>, P: Filtration<V>, I: Subset<V>, N: Filtration<V>>()
    ensures positive { (k : TestedRing T) → IsField k.ops → (M : Module (pol_ring k).ring V) (F : CommRing V)
        → HasLinearProducts M.ops F.ops
        → (n : ℕ) (β b : List V) (δ d : ℕ → ℤ) → IsReducedBasisOfPair k M.ops n O.members P.members β δ
        → IsModulePair F.ops O.members P.members I.members N.members
        → IsReducedBasisOfPair k M.ops n I.members N.members b d
        → (z w : V) → F.◌⊗◌ z w ≡ F.𝟙 → Section I.members N.members (pos 0) z → degree_sum n d ≤ℤ degree_sum n δ }
    ensures nonspecial { (k : TestedRing T) → IsField k.ops → (M : Module (pol_ring k).ring V) (F : CommRing V)
        → HasLinearProducts M.ops F.ops
        → (R : CommRing Q) (ι : Pol k → Q) (tr : V → V → Q) → IsTraceForm k M.ops F.ops R.ops ι tr
        → (n : ℕ) (β γ b c : List V) (δ d : ℕ → ℤ) → IsReducedBasisOfPair k M.ops n O.members P.members β δ
        → IsModulePair F.ops O.members P.members I.members N.members
        → IsReducedBasisOfPair k M.ops n I.members N.members b d
        → IsDualBasis k M.ops ι tr n β γ → IsDualBasis k M.ops ι tr n b c → O.members F.𝟙 → P.members (pos 0) F.𝟙
        → ((i : ℕ) → i < n → (w : V) × (F.◌⊗◌ (entry M.𝟬 c i) w ≡ F.𝟙))
        → degree_sum n d <ℤ degree_sum n (λ i. pos 2 -ℤ δ i) → (i : ℕ) → i < n → d i ≤ℤ pos 1 }
{}
