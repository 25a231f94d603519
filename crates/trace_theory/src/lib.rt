//! Traces and discriminants in a function field F = k(x)[y]/(f), and the functions that are integral over the
//! polynomials or over the fractions of degree at most 0. The field k is finite. Nothing is asked of f: F need not be a
//! field. Each main theorem is the contract of a function with an empty body; the crates above cite the lemmas of
//! proofs/.
#![tactic(auto)]

ghost use Rattle.std.specs.Prelude.{◌≡◌, ◌≢◌, ℕ, ◌+◌, ◌-◌, ◌*◌, ◌≤◌, ◌<◌, ◌↔◌, ◌⊎◌, [], length, reverse, List, All};
ghost use Rattle.ring_lemmas.specs.Ring.{IsField, pow, nat};
ghost use Rattle.ring_theory.specs.Subsets.{IsSubring};
ghost use Rattle.ring_lemmas.specs.Sums.{sum_below, trace};
ghost use Rattle.ring_theory.specs.Determinant.{determinant};
ghost use Rattle.ff_fields.specs.Field.{CodeField};
ghost use Rattle.linear_theory.specs.Euclidean.{IsDivisorIn};
ghost use Rattle.ff_poly.specs.Words.{IsIrreducibleList, IsPoly};
ghost use Rattle.ff_poly.specs.Polynomials.{Polynomial, polynomials, codes_of, x_poly};
ghost use Rattle.ff_poly.specs.Value.{value};
ghost use Rattle.function_field.specs.Functions.{Equation, FunctionOf, ring_of, of_poly, y_of, trace_of, degree_of_y, setting_of, IsPolynomial, IsScalar};
ghost use Rattle.function_field.specs.declared.side.Side.{Side};
ghost use Rattle.function_field.specs.declared.side.Side.TheVariants.{Finite, Infinite};
ghost use Rattle.function_field.specs.Places.{IsIntegralAt};
ghost use Rattle.function_field.specs.Discriminant.{discriminant};
ghost use Rattle.function_field.specs.Values.{PresValue, ElemValue, IsElem, Functions, functions, setting, equation_of, function_of};
ghost use Rattle.function_field.specs.Infinity.{value_at, variable, function_on, IsInfinitePresentation};
ghost use Rattle.prime_theory.specs.Orders.{MaximalAt};
ghost use Rattle.places_theory.specs.Maps.{IsIsomorphism};
ghost use Rattle.trace_theory.specs.Traces.{IsRational, HasPolynomialCoordinates, HasDegenerateTraceForm, IsDualToPowers, polynomial_product};

/// A set of functions of a curve. Only theorems use it, as a type parameter that no value has.
pub trait Overring {
    ghost field: { CodeField };

    ghost equation: { Equation field };

    ghost members: { FunctionOf equation → Type 0 };
}

/// The trace of F over k(x) is additive and linear over k(x), has its values in k(x), and is n at 1.
pub fn trace_law()
    ensures sum { (k : CodeField) (c : Equation k) (z w : FunctionOf c)
        → trace_of c ((ring_of c).◌⊕◌ z w) ≡ (ring_of c).◌⊕◌ (trace_of c z) (trace_of c w) }
    ensures linear { (k : CodeField) (c : Equation k) (a z : FunctionOf c) → IsRational c a
        → trace_of c ((ring_of c).◌⊗◌ a z) ≡ (ring_of c).◌⊗◌ a (trace_of c z) }
    ensures rational { (k : CodeField) (c : Equation k) (z : FunctionOf c) → IsRational c (trace_of c z) }
    ensures one { (k : CodeField) (c : Equation k) → trace_of c (ring_of c).𝟙 ≡ nat (ring_of c).ops (degree_of_y c) }
{}

/// Where the products of a function with 1, y, up to y^(n-1) have polynomials as traces, the discriminant times the
/// function has polynomials as coordinates (Cramer's rule).
pub fn trace_form_law()
    ensures { (k : CodeField) (c : Equation k) (z : FunctionOf c)
        → ((i : ℕ) → i < degree_of_y c → IsPolynomial c
        (trace_of c ((ring_of c).◌⊗◌ z (pow (ring_of c).ops (y_of c) i))))
        → HasPolynomialCoordinates c ((ring_of c).◌⊗◌ (of_poly c (discriminant c)) z) }
{}

/// The trace form is degenerate exactly where the discriminant is 0.
pub fn degenerate_law()
    ensures degenerate { (k : CodeField) (c : Equation k)
        → (discriminant c ≡ (polynomials k).𝟘) ↔ HasDegenerateTraceForm c }
    ensures zero { (k : CodeField) (c : Equation k) (z : FunctionOf c) → ¬ (discriminant c ≡ (polynomials k).𝟘)
        → ((i : ℕ) → i < degree_of_y c → trace_of c ((ring_of c).◌⊗◌ z (pow (ring_of c).ops (y_of c) i))
        ≡ (ring_of c).𝟘) → z ≡ (ring_of c).𝟘 }
{}

/// Where the discriminant isn't 0, the powers of y have a dual basis under the trace form.
pub fn dual_basis_law()
    ensures { (k : CodeField) (c : Equation k) → ¬ (discriminant c ≡ (polynomials k).𝟘)
        → (d : ℕ → FunctionOf c) × IsDualToPowers c d }
{}

/// The trace is that of the matrix of multiplication by z in any basis w of F over k(x): where z·w_i is the sum of
/// m_ij·w_j, it is the sum of the m_ii.
pub fn basis_trace_law()
    ensures { (k : CodeField) (c : Equation k) (w : ℕ → FunctionOf c) (b b' : ℕ → ℕ → FunctionOf c)
        → ((i j : ℕ) → i < degree_of_y c → j < degree_of_y c → IsRational c (b i j))
        → ((i j : ℕ) → i < degree_of_y c → j < degree_of_y c → IsRational c (b' i j))
        → ((i : ℕ) → i < degree_of_y c
        → w i ≡ sum_below (ring_of c).ops (degree_of_y c)
        (λ j. (ring_of c).◌⊗◌ (b i j) (pow (ring_of c).ops (y_of c) j)))
        → ((i : ℕ) → i < degree_of_y c
        → pow (ring_of c).ops (y_of c) i
        ≡ sum_below (ring_of c).ops (degree_of_y c) (λ j. (ring_of c).◌⊗◌ (b' i j) (w j)))
        → (z : FunctionOf c) (m : ℕ → ℕ → FunctionOf c)
        → ((i j : ℕ) → i < degree_of_y c → j < degree_of_y c → IsRational c (m i j))
        → ((i : ℕ) → i < degree_of_y c
        → (ring_of c).◌⊗◌ z (w i) ≡ sum_below (ring_of c).ops (degree_of_y c) (λ j. (ring_of c).◌⊗◌ (m i j) (w j)))
        → trace_of c z ≡ trace (ring_of c).ops (degree_of_y c) m }
{}

/// The discriminant of another basis: where w_i is the sum of b_ij·y^j with b_ij in k(x), the determinant of the traces
/// of w_i·w_j is the square of the determinant of the b_ij times the discriminant.
pub fn basis_discriminant_law()
    ensures { (k : CodeField) (c : Equation k) (w : ℕ → FunctionOf c) (b : ℕ → ℕ → FunctionOf c)
        → ((i j : ℕ) → i < degree_of_y c → j < degree_of_y c → IsRational c (b i j))
        → ((i : ℕ) → i < degree_of_y c
        → w i ≡ sum_below (ring_of c).ops (degree_of_y c)
        (λ j. (ring_of c).◌⊗◌ (b i j) (pow (ring_of c).ops (y_of c) j)))
        → determinant (ring_of c).ops (degree_of_y c) (λ i j. trace_of c ((ring_of c).◌⊗◌ (w i) (w j)))
        ≡ (ring_of c).◌⊗◌ ((ring_of c).◌⊗◌ (determinant (ring_of c).ops (degree_of_y c) b)
        (determinant (ring_of c).ops (degree_of_y c) b)) (of_poly c (discriminant c)) }
{}

/// The discriminant of the infinite presentation, read at t = 1/x, is that of the finite one times t^(c·n·(n-1)). So
/// that one has a degree of at most c·n·(n-1), and this one has its codes in reverse, times the power of the variable
/// by which the degree is short of that.
pub fn infinite_discriminant_law()
    ensures discriminant { (k : CodeField) (p q : PresValue) (c : ℕ) → 1 ≤ p.n → IsInfinitePresentation k p c q
        → value_at k p (variable k p Infinite) (codes_of k (discriminant (equation_of k q)))
        ≡ (functions k p).◌⊗◌ (of_poly (equation_of k p) (discriminant (equation_of k p)))
        (pow (functions k p).ops (variable k p Infinite) (c * (p.n * (p.n - 1)))) }
    ensures degree { (k : CodeField) (p q : PresValue) (c : ℕ) → 1 ≤ p.n → IsInfinitePresentation k p c q
        → length (codes_of k (discriminant (equation_of k p))) ≤ c * (p.n * (p.n - 1)) + 1 }
    ensures reversed { (k : CodeField) (p q : PresValue) (c : ℕ) → 1 ≤ p.n → IsInfinitePresentation k p c q
        → discriminant (equation_of k q)
        ≡ (polynomials k).◌⊗◌ (pow (polynomials k).ops (x_poly k)
        (c * (p.n * (p.n - 1)) + 1 - length (codes_of k (discriminant (equation_of k p)))))
        (value k (reverse (codes_of k (discriminant (equation_of k p))))) }
{}

/// The trace of a function is the same in both presentations: what elements of the infinite one stand for is an
/// isomorphism that takes traces to traces.
pub fn infinite_trace_law()
    ensures { (k : CodeField) (p q : PresValue) (c : ℕ) → 1 ≤ p.n → IsInfinitePresentation k p c q
        → (f : Functions k q → Functions k p) × IsIsomorphism (functions k q) (functions k p) f
        × ((z : ElemValue) → IsElem k.ops q.n z → IsPoly z.den → z.den ≢ []
        → f (function_of k q z) ≡ function_on k p c Infinite z)
        × ((z : Functions k q) → (setting k p).trace (f z) ≡ f ((setting k q).trace z)) }
{}

/// The trace of a function that is integral over the polynomials is a polynomial, and of one that is integral over the
/// fractions of degree at most 0 such a fraction. So the discriminant times a function that is integral over the
/// polynomials has polynomials as coordinates.
pub fn integral_trace_law()
    ensures trace { (k : CodeField) (c : Equation k) (s : Side) (z : FunctionOf c) → IsIntegralAt (setting_of c) s z
        → IsScalar c s (trace_of c z) }
    ensures discriminant { (k : CodeField) (c : Equation k) (z : FunctionOf c) → IsIntegralAt (setting_of c) Finite z
        → HasPolynomialCoordinates c ((ring_of c).◌⊗◌ (of_poly c (discriminant c)) z) }
{}

/// Where an irreducible p takes a function z to polynomial coordinates that z doesn't have, while the traces of z·y^i
/// and of z² are polynomials, the square of p divides the discriminant. So where it doesn't, k[x][y] is maximal at p:
/// it has each integral function that a power of p takes into it.
pub fn square_law()
    ensures square { (k : CodeField) (c : Equation k) (p : Polynomial k) (z : FunctionOf c)
        → IsIrreducibleList k.ops (codes_of k p)
        → HasPolynomialCoordinates c ((ring_of c).◌⊗◌ (of_poly c p) z) → ¬ HasPolynomialCoordinates c z
        → ((i : ℕ) → i < degree_of_y c → IsPolynomial c
        (trace_of c ((ring_of c).◌⊗◌ z (pow (ring_of c).ops (y_of c) i))))
        → IsPolynomial c (trace_of c ((ring_of c).◌⊗◌ z z))
        → IsDivisorIn (polynomials k).ops ((polynomials k).◌⊗◌ p p) (discriminant c) }
    ensures maximal { (k : CodeField) (c : Equation k) (p : Polynomial k) → IsIrreducibleList k.ops (codes_of k p)
        → ¬ IsDivisorIn (polynomials k).ops ((polynomials k).◌⊗◌ p p) (discriminant c)
        → MaximalAt (ring_of c).ops (of_poly c p) (IsIntegralAt (setting_of c) Finite) (HasPolynomialCoordinates c) }
{}

/// A ring that has k[x][y] has each function that is integral over the polynomials, where it is maximal at the
/// irreducible polynomials whose squares divide the discriminant. The factors of the discriminant are given as a list
/// of irreducible polynomials whose product it divides.
pub fn maximal_order_law<C: Overring>()
    ensures { (ps : List (Polynomial C.field)) → IsSubring (ring_of C.equation).ops C.members
        → ((z : FunctionOf C.equation) → HasPolynomialCoordinates C.equation z → C.members z)
        → IsDivisorIn (polynomials C.field).ops (discriminant C.equation) (polynomial_product C.field ps)
        → All (λ p. IsIrreducibleList C.field.ops (codes_of C.field p)) ps
        → All (λ p. IsDivisorIn (polynomials C.field).ops ((polynomials C.field).◌⊗◌ p p) (discriminant C.equation)
        → MaximalAt (ring_of C.equation).ops (of_poly C.equation p) (IsIntegralAt (setting_of C.equation) Finite)
        C.members) ps
        → (z : FunctionOf C.equation) → IsIntegralAt (setting_of C.equation) Finite z → C.members z }
{}

/// Where the discriminant isn't 0, no function but 0 is nilpotent, and F is a field exactly where 0 and 1 are its only
/// idempotents. Idempotents are integral on both sides.
pub fn reduced_law()
    ensures reduced { (k : CodeField) (c : Equation k) (z : FunctionOf c) (m : ℕ)
        → ¬ (discriminant c ≡ (polynomials k).𝟘)
        → pow (ring_of c).ops z m ≡ (ring_of c).𝟘 → z ≡ (ring_of c).𝟘 }
    ensures field { (k : CodeField) (c : Equation k) → ¬ (discriminant c ≡ (polynomials k).𝟘)
        → IsField (ring_of c).ops ↔ ((e : FunctionOf c) → (ring_of c).◌⊗◌ e e ≡ e
        → (e ≡ (ring_of c).𝟘) ⊎ (e ≡ (ring_of c).𝟙)) }
    ensures integral { (k : CodeField) (c : Equation k) (s : Side) (e : FunctionOf c) → (ring_of c).◌⊗◌ e e ≡ e
        → IsIntegralAt (setting_of c) s e }
{}
