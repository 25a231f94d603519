//! The constants of a function field F = k(x)[y]/(f) over a finite field k, as a ring that is a space over k, with the
//! idempotents of F in it; and the degrees of a reduced basis of (O_fin, O_inf) where F is a field, which give the
//! genus. There is no code: each theorem is the contract of a function with an empty body.
#![tactic(auto)]

ghost use Rattle.std.specs.Prelude.{◌≡◌, ℕ, ◌*◌, ◌/◌, ◌<◌, ◌≤◌, ℤ, ◌-ℤ◌, ◌≤ℤ◌, List};
ghost use Rattle.std.proofs.Common.{pos};
ghost use Rattle.ring_lemmas.specs.Ring.{IsField};
ghost use Rattle.ring_theory.specs.Subsets.{IsSubring};
ghost use Rattle.ff_fields.specs.Field.{CodeField};
ghost use Rattle.ff_fields.specs.Code.{code_ring};
ghost use Rattle.ff_poly.specs.Polynomials.{polynomials};
ghost use Rattle.function_field.specs.declared.side.Side.TheVariants.{Finite, Infinite};
ghost use Rattle.function_field.specs.Functions.{Equation, FunctionOf, ring_of, setting_of, degree_of_y};
ghost use Rattle.function_field.specs.Places.{IsIntegralAt};
ghost use Rattle.function_field.specs.Divisors.{IsConstant, IsSpaceBasis, HasGenus};
ghost use Rattle.function_field.specs.Discriminant.{discriminant};
ghost use Rattle.lattice_theory.specs.Lattices.{polynomial_ops};
ghost use Rattle.reduced_basis_theory.specs.Degree.{size, dimension_sum, genus_sum};
ghost use Rattle.reduced_basis_theory.specs.Reduced.{layers};
ghost use Rattle.space_theory.specs.Spaces.{IsReducedBasis};

/// The constants are a ring, and each idempotent function is one. The x^j·b_i with 0 ≤ j ≤ -d_i are a basis of them
/// over k, for a reduced basis b of (O_fin, O_inf) with the degrees d_i. F need not be a field.
pub fn constants_space_law()
    ensures ring { (k : CodeField) (c : Equation k) → ¬ (discriminant c ≡ (polynomials k).𝟘)
        → IsSubring (ring_of c).ops (IsConstant (setting_of c)) }
    ensures idempotents { (k : CodeField) (c : Equation k) → ¬ (discriminant c ≡ (polynomials k).𝟘)
        → (e : FunctionOf c) → (ring_of c).◌⊗◌ e e ≡ e → IsConstant (setting_of c) e }
    ensures basis { (k : CodeField) (c : Equation k) → ¬ (discriminant c ≡ (polynomials k).𝟘)
        → (b : List (FunctionOf c)) (d : ℕ → ℤ)
        → IsReducedBasis c (IsIntegralAt (setting_of c) Finite) (IsIntegralAt (setting_of c) Infinite) b d
        → IsSpaceBasis (setting_of c) (IsConstant (setting_of c))
        (layers (code_ring k) (polynomial_ops c) b (λ i. size (pos 0 -ℤ d i))) }
{}

/// Where F is a field, the degrees d_i of a reduced basis of (O_fin, O_inf) are natural numbers, and the sum of the
/// max(0, 1 - d_i), which is the dimension of the constants over k, is at least 1. The genus times it is the sum of the
/// max(0, d_i - 1), so it is their quotient.
pub fn field_degrees_law()
    ensures nonnegative { (k : CodeField) (c : Equation k) → ¬ (discriminant c ≡ (polynomials k).𝟘)
        → IsField (ring_of c).ops → (b : List (FunctionOf c)) (d : ℕ → ℤ)
        → IsReducedBasis c (IsIntegralAt (setting_of c) Finite) (IsIntegralAt (setting_of c) Infinite) b d
        → (i : ℕ) → i < degree_of_y c → pos 0 ≤ℤ d i }
    ensures positive { (k : CodeField) (c : Equation k) → ¬ (discriminant c ≡ (polynomials k).𝟘)
        → IsField (ring_of c).ops → (b : List (FunctionOf c)) (d : ℕ → ℤ)
        → IsReducedBasis c (IsIntegralAt (setting_of c) Finite) (IsIntegralAt (setting_of c) Infinite) b d
        → 1 ≤ dimension_sum (degree_of_y c) d (pos 0) }
    ensures genus { (k : CodeField) (c : Equation k) → ¬ (discriminant c ≡ (polynomials k).𝟘)
        → IsField (ring_of c).ops → (b : List (FunctionOf c)) (d : ℕ → ℤ)
        → IsReducedBasis c (IsIntegralAt (setting_of c) Finite) (IsIntegralAt (setting_of c) Infinite) b d
        → (g : ℕ) → HasGenus (setting_of c) g
        → dimension_sum (degree_of_y c) d (pos 0) * g ≡ genus_sum (degree_of_y c) d }
    ensures quotient { (k : CodeField) (c : Equation k) → ¬ (discriminant c ≡ (polynomials k).𝟘)
        → IsField (ring_of c).ops → (b : List (FunctionOf c)) (d : ℕ → ℤ)
        → IsReducedBasis c (IsIntegralAt (setting_of c) Finite) (IsIntegralAt (setting_of c) Infinite) b d
        → HasGenus (setting_of c) (genus_sum (degree_of_y c) d / dimension_sum (degree_of_y c) d (pos 0)) }
{}
