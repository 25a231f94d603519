//! The constants of a function field F = k(x)[y]/(f) as an algebra over k by structure constants, with all idempotents
//! of F as its vectors. There is no code: each theorem is the contract of a function with an empty body.
#![tactic(auto)]

ghost use Rattle.std.specs.Prelude.{◌≡◌, List};
ghost use Rattle.ff_fields.specs.Field.{CodeField};
ghost use Rattle.ff_poly.specs.Polynomials.{polynomials};
ghost use Rattle.function_field.specs.Discriminant.{discriminant};
ghost use Rattle.function_field.specs.Divisors.{IsConstant, IsSpaceBasis};
ghost use Rattle.function_field.specs.Functions.{Equation, FunctionOf, setting_of};
ghost use Rattle.ff_structure.specs.Structures.{StructureValue, IsStructure};
ghost use Rattle.idempotents_theory.specs.Coordinates.{IsStructureOf, AreConstants, HaveSameIdempotents};

/// Where functions are a basis of the constants over k, and a structure has the coordinates of 1 and of the products of
/// any two of them, the structure is a commutative algebra over k, and taking the function with given coordinates is an
/// isomorphism of it onto the constants. The idempotents of F other than 0 and 1 are the functions with such vectors.
pub fn constant_algebra_law()
    ensures structure { (k : CodeField) (c : Equation k) → ¬ (discriminant c ≡ (polynomials k).𝟘)
        → (bs : List (FunctionOf c)) → IsSpaceBasis (setting_of c) (IsConstant (setting_of c)) bs
        → (s : StructureValue) → IsStructureOf c bs s → IsStructure k s }
    ensures constants { (k : CodeField) (c : Equation k) → ¬ (discriminant c ≡ (polynomials k).𝟘)
        → (bs : List (FunctionOf c)) → IsSpaceBasis (setting_of c) (IsConstant (setting_of c)) bs
        → (s : StructureValue) → IsStructureOf c bs s → AreConstants c bs s }
    ensures idempotents { (k : CodeField) (c : Equation k) → ¬ (discriminant c ≡ (polynomials k).𝟘)
        → (bs : List (FunctionOf c)) → IsSpaceBasis (setting_of c) (IsConstant (setting_of c)) bs
        → (s : StructureValue) → IsStructureOf c bs s → HaveSameIdempotents c bs s }
{}
