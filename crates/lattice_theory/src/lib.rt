//! Lattices in a function field F = k(x)[y]/(f) over a finite field k: modules over the polynomials that finitely many
//! functions span and that have a multiple of each function. Nothing is asked of f: F need not be a field. Each main
//! theorem is the contract of a function with an empty body; the crates above cite the lemmas of proofs/.
#![tactic(auto)]

ghost use Rattle.std.specs.Prelude.{◌≡◌, ℕ, ◌+◌, ◌-◌, ◌*◌, ◌<◌, ◌↔◌, List, length};
ghost use Rattle.ring_theory.specs.Subsets.{IsModule, Product, Colon};
ghost use Rattle.ff_fields.specs.Field.{CodeField};
ghost use Rattle.ff_poly.specs.Polynomials.{Polynomial, polynomials};
ghost use Rattle.function_field.specs.Functions.{Equation, FunctionOf, ring_of, of_poly, IsPolynomial, degree_of_y};
ghost use Rattle.prime_theory.specs.Ideals.{Multiple};
ghost use Rattle.linear_theory.specs.Basis.{IsSum};
ghost use Rattle.trace_theory.specs.Traces.{HasPolynomialCoordinates};
ghost use Rattle.function_field.specs.Indices.{HasIndex, space_ops};
ghost use Rattle.lattice_theory.specs.Lattices.{IsLattice, IsBasisOf};

/// Three sets of functions of a curve. Only theorems use it, as a type parameter that no value has.
pub trait FunctionSets {
    ghost field: { CodeField };

    ghost equation: { Equation field };

    ghost first: { FunctionOf equation → Type 0 };

    ghost second: { FunctionOf equation → Type 0 };

    ghost third: { FunctionOf equation → Type 0 };
}

/// Membership in a lattice is decided, and whether a lattice lies in another. A lattice has a basis of n functions
/// over the polynomials, and some polynomial other than 0 takes it into a given lattice. A module between two lattices
/// whose membership is decided is a lattice.
pub fn lattice_law<S: FunctionSets>()
    ensures decided { IsLattice S.equation S.first → (z : FunctionOf S.equation) → Dec (S.first z) }
    ensures within { IsLattice S.equation S.first → IsLattice S.equation S.second
        → Dec ((z : FunctionOf S.equation) → S.first z → S.second z) }
    ensures basis { IsLattice S.equation S.first → (bs : List (FunctionOf S.equation))
        × (length bs ≡ degree_of_y S.equation) × IsBasisOf S.equation S.first bs }
    ensures factor { IsLattice S.equation S.first → IsLattice S.equation S.second → (a : Polynomial S.field)
        × (¬ (a ≡ (polynomials S.field).𝟘))
        × ((z : FunctionOf S.equation) → S.first z → S.second ((ring_of S.equation).◌⊗◌ (of_poly S.equation a) z)) }
    ensures between { IsLattice S.equation S.first → IsLattice S.equation S.third
        → IsModule (ring_of S.equation).ops (IsPolynomial S.equation) S.second
        → ((z : FunctionOf S.equation) → S.first z → S.second z)
        → ((z : FunctionOf S.equation) → S.second z → S.third z)
        → ((z : FunctionOf S.equation) → S.third z → Dec (S.second z)) → IsLattice S.equation S.second }
{}

/// Lattices: k[x][y], the multiples of a lattice by an invertible function, and the sum, the product, the intersection
/// and the colon of two.
pub fn lattices_law<S: FunctionSets>()
    ensures coordinates { IsLattice S.equation (HasPolynomialCoordinates S.equation) }
    ensures multiple { IsLattice S.equation S.first → (u v : FunctionOf S.equation) → (ring_of S.equation).◌⊗◌ u v
        ≡ (ring_of S.equation).𝟙
        → IsLattice S.equation (Multiple (ring_of S.equation).ops u S.first) }
    ensures sum { IsLattice S.equation S.first → IsLattice S.equation S.second
        → IsLattice S.equation (IsSum (space_ops S.equation) S.first S.second) }
    ensures product { IsLattice S.equation S.first → IsLattice S.equation S.second
        → IsLattice S.equation (Product (ring_of S.equation).ops S.first S.second) }
    ensures intersection { IsLattice S.equation S.first → IsLattice S.equation S.second
        → IsLattice S.equation (λ z. S.first z × S.second z) }
    ensures colon { IsLattice S.equation S.first → IsLattice S.equation S.second
        → IsLattice S.equation (Colon (ring_of S.equation).ops S.first S.second) }
{}

/// The index of a lattice in a larger one, as the dimension over k: there is one, it is one number, it is 0 where the
/// two are equal alone, indices add along a chain, and the multiple of a lattice by a polynomial has the index n times
/// the degree.
pub fn index_law<S: FunctionSets>()
    ensures exists { IsLattice S.equation S.first → IsLattice S.equation S.second
        → ((z : FunctionOf S.equation) → S.first z → S.second z)
        → (g : ℕ) × HasIndex S.equation S.first S.second g }
    ensures once { IsLattice S.equation S.first → (g h : ℕ) → HasIndex S.equation S.first S.second g
        → HasIndex S.equation S.first S.second h → g ≡ h }
    ensures equal { IsLattice S.equation S.first → HasIndex S.equation S.first S.second 0
        ↔ ((z : FunctionOf S.equation) → S.second z → S.first z) }
    ensures add { IsLattice S.equation S.first → IsLattice S.equation S.second → IsLattice S.equation S.third
        → ((z : FunctionOf S.equation) → S.first z → S.second z)
        → ((z : FunctionOf S.equation) → S.second z → S.third z) → (g h : ℕ)
        → HasIndex S.equation S.first S.second g → HasIndex S.equation S.second S.third h
        → HasIndex S.equation S.first S.third (g + h) }
    ensures less { IsLattice S.equation S.first → IsLattice S.equation S.second → IsLattice S.equation S.third
        → ((z : FunctionOf S.equation) → S.first z → S.second z)
        → ((z : FunctionOf S.equation) → S.second z → S.third z)
        → ¬ ((z : FunctionOf S.equation) → S.second z → S.first z) → (g h : ℕ)
        → HasIndex S.equation S.first S.third g → HasIndex S.equation S.second S.third h → h < g }
    ensures multiple { IsLattice S.equation S.first → (a : Polynomial S.field) → ¬ (a ≡ (polynomials S.field).𝟘)
        → HasIndex S.equation (Multiple (ring_of S.equation).ops (of_poly S.equation a) S.first) S.first
        (degree_of_y S.equation * (length a.0 - 1)) }
{}
