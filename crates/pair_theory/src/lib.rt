//! Divisors given by primes of the orders of both sides of a curve with integers, and the pair of lattices that stands
//! for a divisor: products of powers of the primes, one for each side. There is no code: each theorem is the contract
//! of a function with an empty body.
#![tactic(auto)]

ghost use Rattle.std.specs.Prelude.{◌≡◌, ◌↔◌, ◌++◌, ◌-ℤ◌, ◌*ℤ◌, ℤ, List, [], ◌∷◌, length};
ghost use Rattle.std.proofs.Common.{pos, negsuc};
ghost use Rattle.ring_theory.specs.Subsets.{Span};
ghost use Rattle.ff_fields.specs.Field.{CodeField};
ghost use Rattle.ff_fields.specs.Code.{code_ring};
ghost use Rattle.ff_poly.specs.Polynomials.{polynomials};
ghost use Rattle.linear_theory.specs.Lists.{entry};
ghost use Rattle.function_field.specs.declared.side.Side.{Side};
ghost use Rattle.function_field.specs.declared.side.Side.TheVariants.{Finite, Infinite};
ghost use Rattle.function_field.specs.Curves.{CurveValue, IsCurve};
ghost use Rattle.function_field.specs.Discriminant.{discriminant};
ghost use Rattle.function_field.specs.Divisors.{Divisor, IsDivisor, HasMultiplicity, MeetsOn, InSpace, IsSpaceBasis, IsSimultaneousBasis};
ghost use Rattle.function_field.specs.Functions.{Equation, FunctionOf, ring_of, setting_of, IsCode};
ghost use Rattle.function_field.specs.InfiniteSpans.{InInfiniteSpan};
ghost use Rattle.function_field.specs.Places.{Place, IsPlace};
ghost use Rattle.function_field.specs.Values.{PresValue, Functions, functions, setting, equation_of};
ghost use Rattle.lattice_theory.specs.Lattices.{polynomial_ops};
ghost use Rattle.reduced_basis_theory.specs.Degree.{size};
ghost use Rattle.reduced_basis_theory.specs.Reduced.{layers};
ghost use Rattle.space_theory.specs.Spaces.{IsReducedBasis, IsBasisOfBoth, IsLatticeAtInfinity};
ghost use Rattle.ff_lattice.specs.Lattices.{LatticeValue, IsLatticeValue, Contains, row_elems, pivot_degree_of};
ghost use Rattle.value_theory.specs.IntegralLattices.{presentation, IsIntegralLattice};
ghost use Rattle.value_theory.specs.Primes.{PrimeValue};
ghost use Rattle.ff_ideal.specs.Powers.{IntegerPower};
ghost use Rattle.pair_theory.specs.Pairs.{IsSidePrime, ArePrimesOfSides, IsDivisorOfPrimes, IsSumWith, MembersOn, IsLatticeOfDivisor, SpansMembersOverPowersOfT, IsProductLattice, IsProductOfAll, IsPowerLattice, IsAdmittedLattice, PowersOn, divisor_of_primes, degree_on};

use lattice_theory::FunctionSets;

/// The lattice of a divisor on a side, for the orders of the integral functions of the sides. The order is that of the
/// divisor 0. The products of the members of the lattice of D with those of P^(-m), for a prime P of the side, are the
/// lattice of D + m·P, where P may occur in D. So the product of the powers P^(-m) of different primes, one after
/// another from the order on, is the lattice of their divisor. On the finite side it has what the divisor allows, on
/// the infinite one what the divisor allows with powers of t as denominators. A divisor has one lattice on a side.
pub fn divisor_lattices_law()
    ensures none { (k : CodeField) (c : CurveValue) (s : Side) (o : LatticeValue) → IsCurve k c
        → IsIntegralLattice k c s o → IsLatticeOfDivisor k c s [] o }
    ensures more { (k : CodeField) (c : CurveValue) (s : Side) (o : LatticeValue) (D E : Divisor (Functions k c.fin))
        (P : PrimeValue) (m : ℤ) (l j product : LatticeValue) → IsCurve k c → IsIntegralLattice k c s o
        → IsDivisor (setting k c.fin) D → IsSidePrime k c s o P → IsSumWith k c D P m E → IsLatticeOfDivisor k c s D l
        → IsPowerLattice k (presentation c s) o P m j → IsProductLattice k (presentation c s) l j product
        → IsLatticeOfDivisor k c s E product }
    ensures powers { (k : CodeField) (c : CurveValue) (o : Side → LatticeValue) (s : Side) (Ps : List PrimeValue)
        (ms : List ℤ) (D : Divisor (Functions k c.fin)) (js : List LatticeValue) (product : LatticeValue)
        → IsCurve k c → ((t : Side) → IsIntegralLattice k c t (o t)) → ArePrimesOfSides k c o Ps
        → IsDivisorOfPrimes k c Ps ms D → PowersOn k (presentation c s) (o s) s Ps ms js
        → IsProductOfAll k (presentation c s) (o s) js product → IsLatticeOfDivisor k c s D product }
    ensures members { (k : CodeField) (c : CurveValue) (D : Divisor (Functions k c.fin)) (l : LatticeValue)
        → IsCurve k c → IsLatticeOfDivisor k c Finite D l → (z : Functions k c.fin)
        → Contains k c.fin l z ↔ MembersOn k c Finite D z }
    ensures whole { (k : CodeField) (c : CurveValue) (s : Side) (D : Divisor (Functions k c.fin)) (l : LatticeValue)
        → IsCurve k c → IsLatticeOfDivisor k c s D l → SpansMembersOverPowersOfT k c s D l }
    ensures once { (k : CodeField) (c : CurveValue) (s : Side) (o : LatticeValue) (D : Divisor (Functions k c.fin))
        (l m : LatticeValue) → IsCurve k c → IsIntegralLattice k c s o → IsDivisor (setting k c.fin) D
        → IsLatticeOfDivisor k c s D l → IsLatticeOfDivisor k c s D m → l ≡ m }
{}

/// Different primes with integers have a divisor: the list of the places that their rows span. All their divisors have
/// the same multiplicities. One more prime behind the others adds it.
pub fn divisor_of_primes_law()
    ensures exists { (k : CodeField) (c : CurveValue) (o : Side → LatticeValue) (Ps : List PrimeValue) (ms : List ℤ)
        → IsCurve k c → ((s : Side) → IsIntegralLattice k c s (o s)) → ArePrimesOfSides k c o Ps
        → IsDivisorOfPrimes k c Ps ms (divisor_of_primes k c Ps ms) }
    ensures once { (k : CodeField) (c : CurveValue) (o : Side → LatticeValue) (Ps : List PrimeValue) (ms : List ℤ)
        (D E : Divisor (Functions k c.fin)) → IsCurve k c → ((s : Side) → IsIntegralLattice k c s (o s))
        → ArePrimesOfSides k c o Ps → IsDivisorOfPrimes k c Ps ms D → IsDivisorOfPrimes k c Ps ms E
        → (M : Place (Functions k c.fin)) → IsPlace (setting k c.fin) M → (m : ℤ)
        → HasMultiplicity (setting k c.fin) D M m → HasMultiplicity (setting k c.fin) E M m }
    ensures next { (k : CodeField) (c : CurveValue) (o : Side → LatticeValue) (Ps : List PrimeValue) (ms : List ℤ)
        (P : PrimeValue) (m : ℤ) → IsCurve k c → ((s : Side) → IsIntegralLattice k c s (o s))
        → length Ps ≡ length ms → ArePrimesOfSides k c o (Ps ++ P ∷ [])
        → IsSumWith k c (divisor_of_primes k c Ps ms) P m (divisor_of_primes k c (Ps ++ P ∷ []) (ms ++ m ∷ [])) }
{}

/// The pivot degree of the lattice of a divisor of primes is that of the order less the sum of m·deg P over the primes
/// of the side, and each product with a power P^(-m) lowers it by m·deg P. A power with the exponent 0 changes nothing.
/// The lattices of divisors are closed under the order and admitted, so that they have inverses and powers.
pub fn powers_law()
    ensures degree { (k : CodeField) (c : CurveValue) (o : Side → LatticeValue) (s : Side) (Ps : List PrimeValue)
        (ms : List ℤ) (D : Divisor (Functions k c.fin)) (l : LatticeValue) → IsCurve k c
        → ((t : Side) → IsIntegralLattice k c t (o t)) → ArePrimesOfSides k c o Ps → IsDivisorOfPrimes k c Ps ms D
        → IsLatticeOfDivisor k c s D l → pivot_degree_of l ≡ pivot_degree_of (o s) -ℤ degree_on s Ps ms }
    ensures degree_more { (k : CodeField) (c : CurveValue) (s : Side) (o : LatticeValue)
        (D : Divisor (Functions k c.fin)) (P : PrimeValue) (m : ℤ) (l j product : LatticeValue) → IsCurve k c
        → IsIntegralLattice k c s o → IsDivisor (setting k c.fin) D → IsSidePrime k c s o P
        → IsLatticeOfDivisor k c s D l → IsPowerLattice k (presentation c s) o P m j
        → IsProductLattice k (presentation c s) l j product
        → pivot_degree_of product ≡ pivot_degree_of l -ℤ (m *ℤ pos P.degree) }
    ensures zero { (k : CodeField) (c : CurveValue) (s : Side) (o : LatticeValue) (D : Divisor (Functions k c.fin))
        (P : PrimeValue) (l j product : LatticeValue) → IsCurve k c → IsIntegralLattice k c s o
        → IsDivisor (setting k c.fin) D → IsLatticeOfDivisor k c s D l
        → IsPowerLattice k (presentation c s) o P (pos 0) j → IsProductLattice k (presentation c s) l j product
        → product ≡ l }
    ensures admitted { (k : CodeField) (c : CurveValue) (s : Side) (o : LatticeValue) (D : Divisor (Functions k c.fin))
        (l : LatticeValue) → IsCurve k c → IsIntegralLattice k c s o → IsDivisor (setting k c.fin) D
        → IsLatticeOfDivisor k c s D l → IsAdmittedLattice k (presentation c s) o l }
{}

/// A prime of a side and its inverse are the powers P^(-m) for m = -1 and m = 1, and the powers of the inverse are
/// those of the prime with the opposite exponents. Both are closed under the order and admitted, so that they have
/// powers.
pub fn prime_powers_law()
    ensures rows { (k : CodeField) (c : CurveValue) (s : Side) (o : LatticeValue) (P : PrimeValue) → IsCurve k c
        → IsIntegralLattice k c s o → IsSidePrime k c s o P
        → IsPowerLattice k (presentation c s) o P (negsuc 0) P.rows }
    ensures inverse { (k : CodeField) (c : CurveValue) (s : Side) (o : LatticeValue) (P : PrimeValue) → IsCurve k c
        → IsIntegralLattice k c s o → IsSidePrime k c s o P
        → IsPowerLattice k (presentation c s) o P (pos 1) P.inverse }
    ensures of_inverse { (k : CodeField) (c : CurveValue) (s : Side) (o : LatticeValue) (P : PrimeValue) (m : ℤ)
        (j : LatticeValue) → IsCurve k c → IsIntegralLattice k c s o → IsSidePrime k c s o P
        → IsLatticeValue k.ops (presentation c s).n j
        → ((z : Functions k (presentation c s)) → Contains k (presentation c s) j z
        ↔ IntegerPower (functions k (presentation c s)).ops (Contains k (presentation c s) o)
        (Contains k (presentation c s) P.inverse) m z)
        → IsPowerLattice k (presentation c s) o P m j }
    ensures admitted { (k : CodeField) (c : CurveValue) (s : Side) (o : LatticeValue) (P : PrimeValue) → IsCurve k c
        → IsIntegralLattice k c s o → IsSidePrime k c s o P
        → IsAdmittedLattice k (presentation c s) o P.rows × IsAdmittedLattice k (presentation c s) o P.inverse }
{}

/// A basis of the lattices of a divisor on both sides is a simultaneous basis of the divisor. A basis of a lattice over
/// k[x] whose multiples by the x^(-d_i) are one of a lattice at infinity is a reduced basis of the two, with the
/// degrees d_i: what a sum of the r_i·b_i has at infinity, the degrees of the r_i tell.
pub fn simultaneous_law<S: FunctionSets>()
    ensures lattices { (k : CodeField) (c : CurveValue) (D : Divisor (Functions k c.fin)) (fin inf : LatticeValue)
        (bs : List (Functions k c.fin)) (ds : List ℤ) → IsCurve k c → IsLatticeOfDivisor k c Finite D fin
        → IsLatticeOfDivisor k c Infinite D inf
        → IsBasisOfBoth (equation_of k c.fin) (Contains k c.fin fin) (InInfiniteSpan k c.fin c.c (row_elems inf)) bs ds
        → IsSimultaneousBasis (setting k c.fin) D bs ds }
    ensures reduced { IsLatticeAtInfinity S.equation S.second → (bs : List (FunctionOf S.equation)) (ds : List ℤ)
        → IsBasisOfBoth S.equation S.first S.second bs ds
        → IsReducedBasis S.equation S.first S.second bs (entry (pos 0) ds) }
    ensures divisor { (k : CodeField) (c : Equation k) (D : Divisor (FunctionOf c)) (bs : List (FunctionOf c))
        (ds : List ℤ) → ¬ (discriminant c ≡ (polynomials k).𝟘) → IsDivisor (setting_of c) D
        → IsSimultaneousBasis (setting_of c) D bs ds
        → IsReducedBasis c (MeetsOn (setting_of c) D Finite) (MeetsOn (setting_of c) D Infinite) bs
        (entry (pos 0) ds) }
{}

/// Of a simultaneous basis of D, the x^j·b_i with 0 ≤ j ≤ -d_i are a basis of L(D) over k, and so their combinations
/// with codes of k are L(D).
pub fn space_of_pair_law()
    ensures basis { (k : CodeField) (c : Equation k) (D : Divisor (FunctionOf c)) (bs : List (FunctionOf c))
        (ds : List ℤ) → ¬ (discriminant c ≡ (polynomials k).𝟘) → IsDivisor (setting_of c) D
        → IsSimultaneousBasis (setting_of c) D bs ds
        → IsSpaceBasis (setting_of c) (InSpace (setting_of c) D)
        (layers (code_ring k) (polynomial_ops c) bs (λ i. size (pos 0 -ℤ entry (pos 0) ds i))) }
    ensures spanned { (k : CodeField) (c : Equation k) (D : Divisor (FunctionOf c)) (bs : List (FunctionOf c))
        (ds : List ℤ) → ¬ (discriminant c ≡ (polynomials k).𝟘) → IsDivisor (setting_of c) D
        → IsSimultaneousBasis (setting_of c) D bs ds → (z : FunctionOf c)
        → Span (ring_of c).ops (IsCode c)
        (layers (code_ring k) (polynomial_ops c) bs (λ i. size (pos 0 -ℤ entry (pos 0) ds i))) z
        ↔ InSpace (setting_of c) D z }
{}
