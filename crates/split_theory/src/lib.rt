//! Bases of a lattice over k[x] and a lattice over k[t], t = 1/x, of one curve: the coordinates of the one in the rows
//! of the other, and the reduced basis that the Popov basis of them makes, with its degrees. There is no code: each
//! theorem is the contract of a function with an empty body.
#![tactic(auto)]

ghost use Rattle.std.specs.Prelude.{◌≡◌, ℕ, ◌+◌, ◌*◌, ◌-◌, ◌/◌, ◌<◌, ◌≤◌, ℤ, ◌+ℤ◌, List, length, All, IsPermutation};
ghost use Rattle.std.proofs.Common.{pos};
ghost use Rattle.ff_fields.specs.Field.{CodeField};
ghost use Rattle.ff_fields.specs.Code.{code_ring};
ghost use Rattle.ff_fields.specs.Over.{IsOver};
ghost use Rattle.ff_poly.specs.Words.{IsMonicList};
ghost use Rattle.ff_poly.specs.Popov.{row_at, entry_at, IsRow, IsCombinationList, InRowSpan, HaveSameRowSpan, HasFullRankMatrix, IsPopovMatrix};
ghost use Rattle.ff_poly.specs.Polynomials.{x_poly};
ghost use Rattle.function_field.specs.Functions.{degree_of_y};
ghost use Rattle.function_field.specs.Curves.{CurveValue, IsCurve};
ghost use Rattle.function_field.specs.Values.{Functions, equation_of};
ghost use Rattle.lattice_theory.specs.Lattices.{polynomial_ops};
ghost use Rattle.reduced_basis_theory.specs.Reduced.{IsReducedAt};
ghost use Rattle.reduced_basis_theory.specs.Degree.{degree_sum};
ghost use Rattle.infinite_theory.specs.Supported.{IsSupportedAt};
ghost use Rattle.space_theory.specs.Spaces.{multiples_of, IsLatticeAtInfinity, IsReducedBasis, IsBasisOfBoth};
ghost use Rattle.ff_lattice.specs.Lattices.{LatticeValue, IsLatticeValue, Contains, pivot_degree_of};
ghost use Rattle.split_theory.specs.Splits.{infinite_rows, AtInfinity, AreCoordinatesInT, IsPowerRow, AreCoordinates, turned_from, AreRowProducts, IsDenominator, SpanMultiple, AreRowsOver, split_degree, split_degrees, functions_of, degrees_of, degree_at};

/// The functions of the rows of a lattice over k[t] span a lattice at infinity, of which they are a reduced basis with
/// the degrees 0.
pub fn infinite_rows_law()
    ensures lattice { (k : CodeField) (c : CurveValue) (inf : LatticeValue) → IsCurve k c
        → IsLatticeValue k.ops c.inf.n inf → IsLatticeAtInfinity (equation_of k c.fin) (AtInfinity k c inf) }
    ensures reduced { (k : CodeField) (c : CurveValue) (inf : LatticeValue) → IsCurve k c
        → IsLatticeValue k.ops c.inf.n inf
        → IsReducedAt (code_ring k) (polynomial_ops (equation_of k c.fin)) (degree_of_y (equation_of k c.fin))
        (multiples_of (equation_of k c.fin) (AtInfinity k c inf)) (infinite_rows k c inf) (λ i. pos 0) }
{}

/// Where a lattice over k[t] differs from k[t][Y] at t alone, a power of t takes 1, Y, up to Y^(n-1) into it. Their
/// coordinates in its rows are polynomials in t. The reversed polynomials, padded to one number of codes, are the
/// coordinates of 1, y, up to y^(n-1), times a power of x, in the functions of the rows.
pub fn coordinates_law()
    ensures in_t { (k : CodeField) (c : CurveValue) (inf : LatticeValue) → IsCurve k c
        → IsLatticeValue k.ops c.inf.n inf
        → IsSupportedAt (equation_of k c.inf) (x_poly k) (Contains k c.inf inf)
        → (e : ℕ) × (q : List (List (List ℕ))) × AreCoordinatesInT k c inf e q }
    ensures turned { (k : CodeField) (c : CurveValue) (inf : LatticeValue) (e D : ℕ) (q : List (List (List ℕ)))
        → IsCurve k c → IsLatticeValue k.ops c.inf.n inf → AreCoordinatesInT k c inf e q → e ≤ D
        → ((j i : ℕ) → length (entry_at (row_at q j) i) ≤ D + 1)
        → AreCoordinates k c inf (D - e) (turned_from c.c (D + 1) 0 q) }
    ensures in_x { (k : CodeField) (c : CurveValue) (inf : LatticeValue) → IsCurve k c
        → IsLatticeValue k.ops c.inf.n inf
        → IsSupportedAt (equation_of k c.inf) (x_poly k) (Contains k c.inf inf)
        → (s : ℕ) × (Q : List (List (List ℕ))) × AreCoordinates k c inf s Q }
{}

/// How the coordinates in t are found: of a row with den·t^e in column j, for the denominator of the lattice, the
/// coefficients in the rows are those of t^e·Y^j. From an exponent on each of these rows is in the lattice of the rows.
pub fn found_law()
    ensures coordinates { (k : CodeField) (c : CurveValue) (inf : LatticeValue) (e : ℕ) (q vs : List (List (List ℕ)))
        → IsCurve k c → IsLatticeValue k.ops c.inf.n inf → length q ≡ c.inf.n
        → ((j : ℕ) → j < c.inf.n → IsPowerRow k c inf e j (row_at vs j))
        → ((j : ℕ) → j < c.inf.n → IsCombinationList k.ops c.inf.n inf.rows (row_at vs j) (row_at q j))
        → AreCoordinatesInT k c inf e q }
    ensures from_exponent { (k : CodeField) (c : CurveValue) (inf : LatticeValue)
        (tame : IsSupportedAt (equation_of k c.inf) (x_poly k) (Contains k c.inf inf)) (e j : ℕ) (v : List (List ℕ))
        → IsCurve k c → IsLatticeValue k.ops c.inf.n inf → tame.exponent ≤ e → j < c.inf.n → IsPowerRow k c inf e j v
        → InRowSpan k.ops c.inf.n inf.rows v }
{}

/// The rows of a lattice over k[x] times these coordinates span u times the lattice, for its denominator times the
/// power of x as u. So do rows with the same lattice. They are of full rank.
pub fn spanned_law()
    ensures products { (k : CodeField) (c : CurveValue) (fin inf : LatticeValue) (s : ℕ) (Q W : List (List (List ℕ)))
        (u : List ℕ) → IsCurve k c → IsLatticeValue k.ops c.fin.n fin → IsLatticeValue k.ops c.inf.n inf
        → AreCoordinates k c inf s Q → AreRowProducts k c.fin.n fin.rows Q W → IsDenominator k fin.den s u
        → SpanMultiple k c inf fin u W }
    ensures same { (k : CodeField) (c : CurveValue) (fin inf : LatticeValue) (u : List ℕ)
        (W m : List (List (List ℕ))) → IsCurve k c → IsLatticeValue k.ops c.inf.n inf
        → SpanMultiple k c inf fin u W → All (IsRow k.ops c.fin.n) m → HaveSameRowSpan k.ops c.fin.n W m
        → SpanMultiple k c inf fin u m }
    ensures full { (k : CodeField) (c : CurveValue) (fin inf : LatticeValue) (u : List ℕ) (W : List (List (List ℕ)))
        → IsCurve k c → IsLatticeValue k.ops c.fin.n fin → IsLatticeValue k.ops c.inf.n inf → IsOver k.ops u
        → IsMonicList u → SpanMultiple k c inf fin u W → HasFullRankMatrix k.ops c.fin.n W }
{}

/// A Popov basis whose rows, in the coordinates of the functions of the infinite rows, span u times a lattice over
/// k[x]: its rows over u are a reduced basis of the two lattices, whose degrees are those of the pivots less that of u.
pub fn split_law()
    ensures reduced { (k : CodeField) (c : CurveValue) (fin inf : LatticeValue) (u : List ℕ) (m : List (List (List ℕ)))
        (bs : List (Functions k c.fin)) → IsCurve k c → IsLatticeValue k.ops c.fin.n fin
        → IsLatticeValue k.ops c.inf.n inf → IsOver k.ops u → IsMonicList u → IsPopovMatrix c.fin.n m
        → SpanMultiple k c inf fin u m → AreRowsOver k c inf u m bs
        → IsReducedBasis (equation_of k c.fin) (Contains k c.fin fin) (AtInfinity k c inf) bs (split_degree u m) }
    ensures both { (k : CodeField) (c : CurveValue) (fin inf : LatticeValue) (u : List ℕ) (m : List (List (List ℕ)))
        (bs : List (Functions k c.fin)) → IsCurve k c → IsLatticeValue k.ops c.fin.n fin
        → IsLatticeValue k.ops c.inf.n inf → IsOver k.ops u → IsMonicList u → IsPopovMatrix c.fin.n m
        → SpanMultiple k c inf fin u m → AreRowsOver k c inf u m bs
        → IsBasisOfBoth (equation_of k c.fin) (Contains k c.fin fin) (AtInfinity k c inf) bs (split_degrees u m) }
{}

/// Two Popov bases whose rows span multiples of one lattice, by the monic polynomials u and v, make the same functions
/// over u and over v, with the same degrees.
pub fn one_split_law()
    ensures functions { (k : CodeField) (c : CurveValue) (fin inf : LatticeValue) (u v : List ℕ)
        (m l : List (List (List ℕ))) (bs cs : List (Functions k c.fin)) → IsCurve k c
        → IsLatticeValue k.ops c.inf.n inf → IsOver k.ops u → IsMonicList u → IsOver k.ops v → IsMonicList v
        → IsPopovMatrix c.fin.n m → IsPopovMatrix c.fin.n l → SpanMultiple k c inf fin u m
        → SpanMultiple k c inf fin v l → AreRowsOver k c inf u m bs → AreRowsOver k c inf v l cs → bs ≡ cs }
    ensures degrees { (k : CodeField) (c : CurveValue) (fin inf : LatticeValue) (u v : List ℕ)
        (m l : List (List (List ℕ))) → IsCurve k c
        → IsLatticeValue k.ops c.inf.n inf → IsOver k.ops u → IsMonicList u → IsOver k.ops v → IsMonicList v
        → IsPopovMatrix c.fin.n m → IsPopovMatrix c.fin.n l → SpanMultiple k c inf fin u m
        → SpanMultiple k c inf fin v l → (i : ℕ) → i < c.fin.n → split_degree u m i ≡ split_degree v l i }
{}

/// The sum of the degrees of a reduced basis of a lattice over k[x] and one over k[t] that differs from k[t][Y] at t
/// alone: their pivot degrees and c·n·(n - 1)/2, for the degree n in y.
pub fn split_degrees_law()
    ensures { (k : CodeField) (c : CurveValue) (fin inf : LatticeValue) (bs : List (Functions k c.fin)) (d : ℕ → ℤ)
        → IsCurve k c → IsLatticeValue k.ops c.fin.n fin → IsLatticeValue k.ops c.inf.n inf
        → IsSupportedAt (equation_of k c.inf) (x_poly k) (Contains k c.inf inf)
        → IsReducedBasis (equation_of k c.fin) (Contains k c.fin fin) (AtInfinity k c inf) bs d
        → degree_sum c.fin.n d
        ≡ (pivot_degree_of fin +ℤ pivot_degree_of inf) +ℤ pos (c.c * (c.fin.n * (c.fin.n - 1)) / 2) }
{}

/// A reduced basis of two lattices in another order, each function with its degree, is one.
pub fn permuted_law()
    ensures reduced { (k : CodeField) (c : CurveValue) (fin inf : LatticeValue)
        (ps qs : List (Functions k c.fin × ℤ)) → IsPermutation ps qs
        → IsReducedBasis (equation_of k c.fin) (Contains k c.fin fin) (AtInfinity k c inf) (functions_of ps)
        (degree_at ps)
        → IsReducedBasis (equation_of k c.fin) (Contains k c.fin fin) (AtInfinity k c inf) (functions_of qs)
        (degree_at qs) }
    ensures both { (k : CodeField) (c : CurveValue) (fin inf : LatticeValue) (ps qs : List (Functions k c.fin × ℤ))
        → IsCurve k c → IsLatticeValue k.ops c.inf.n inf → IsPermutation ps qs
        → IsReducedBasis (equation_of k c.fin) (Contains k c.fin fin) (AtInfinity k c inf) (functions_of ps)
        (degree_at ps)
        → IsBasisOfBoth (equation_of k c.fin) (Contains k c.fin fin) (AtInfinity k c inf) (functions_of qs)
        (degrees_of qs) }
{}
