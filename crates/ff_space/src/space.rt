//! The printed basis of a space that functions span over k.

ghost use Rattle.std.specs.Prelude.{◌≡◌, ◌≤◌, length, map, All, IfOk};
ghost use Rattle.function_field.specs.Divisors.{IsSpaceBasis};
ghost use Rattle.function_field.specs.Values.{IsElem, function_of, setting};
ghost use Rattle.ff_space.specs.Layers.{layer_functions};
ghost use Rattle.ff_space.specs.Spaces.{InCodeSpan, IsPrintedBasis, IsPrintedSpace};

use crate::denominators::least_numerators;
use crate::functions::row_functions;
use crate::layers::all_multiples;
use crate::rows::vector_basis;
use crate::vectors::longest;
use ff_algebra::{Elem, Pres};
use ff_fields::field::SmallField;
use ff_linalg::Matrix;
use ff_poly::Poly;
use ff_written::copy_elements;
use std::alloc::{AllocError, Global};
use std::marker::Model;

/// The printed basis of a space of functions: their vectors of codes over a denominator as rows of an echelon form, and
/// the functions, each in lowest terms.
#[derive(Debug, Drop)]
pub struct PrintedBasis {
    pub(crate) den: Poly,
    pub(crate) width: usize,
    pub(crate) rows: Matrix,
    pub(crate) functions: Vec<Elem>,
}

impl Model for PrintedBasis {
    ghost use Rattle.ff_space.specs.Spaces.{SpaceValue};

    ghost Value = { SpaceValue };

    ghost view = { λ s. record { den = s.den; width = s.width; rows = s.rows; functions = s.functions.items } };
}

impl PrintedBasis {
    /// The functions in the order in which they are printed. No memory is taken.
    pub fn functions(&self) -> &[Elem]
        ensures { result.now ≡ self.now.functions }
    {
        self.functions.as_slice()
    }

    /// How many functions there are: the dimension of the space over k.
    pub fn len(&self) -> usize
        ensures { result ≡ length self.now.functions }
    {
        self.functions.len()
    }

    /// An equal basis, in memory of its own.
    pub fn copy(&self, alloc: Global) -> Result<PrintedBasis, AllocError>
        ensures { IfOk result (λ s. s ≡ self.now) }
    {
        let den = self.den.copy(alloc)?;
        let rows = self.rows.copy(alloc)?;
        let functions = copy_elements(alloc, self.functions.as_slice())?;
        Ok(PrintedBasis {
            den,
            width: self.width,
            rows,
            functions,
        })
    }
}

/// The printed basis of the combinations of the elements with codes of k. The elements may depend on each other, and
/// have any denominators; there may be none.
/// Cost: the factors of a common multiple of the denominators, and of the least denominator; the echelon form of a row
/// of n·w codes for each element, where w is the greatest number of codes of a numerator over the least denominator.
pub fn span<K: SmallField>(
    alloc: Global,
    k: &K,
    p: &Pres,
    zs: &[Elem],
) -> Result<PrintedBasis, AllocError>
    requires positive { 1 ≤ p.now.n }
    requires elements { All (IsElem (K.field k.now).ops p.now.n) zs.now }
    ensures { let k = K.field k.now in
        IfOk result (IsPrintedSpace k p.now (InCodeSpan k p.now (map (function_of k p.now) zs.now))) }
{
    let (num, den) = least_numerators(alloc, k, zs, p.n())?;
    let width = longest(num.as_slice());
    let rows = vector_basis(alloc, k, num.as_slice(), zs.len(), p.n(), width)?;
    let functions = row_functions(alloc, k, p, &den, width, &rows)?;
    Ok(PrintedBasis {
        den,
        width,
        rows,
        functions,
    })
}

/// The printed basis of the combinations, with codes of k, of all x^j·b_i with 0 ≤ j ≤ -d_i, where the b_i are the
/// elements and the d_i their degrees. The degrees may be any, so one far below 0 ends in want of memory.
/// Cost: that of `span` for these elements.
pub fn spanned<K: SmallField>(
    alloc: Global,
    k: &K,
    p: &Pres,
    basis: &[Elem],
    degrees: &[i64],
) -> Result<PrintedBasis, AllocError>
    requires positive { 1 ≤ p.now.n }
    requires elements { All (IsElem (K.field k.now).ops p.now.n) basis.now }
    requires one_each { length basis.now ≡ length degrees.now }
    ensures space { let k = K.field k.now in
        IfOk result (IsPrintedSpace k p.now (InCodeSpan k p.now (layer_functions k p.now basis.now degrees.now))) }
    ensures printed { let k = K.field k.now in
        IfOk result (λ s. IsPrintedBasis k p.now (InCodeSpan k p.now (layer_functions k p.now basis.now degrees.now))
        s.functions) }
    ensures basis { let k = K.field k.now in
        IfOk result (λ s. IsSpaceBasis (setting k p.now)
        (InCodeSpan k p.now (layer_functions k p.now basis.now degrees.now))
        (map (function_of k p.now) s.functions)) }
    ensures elements { IfOk result (λ s. All (IsElem (K.field k.now).ops p.now.n) s.functions) }
{
    let zs = all_multiples(alloc, basis, degrees)?;
    span(alloc, k, p, zs.as_slice())
}
