//! Polynomials that are spelled, as sums of terms over a field.

ghost use Rattle.std.specs.Prelude.{◌≡◌, ℕ, ◌<◌, All, IfOk, IfErr, OnOk};
ghost use Rattle.ff_poly.specs.TermWords.{IsTerms, code_at};
ghost use Rattle.ff_text.specs.Values.{codes_of, written_codes, IsCodeFault, HasSmallExponents, triple_of, triples_of};

use crate::fault::TextFault;
use crate::terms::{Factor, Term, TermList};
use ff_fields::field::SmallField;
use ff_poly::Terms;
use std::alloc::Global;

/// The sum of the terms over the field. Condition: in each term the exponents of x add up to less than 2^64, and those
/// of y too. `TextFault::CodeRange` tells the first code, in the order in which they are written, that is the size of
/// the field or more. It takes the time of a sort of the terms.
pub fn collect<K: SmallField>(alloc: Global, k: &K, terms: &TermList) -> Result<Terms, TextFault>
    requires { All HasSmallExponents terms.now }
    ensures codes_in { OnOk result (All (λ c. c < (K.field k.now).size) (written_codes terms.now)) }
    ensures fault { IfErr result (IsCodeFault (K.field k.now).size (written_codes terms.now)) }

    ensures sums { let ops = (K.field k.now).ops in
        IfOk result (λ sum. (i j : ℕ) → code_at ops i j sum ≡ code_at ops i j (triples_of ops terms.now)) }
    ensures in_range { IfOk result (All (λ t. t.2 < (K.field k.now).size)) }
    ensures terms { IfOk result IsTerms }
{
    let list = triples(alloc, k, terms.terms.as_slice())?;
    Ok(Terms::from_list(alloc, k, list.as_slice())?)
}

/// The exponents and the code of each term.
fn triples<K: SmallField>(
    alloc: Global,
    k: &K,
    terms: &[Term],
) -> Result<Vec<(u64, u64, u32)>, TextFault>
    requires { All HasSmallExponents terms.now }
    ensures codes_in { OnOk result (All (λ c. c < (K.field k.now).size) (written_codes terms.now)) }
    ensures fault { IfErr result (IsCodeFault (K.field k.now).size (written_codes terms.now)) }
    ensures value { IfOk result (λ v. v.items ≡ triples_of (K.field k.now).ops terms.now) }
    ensures in_range { IfOk result (λ v. All (λ t. t.2 < (K.field k.now).size) v.items) }
{
    let mut list = Vec::new(alloc);
    for t in terms {
        list.push(triple(k, t)?)?;
    }
    Ok(list)
}

/// The exponents of y and of x, and the code of a term.
fn triple<K: SmallField>(k: &K, t: &Term) -> Result<(u64, u64, u32), TextFault>
    requires { HasSmallExponents t.now }
    ensures codes_in { OnOk result (All (λ c. c < (K.field k.now).size) (codes_of t.now.factors)) }
    ensures fault { IfErr result (IsCodeFault (K.field k.now).size (codes_of t.now.factors)) }
    ensures value { IfOk result (λ v. v ≡ triple_of (K.field k.now).ops t.now) }
    ensures in_range { IfOk result (λ v. v.2 < (K.field k.now).size) }
{
    let mut code = 1;
    let mut x = 0;
    let mut y = 0;
    for f in &t.factors.factors {
        match *f {
            Factor::Code(n) => {
                if n >= k.size() {
                    return Err(TextFault::CodeRange(n));
                }
                code = k.mul(code, n);
            }
            Factor::X(n) => x += u64::from(n),
            Factor::Y(n) => y += u64::from(n),
        }
    }
    Ok((y, x, if t.minus { k.neg(code) } else { code }))
}
