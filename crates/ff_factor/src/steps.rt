//! Steps of products modulo a monic polynomial, in place.

ghost use Rattle.std.specs.Prelude.{◌≡◌, ◌-◌, ◌<◌, ◌≤◌, length, replicate, drop};
ghost use Rattle.ff_fields.specs.Over.{IsOver};
ghost use Rattle.ff_falg.specs.Algebras.{IsVector};
ghost use Rattle.ff_factor.specs.Quotients.{IsModulus, product_modulo, times_x};

use ff_fields::field::SmallField;
use ff_linalg::add_multiple;

/// How many codes there are up to the last that isn't 0.
fn trimmed_length(codes: &[u32]) -> usize
    ensures within { result ≤ length codes.now }
    ensures zeros { drop result codes.now ≡ replicate (length codes.now - result) 0 }
{
    for i in (0..codes.len()).rev() {
        if codes[i] != 0 {
            return i + 1;
        }
    }
    0
}

/// Multiplies by x modulo g: the codes move up, and what comes to the position of the leading 1 is taken away times g.
fn multiply_by_x<K: SmallField>(k: &K, g: &[u32], codes: &mut [u32])
    requires g_in { IsOver (K.field k.now).ops g.now }
    requires some { 0 < length codes.old }
    requires codes_in { IsVector (K.field k.now).ops (length g.now - 1) codes.old }
    ensures { codes.new ≡ times_x (K.field k.now).ops g.now codes.old }
{
    codes.rotate_right(1);
    let top = codes[0];
    codes[0] = 0;
    add_multiple(k, codes, k.neg(top), &g[..g.len() - 1]);
}

/// Writes the product of a and b modulo g over zeros: from the last code of a that isn't 0 down, x times what is there
/// and a code times b.
pub(crate) fn multiply<K: SmallField>(k: &K, g: &[u32], product: &mut [u32], a: &[u32], b: &[u32])
    requires modulus { IsModulus (K.field k.now).ops g.now }
    requires a_in { IsOver (K.field k.now).ops a.now }
    requires b_in { IsVector (K.field k.now).ops (length g.now - 1) b.now }
    requires zeros { product.old ≡ replicate (length g.now - 1) 0 }
    ensures { product.new ≡ product_modulo (K.field k.now).ops g.now a.now b.now }
{
    for i in (0..trimmed_length(a)).rev() {
        multiply_by_x(k, g, product);
        add_multiple(k, product, a[i], b);
    }
}
