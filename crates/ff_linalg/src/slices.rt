//! The inner loops, on slices of codes.

ghost use Rattle.std.specs.Prelude.{◌≡◌, ◌<◌, ◌≤◌, length};
ghost use Rattle.ff_fields.specs.Code.{raw_ring};
ghost use Rattle.ff_fields.specs.Over.{IsOver};
ghost use Rattle.ring_lemmas.specs.Lists.{add_lists, scale_list};

use ff_fields::field::SmallField;

/// Multiplies each code by c.
pub(crate) fn scale_all<K: SmallField>(k: &K, codes: &mut [u32], c: u32)
    requires codes_in { IsOver (K.field k.now).ops codes.old }
    requires c_in { c < (K.field k.now).size }
    ensures { codes.new ≡ scale_list (raw_ring (K.field k.now).ops) c codes.old }
{
    for j in 0..codes.len() {
        codes[j] = k.mul(c, codes[j]);
    }
}

/// Adds c times the codes to the first entries of the sum, in place; the other entries stay.
///
/// The sum has at least as many entries as there are codes, and c, the codes and the sum are over the field. Where c is
/// 0, nothing is done. Cost: at most a product and a sum for each code, in the loop of the field. No call takes memory.
pub fn add_multiple<K: SmallField>(k: &K, sum: &mut [u32], c: u32, codes: &[u32])
    requires fits { length codes.now ≤ length sum.old }
    requires sum_in { IsOver (K.field k.now).ops sum.old }
    requires c_in { c < (K.field k.now).size }
    requires codes_in { IsOver (K.field k.now).ops codes.now }
    ensures { let r = raw_ring (K.field k.now).ops in sum.new ≡ add_lists r sum.old (scale_list r c codes.now) }
{
    k.add_multiple(sum, c, codes);
}
