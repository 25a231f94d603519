//! The length, and the change of a polynomial in place.

ghost use Rattle.std.specs.Prelude.{◌≡◌, ◌+◌, ◌^◌, ◌<◌, ◌≤◌, ◌++◌, length, replicate, OnOk, OnErr};
ghost use Rattle.ff_fields.specs.Code.{raw_ring};
ghost use Rattle.ff_fields.specs.Over.{IsOver};
ghost use Rattle.ring_lemmas.specs.Lists.{add_lists, scale_list};
ghost use Rattle.ff_poly.specs.Words.{IsPoly};
ghost use Rattle.ff_poly.specs.Terms.{less_multiple};

use crate::poly::{Poly, drop_zeros};
use ff_fields::field::SmallField;
use std::alloc::AllocError;

/// Takes c times the codes away from the sum, from position j on.
fn subtract_at<K: SmallField>(k: &K, sum: &mut [u32], c: u32, j: usize, codes: &[u32])
    requires fits { j + length codes.now ≤ length sum.old }
    requires sum_in { IsOver (K.field k.now).ops sum.old }
    requires c_in { c < (K.field k.now).size }
    requires codes_in { IsOver (K.field k.now).ops codes.now }
    ensures { let r = raw_ring (K.field k.now).ops in sum.new
        ≡ add_lists r sum.old (replicate j 0 ++ scale_list r ((K.field k.now).neg c) codes.now) }
{
    k.add_multiple(&mut sum[j..], k.neg(c), codes);
}

impl Poly {
    /// The number of codes: the degree and 1, or 0 for the zero polynomial. No memory.
    pub fn len(&self) -> usize
        ensures length { result ≡ length self.now }
        ensures trimmed { IsPoly self.now }
    {
        self.codes.len()
    }

    /// Takes c·x^j times the other polynomial away, in place, in time linear in the lengths. Memory is asked for only
    /// where the polynomial gets longer; after want of it the polynomial is as before.
    pub fn sub_multiple<K: SmallField>(
        &mut self,
        k: &K,
        c: u32,
        j: usize,
        other: &Poly,
    ) -> Result<(), AllocError>
        requires self_in { IsOver (K.field k.now).ops self.old }
        requires c_in { c < (K.field k.now).size }
        requires other_in { IsOver (K.field k.now).ops other.now }
        requires fits { j + length other.now < 2 ^ 64 }
        ensures difference { OnOk result (self.new ≡ less_multiple (K.field k.now).ops self.old c j other.now) }
        ensures err { OnErr result (self.new ≡ self.old) }
        ensures over { IsOver (K.field k.now).ops self.new }
        ensures trimmed { IsPoly self.new }
    {
        let len = self.codes.len().max(j + other.codes.len());
        self.codes.resize(len, 0)?;
        subtract_at(k, self.codes.as_mut_slice(), c, j, other.codes.as_slice());
        drop_zeros(&mut self.codes);
        Ok(())
    }
}
