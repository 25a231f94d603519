//! Products in characteristic 2, where the digits of a code are its bits.

ghost use Rattle.std.specs.Prelude.{◌≡◌, ◌+◌, ◌^◌, ◌<◌};
ghost use Rattle.ff_fields.specs.Modulus.{IsMonicModulus};
ghost use Rattle.ff_fields.specs.Residue.{digits, residue_mul};

/// The product of two residues modulo the monic polynomial of degree m with the code `modulus`.
#[tactic(auto, using(crate::proofs::Sizes::size_short))]
pub(crate) fn multiply_bits(m: u32, modulus: u32, a: u32, b: u32) -> u32
    requires monic { IsMonicModulus 2 m (digits 2 (m + 1) modulus) }
    requires modulus_in { modulus < 2 ^ (m + 1) }
    requires b_in { b < 2 ^ m }
    ensures { result ≡ residue_mul 2 m (digits 2 (m + 1) modulus) a b }
{
    let mut product = 0;
    let mut i = m;
    while i > 0 {
        i -= 1;
        let top = (product >> (m - 1)) % 2;
        let bit = (a >> i) % 2;
        product = (2 * product) ^ (modulus * top) ^ (b * bit);
    }
    product
}
