//! Fields by tables of powers and logarithms.

ghost use Rattle.std.specs.Prelude.{◌≡◌, ◌≢◌, ℕ, ◌+◌, ◌-◌, ◌%◌, ◌<◌, ◌≤◌, length, replicate, slice_index, IfOk, IfNone, IfSome};
ghost use Rattle.ff_fields.specs.Code.{raw_ring};
ghost use Rattle.ff_fields.specs.Field.{pow_of};
ghost use Rattle.ff_fields.specs.Over.{IsOver};
ghost use Rattle.ff_fields.specs.Standards.{standard_of};
ghost use Rattle.ff_fields.specs.Tables.{HasPowers, IsPowerOf, AreWrittenTables};
ghost use Rattle.ring_lemmas.specs.Lists.{add_lists, scale_list};

use crate::field::SmallField;
use crate::standard::{IsStandard, Standard};
use std::alloc::{AllocError, Global};
use std::marker::Model;

// What stands for the logarithm of 0.
const MARK: u16 = 65_535;

/// A power g^i of the generator, beside the logarithm of 1 + g^i.
#[derive(Clone, Copy, Drop)]
struct Power {
    code: u16,
    next: u16,
}

/// A field whose products are made by logarithms, and its sums in odd characteristic by those of 1 + x.
#[derive(Drop)]
pub struct TableField {
    base: Standard,
    // Whether sums are those of the base: where q is a prime or a power of 2.
    adds_by_base: bool,
    generator: u32,
    minus_one: u32,
    powers: Vec<Power>,
    logs: Vec<u16>,
}

impl Model for TableField {
    ghost use Rattle.ff_fields.specs.declared.standard.Standard.{Standard};
    ghost use Rattle.ff_fields.specs.Standards.{standard_of};
    ghost use Rattle.ff_fields.specs.Tables.{IsTables};

    ghost Value = { Standard };

    ghost view = { λ t. t.base };

    ghost invariant = { λ t. IsTables (standard_of t.base).ops t.generator t.minus_one t.powers.items t.logs.items };
}

// Writes the powers of g from the first on until 1 comes again, each beside its logarithm, and answers how many differ.
fn write_powers<K: SmallField>(k: &K, g: u32, codes: &mut [u16], logs: &mut [u16]) -> usize
    requires codes_long { length codes.old ≡ (K.field k.now).size - 1 }
    requires logs_long { length logs.old ≡ (K.field k.now).size }
    requires g_in { g < (K.field k.now).size }
    requires g_some { g ≢ 0 }
    requires mark { slice_index logs.old 0 ≡ 65535 }
    ensures codes_long { length codes.new ≡ (K.field k.now).size - 1 }
    ensures logs_long { length logs.new ≡ (K.field k.now).size }
    ensures mark { slice_index logs.new 0 ≡ 65535 }
    ensures written { AreWrittenTables (K.field k.now).ops g result codes.new logs.new }
    ensures comes_again { pow_of (K.field k.now).ops g result ≡ 1 }
    ensures some { 0 < result }
    ensures within { result ≤ (K.field k.now).size - 1 }
{
    let mut count = 0;
    let mut power = 1;
    while count < codes.len() {
        codes[count] = power as u16;
        logs[power as usize] = count as u16;
        count += 1;
        power = k.mul(power, g);
        if power == 1 {
            return count;
        }
    }
    count
}

// The first code whose powers are all codes but 0, with its powers and their logarithms.
fn generator<K: SmallField>(k: &K, codes: &mut [u16], logs: &mut [u16]) -> Option<u32>
    requires codes_long { length codes.old ≡ (K.field k.now).size - 1 }
    requires logs_long { length logs.old ≡ (K.field k.now).size }
    requires mark { slice_index logs.old 0 ≡ 65535 }
    ensures codes_long { length codes.new ≡ (K.field k.now).size - 1 }
    ensures logs_long { length logs.new ≡ (K.field k.now).size }
    ensures mark { slice_index logs.new 0 ≡ 65535 }
    ensures none { IfNone result ((g : ℕ) → g < (K.field k.now).size
        → ¬ HasPowers (K.field k.now).ops g ((K.field k.now).size - 1)) }
    ensures some { IfSome result (λ g. (g < (K.field k.now).size) × ((g ≢ 0)
        × AreWrittenTables (K.field k.now).ops g ((K.field k.now).size - 1) codes.new logs.new)) }
{
    for g in 1..k.size() {
        if write_powers(k, g, codes, logs) == codes.len() {
            return Some(g);
        }
    }
    None
}

// Each code c, with the logarithm of 1 + c beside it.
fn with_sums<K: SmallField>(
    alloc: Global,
    k: &K,
    codes: &[u16],
    logs: &[u16],
) -> Result<Vec<Power>, AllocError>
    requires codes_in { IsOver (K.field k.now).ops codes.now }
    requires logs_long { length logs.now ≡ (K.field k.now).size }
    ensures long { IfOk result (λ v. length v.items ≡ length codes.now) }
    ensures each { IfOk result (λ v. (i : ℕ) → i < length codes.now
        → IsPowerOf (K.field k.now).ops codes.now logs.now v.items i) }
{
    let mut powers = Vec::with_capacity(alloc, codes.len())?;
    for code in codes {
        let sum = k.add(1, *code as u32);
        powers.push(Power {
            code: *code,
            next: logs[sum as usize],
        })?;
    }
    Ok(powers)
}

// n marks.
fn marks(alloc: Global, n: usize) -> Result<Vec<u16>, AllocError>
    ensures { IfOk result (λ v. v.items ≡ replicate n 65535) }
{
    vec![in alloc; MARK; n]
}

// A logarithm below 2·n modulo n. Where it is below n, the difference wraps round and is the larger; there is no
// branch, which would be guessed wrong half of the time.
fn reduced(log: usize, n: usize) -> usize
    requires { log < n + n }
    ensures { result ≡ log % n }
{
    log.min(log.wrapping_sub(n))
}

impl TableField {
    // The tables of a field that takes no memory.
    fn make(alloc: Global, base: Standard) -> Result<Option<TableField>, AllocError>
        ensures made { IfOk result (λ o. IfSome o (λ t. t ≡ base)) }
        ensures some { IfOk result (λ o. IfSome o (λ _. (g : ℕ) × ((g < (standard_of base).size)
            × HasPowers (standard_of base).ops g ((standard_of base).size - 1)))) }
        ensures none { IfOk result (λ o. IfNone o ((g : ℕ) → g < (standard_of base).size
            → ¬ HasPowers (standard_of base).ops g ((standard_of base).size - 1))) }
    {
        let size = base.size() as usize;
        let mut codes = vec![in alloc; 0; size - 1]?;
        let mut logs = marks(alloc, size)?;
        let Some(generator) = generator(&base, &mut codes, &mut logs) else {
            return Ok(None);
        };
        let powers = with_sums(alloc, &base, &codes, &logs)?;
        Ok(Some(TableField {
            adds_by_base: base.characteristic() == 2 || base.characteristic() == base.size(),
            minus_one: base.neg(1),
            base,
            generator,
            powers,
            logs,
        }))
    }

    /// The same field by tables, with sums in odd characteristic by tables too.
    ///
    /// `None` exactly where no code has q - 1 different powers, q being the size. The codes are tried from 1 on, each
    /// by as many products as it has different powers. The tables take 6 bytes for each element, and 2 more while they
    /// are made.
    pub fn new<B: IsStandard>(alloc: Global, base: &B) -> Result<Option<TableField>, AllocError>
        ensures made { IfOk result (λ o. IfSome o (λ t. standard_of t ≡ B.field base.now)) }
        ensures some { IfOk result (λ o. IfSome o (λ _. (g : ℕ) × ((g < (B.field base.now).size)
            × HasPowers (B.field base.now).ops g ((B.field base.now).size - 1)))) }
        ensures none { IfOk result (λ o. IfNone o ((g : ℕ) → g < (B.field base.now).size
            → ¬ HasPowers (B.field base.now).ops g ((B.field base.now).size - 1))) }
    {
        TableField::make(alloc, base.standard())
    }

    /// The same field, in memory of its own.
    pub fn copy(&self, alloc: Global) -> Result<TableField, AllocError>
        ensures { IfOk result (λ t. t ≡ self.now) }
    {
        let powers = self.powers.as_slice().to_vec(alloc)?;
        let logs = self.logs.as_slice().to_vec(alloc)?;
        Ok(TableField {
            base: self.base,
            adds_by_base: self.adds_by_base,
            generator: self.generator,
            minus_one: self.minus_one,
            powers,
            logs,
        })
    }

    // a + c·b, where neither c nor b is 0. Their product is used by its logarithm alone, so it isn't looked up.
    fn add_product(&self, a: u32, c: u32, b: u32) -> u32
        requires a_in { a < (standard_of self.now).size }
        requires c_in { c < (standard_of self.now).size }
        requires b_in { b < (standard_of self.now).size }
        requires c_some { c ≢ 0 }
        requires b_some { b ≢ 0 }
        ensures { let k = standard_of self.now in result ≡ k.add a (k.mul c b) }
    {
        let n = self.powers.len();
        let other = reduced(
            self.logs[c as usize] as usize + self.logs[b as usize] as usize,
            n,
        );
        if a == 0 {
            return self.powers[other].code as u32;
        }
        let log = self.logs[a as usize] as usize;
        let next = self.powers[reduced(other + (n - log), n)].next;
        if next == MARK {
            return 0;
        }
        self.powers[reduced(log + next as usize, n)].code as u32
    }

    // Adds c times the codes to the sum, the products by logarithms and the sums by the base.
    fn add_looked_up(&self, sum: &mut [u32], c: u32, codes: &[u32])
        requires fits { length codes.now ≤ length sum.old }
        requires sum_in { IsOver (standard_of self.now).ops sum.old }
        requires c_in { c < (standard_of self.now).size }
        requires codes_in { IsOver (standard_of self.now).ops codes.now }
        ensures { let r = raw_ring (standard_of self.now).ops in sum.new
            ≡ add_lists r sum.old (scale_list r c codes.now) }
    {
        for j in 0..codes.len() {
            sum[j] = self.base.add(sum[j], self.mul(c, codes[j]));
        }
    }

    // Adds c times the codes to the sum, where c isn't 0, all by logarithms.
    fn add_by_logs(&self, sum: &mut [u32], c: u32, codes: &[u32])
        requires fits { length codes.now ≤ length sum.old }
        requires sum_in { IsOver (standard_of self.now).ops sum.old }
        requires c_in { c < (standard_of self.now).size }
        requires c_some { c ≢ 0 }
        requires codes_in { IsOver (standard_of self.now).ops codes.now }
        ensures { let r = raw_ring (standard_of self.now).ops in sum.new
            ≡ add_lists r sum.old (scale_list r c codes.now) }
    {
        for j in 0..codes.len() {
            if codes[j] != 0 {
                sum[j] = self.add_product(sum[j], c, codes[j]);
            }
        }
    }
}

impl IsStandard for TableField {
    fn standard(&self) -> Standard {
        self.base
    }
}

impl SmallField for TableField {
    ghost field = { standard_of };

    fn size(&self) -> u32 {
        self.base.size()
    }

    fn characteristic(&self) -> u32 {
        self.base.characteristic()
    }

    fn add(&self, a: u32, b: u32) -> u32 {
        if self.adds_by_base {
            return self.base.add(a, b);
        }
        if b == 0 {
            return a;
        }
        self.add_product(a, 1, b)
    }

    fn sub(&self, a: u32, b: u32) -> u32 {
        self.add(a, self.neg(b))
    }

    fn neg(&self, a: u32) -> u32 {
        self.mul(self.minus_one, a)
    }

    fn mul(&self, a: u32, b: u32) -> u32 {
        if a == 0 || b == 0 {
            return 0;
        }
        let log = self.logs[a as usize] as usize + self.logs[b as usize] as usize;
        self.powers[reduced(log, self.powers.len())].code as u32
    }

    fn inv(&self, a: u32) -> u32 {
        let n = self.powers.len();
        self.powers[reduced(n - self.logs[a as usize] as usize, n)].code as u32
    }

    fn pow(&self, a: u32, e: u64) -> u32 {
        if a == 0 {
            return if e == 0 { 1 } else { 0 };
        }
        let n = self.powers.len() as u64;
        let log = self.logs[a as usize] as u64 * (e % n) % n;
        self.powers[log as usize].code as u32
    }

    fn add_multiple(&self, sum: &mut [u32], c: u32, codes: &[u32]) {
        if c == 0 {
            return;
        }
        match &self.base {
            Standard::Prime(k) => k.add_multiple(sum, c, codes),
            Standard::Residue(_) => {
                if self.adds_by_base {
                    self.add_looked_up(sum, c, codes);
                } else {
                    self.add_by_logs(sum, c, codes);
                }
            }
        }
    }
}
