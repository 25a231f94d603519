//! Divisors and their operations.

ghost use Rattle.std.specs.Prelude.{◌≡◌, ◌≢◌, ℕ, pos, neg_ℤ, ◌+ℤ◌, ◌*ℤ◌, ◌++◌, FitsSigned, IfOk, OnOk};
ghost use Rattle.std.specs.Int.{w64, w128};
ghost use Rattle.ff_divisor.specs.FormalSums.{IsFormalSum, multiplicity};
ghost use Rattle.ff_divisor.specs.Steps.{entry_of};

use std::alloc::{AllocError, Global};
use std::marker::Model;

/// A divisor, a formal sum of places with integers (Stichtenoth, Algebraic Function Fields and Codes, section 1.4): the
/// places by their numbers, strictly ascending, each with an integer that isn't 0.
#[derive(Debug, Drop)]
pub struct Divisor {
    list: Vec<(u32, i64)>,
}

impl Model for Divisor {
    ghost use Rattle.std.specs.Prelude.{List, ℕ, ℤ};
    ghost use Rattle.ff_divisor.specs.FormalSums.{IsFormalSum};

    ghost Value = { List (ℕ × ℤ) };

    ghost view = { λ d. d.list.items };

    ghost invariant = { λ d. IsFormalSum d.list.items };
}

impl Divisor {
    /// The divisor of a list in any order, in which places may repeat: the multiplicity at a place is the sum of the
    /// integers that stand with it, and a place with the sum 0 is left out. These sums have to lie in i64; the sum of a
    /// part of the integers needn't. It fails only for want of memory. It takes the time of a sort.
    pub fn from_list(alloc: Global, list: &[(u32, i64)]) -> Result<Divisor, AllocError>
        requires in_range { (p : ℕ) → FitsSigned w64 (multiplicity p list.now) }
        ensures multiplicities { IfOk result (λ d. (p : ℕ) → multiplicity p d ≡ multiplicity p list.now) }
        ensures formal { IfOk result IsFormalSum }
    {
        let mut sorted = list.to_vec(alloc)?;
        sorted.sort_unstable_by_key(|e| e.0);
        let entries = sorted.as_slice();
        let mut sums = Vec::new(alloc);
        let mut run = (0, 0);
        for i in 0..entries.len() {
            run = take_entry(&mut sums, run, entries[i].0, entries[i].1)?;
        }
        push_entry(&mut sums, run.0, run.1 as i64)?;
        Ok(Divisor { list: sums })
    }

    /// The sum of two divisors: the multiplicities at each place are added, and these sums have to lie in i64. It fails
    /// only for want of memory. It takes time in the number of entries of both.
    pub fn add(&self, alloc: Global, other: &Divisor) -> Result<Divisor, AllocError>
        requires in_range { (p : ℕ) → FitsSigned w64 (multiplicity p self.now +ℤ multiplicity p other.now) }
        ensures multiplicities { IfOk result (λ d. (p : ℕ) →
            multiplicity p d ≡ multiplicity p self.now +ℤ multiplicity p other.now) }
        ensures formal { IfOk result IsFormalSum }
    {
        let (a, b) = (self.list.as_slice(), other.list.as_slice());
        let mut sum = Vec::new(alloc);
        let mut i = 0;
        let mut j = 0;
        while i < a.len() && j < b.len() {
            if a[i].0 < b[j].0 {
                sum.push(a[i])?;
                i += 1;
            } else if b[j].0 < a[i].0 {
                sum.push(b[j])?;
                j += 1;
            } else {
                push_entry(&mut sum, a[i].0, a[i].1 + b[j].1)?;
                i += 1;
                j += 1;
            }
        }
        sum.extend_from_slice(&a[i..])?;
        sum.extend_from_slice(&b[j..])?;
        Ok(Divisor { list: sum })
    }

    /// The multiple by m: the multiplicity at each place is multiplied by m, and these products have to lie in i64. It
    /// fails only for want of memory. It takes time in the number of entries.
    pub fn scale(&self, alloc: Global, m: i64) -> Result<Divisor, AllocError>
        requires in_range { (p : ℕ) → FitsSigned w64 (m *ℤ multiplicity p self.now) }
        ensures multiplicities { IfOk result (λ d. (p : ℕ) → multiplicity p d ≡ m *ℤ multiplicity p self.now) }
        ensures formal { IfOk result IsFormalSum }
    {
        let list = self.list.as_slice();
        let mut multiple = Vec::new(alloc);
        for i in 0..list.len() {
            push_entry(&mut multiple, list[i].0, m * list[i].1)?;
        }
        Ok(Divisor { list: multiple })
    }

    /// The negative: each multiplicity with the other sign, so none may be the least number of i64. It fails only for
    /// want of memory. It takes time in the number of entries.
    pub fn neg(&self, alloc: Global) -> Result<Divisor, AllocError>
        requires in_range { (p : ℕ) → FitsSigned w64 (neg_ℤ (multiplicity p self.now)) }
        ensures multiplicities { IfOk result (λ d. (p : ℕ) → multiplicity p d ≡ neg_ℤ (multiplicity p self.now)) }
        ensures formal { IfOk result IsFormalSum }
    {
        self.scale(alloc, -1)
    }

    /// The multiplicity at the place with this number, which is 0 where the place has no entry. It takes the time of a
    /// binary search. No memory is taken.
    pub fn multiplicity(&self, place: u32) -> i64
        ensures { result ≡ multiplicity place self.now }
    {
        match self.list.binary_search_by_key(&place, |e| e.0) {
            Ok(at) => self.list[at].1,
            Err(_) => 0,
        }
    }

    /// The places by their numbers, strictly ascending, with their multiplicities, none of which is 0. No memory is
    /// taken.
    pub fn entries(&self) -> &[(u32, i64)]
        ensures list { result.now ≡ self.now }
        ensures formal { IsFormalSum self.now }
    {
        self.list.as_slice()
    }

    /// An equal divisor, in memory of its own. It fails only for want of memory.
    pub fn copy(&self, alloc: Global) -> Result<Divisor, AllocError>
        ensures { IfOk result (λ d. d ≡ self.now) }
    {
        let list = self.list.as_slice().to_vec(alloc)?;
        Ok(Divisor { list })
    }
}

/// Writes an entry behind the others, unless its integer is 0.
fn push_entry(list: &mut Vec<(u32, i64)>, place: u32, m: i64) -> Result<(), AllocError>
    ensures { OnOk result (list.new.items ≡ list.old.items ++ entry_of place m) }
{
    if m != 0 {
        list.push((place, m))?;
    }
    Ok(())
}

/// Takes an entry into a run of entries of one place, and answers the run: its place and its sum. An entry of another
/// place begins a run, and the sum of the one before is written.
fn take_entry(
    sums: &mut Vec<(u32, i64)>,
    run: (u32, i128),
    place: u32,
    m: i64,
) -> Result<(u32, i128), AllocError>
    requires room { FitsSigned w128 (run.1 +ℤ m) }
    requires in_range { run.0 ≢ place → FitsSigned w64 run.1 }
    ensures same { IfOk result (λ r. run.0 ≡ place
        → (r ≡ (place, run.1 +ℤ m)) × (sums.new.items ≡ sums.old.items)) }
    ensures other { IfOk result (λ r. run.0 ≢ place
        → (r ≡ (place, m)) × (sums.new.items ≡ sums.old.items ++ entry_of run.0 run.1)) }
{
    if run.0 == place {
        return Ok((place, run.1 + i128::from(m)));
    }
    push_entry(sums, run.0, run.1 as i64)?;
    Ok((place, i128::from(m)))
}
