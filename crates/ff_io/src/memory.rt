//! A source and a sink in memory. Calls fail where they are told to, so that a caller's answer to a fault can be tried.

ghost use Rattle.std.specs.Prelude.{◌≡◌, ◌+◌, ◌-◌, ◌<◌, ◌≤◌, ◌↔◌, ◌⊎◌, ◌==◌, if◌then◌else◌, min, [], ◌++◌, Some, None, length, take, IfOk, OnErr, IfSome, IsErr, IsOkAnd};
ghost use Rattle.std.specs.List.{Contains};
ghost use Rattle.ff_io.specs.Streams.{next_count, Rose, Took, Appends, Fills};
ghost use Rattle.ff_io.specs.Memory.{left_of, IsSteady, free_of, free_below};

use crate::Failed;
use crate::sink::Sink;
use crate::source::Source;
use std::alloc::{AllocError, Global};
use std::marker::Model;

/// Gives bytes that lie in memory.
#[derive(Debug, Drop)]
pub struct MemSource {
    bytes: Vec<u8>,
    place: usize,
    calls: u64,
    failing: Vec<u64>,
    faults: u64,
    step: usize,
}

impl Model for MemSource {
    ghost use Rattle.std.specs.Prelude.{◌≤◌, length};
    ghost use Rattle.ff_io.specs.Memory.{SourceState};

    ghost Value = { SourceState };

    ghost view = { λ s. record {
      bytes = s.bytes.items;
      place = s.place;
      calls = s.calls;
      failing = s.failing.items;
      faults = s.faults;
      step = s.step;
    } };

    ghost invariant = { λ s. (s.place ≤ length s.bytes.items) × (1 ≤ s.step) };
}

impl MemSource {
    /// A source of these bytes. The calls with the numbers in `failing`, from 1, fail, and no call moves more than
    /// `step` bytes. Takes no memory.
    pub fn new(bytes: Vec<u8>, failing: Vec<u64>, step: usize) -> MemSource
        requires { 1 ≤ step }
        ensures made { result ≡ record {
          bytes = bytes.items;
          place = 0;
          calls = 0;
          failing = failing.items;
          faults = 0;
          step = step;
        } }
        ensures left { ⟦<MemSource as Source>⟧.left result ≡ Some bytes.items }
        ensures faults { ⟦<MemSource as Source>⟧.faults result ≡ 0 }
        ensures steady { ⟦<MemSource as Source>⟧.steady result ↔ (failing.items ≡ []) }
    {
        MemSource {
            bytes,
            place: 0,
            calls: 0,
            failing,
            faults: 0,
            step,
        }
    }

    /// How many bytes were read.
    pub fn place(&self) -> usize
        ensures { result ≡ self.now.place }
    {
        self.place
    }

    /// How many calls there were.
    pub fn calls(&self) -> u64
        ensures { result ≡ self.now.calls }
    {
        self.calls
    }

    /// How many calls failed.
    pub fn faults(&self) -> u64
        ensures { result ≡ self.now.faults }
    {
        self.faults
    }

    /// An equal source.
    pub fn copy(&self, alloc: Global) -> Result<MemSource, AllocError>
        ensures { IfOk result (λ s. s ≡ self.now) }
    {
        Ok(MemSource {
            bytes: self.bytes.to_vec(alloc)?,
            place: self.place,
            calls: self.calls,
            failing: self.failing.to_vec(alloc)?,
            faults: self.faults,
            step: self.step,
        })
    }
}

impl Source for MemSource {
    ghost left = { left_of };

    ghost faults = { λ s. s.faults };

    ghost steady = { IsSteady };

    ghost below_last = { λ s steady. steady.1 };

    /// One call: it fails where its number is in `failing`, and else moves as many bytes as `step`, the buffer and what
    /// is left allow.
    fn read(&mut self, buf: &mut [u8]) -> Result<usize, Failed>
        ensures fails { IsErr result ↔ Contains self.old.failing (next_count self.old.calls) }
        ensures moves { IfOk result (λ n.
            (n ≡ min (min self.old.step (length buf.new)) (length self.old.bytes - self.old.place))
            × (self.new ≡ record self.old { place = self.old.place + n; calls = next_count self.old.calls })) }
        ensures counts { OnErr result (self.new
            ≡ record self.old { calls = next_count self.old.calls; faults = next_count self.old.faults }) }

        // As every source.
        ensures fits { IfOk result (λ n. n ≤ length buf.new) }
        ensures bytes { IfOk result (λ n. IfSome (left_of self.old) (λ xs. Took n buf.new xs (left_of self.new))) }
        ensures end { IfOk result (λ n. n ≡ 0 → 0 < length buf.new → IfSome (left_of self.old) (λ xs. xs ≡ [])) }
        ensures count { self.old.faults ≤ self.new.faults }
        ensures cause { OnErr result (Rose self.old.faults self.new.faults) }
        ensures stays_steady { IsSteady self.old → (self.new.faults ≡ self.old.faults) × IsSteady self.new }
    {
        self.calls = self.calls.saturating_add(1);
        if self.failing.contains(&self.calls) {
            self.faults = self.faults.saturating_add(1);
            return Err(Failed);
        }
        let left = &self.bytes[self.place..];
        let n = self.step.min(buf.len()).min(left.len());
        buf[..n].copy_from_slice(&left[..n]);
        self.place += n;
        Ok(n)
    }
}

/// Takes bytes into memory that is taken when it is made.
#[derive(Debug, Drop)]
pub struct MemSink {
    taken: Vec<u8>,
    room: usize,
    calls: u64,
    failing: Vec<u64>,
    faults: u64,
    step: usize,
}

impl Model for MemSink {
    ghost use Rattle.std.specs.Prelude.{◌≤◌, length, vec_capacity};
    ghost use Rattle.ff_io.specs.Memory.{SinkState};

    ghost Value = { SinkState };

    ghost view = { λ s. record {
      taken = s.taken.items;
      room = s.room;
      calls = s.calls;
      failing = s.failing.items;
      faults = s.faults;
      step = s.step;
    } };

    ghost invariant = { λ s. (length s.taken.items ≤ s.room) × (s.room ≤ vec_capacity s.taken) × (1 ≤ s.step) };
}

impl MemSink {
    /// A sink for `room` bytes. The calls with the numbers in `failing`, from 1, fail, and no call moves more than
    /// `step` bytes. Fails only for want of memory.
    pub fn new(
        alloc: Global,
        room: usize,
        failing: Vec<u64>,
        step: usize,
    ) -> Result<MemSink, AllocError>
        requires { 1 ≤ step }
        ensures made { IfOk result (λ s. s
            ≡ record { taken = []; room = room; calls = 0; failing = failing.items; faults = 0; step = step }) }
        ensures taken { IfOk result (λ s. ⟦<MemSink as Sink>⟧.taken s ≡ Some []) }
        ensures faults { IfOk result (λ s. ⟦<MemSink as Sink>⟧.faults s ≡ 0) }
        ensures free { IfOk result (λ s. ⟦<MemSink as Sink>⟧.free s
            ≡ (if length failing.items == 0 then Some room else None)) }
    {
        Ok(MemSink {
            taken: Vec::with_capacity(alloc, room)?,
            room,
            calls: 0,
            failing,
            faults: 0,
            step,
        })
    }

    /// The bytes taken so far.
    pub fn taken(&self) -> &[u8]
        ensures { result.now ≡ self.now.taken }
    {
        &self.taken
    }

    /// How many calls there were.
    pub fn calls(&self) -> u64
        ensures { result ≡ self.now.calls }
    {
        self.calls
    }

    /// How many calls failed.
    pub fn faults(&self) -> u64
        ensures { result ≡ self.now.faults }
    {
        self.faults
    }

    /// An equal sink, with memory of its own.
    pub fn copy(&self, alloc: Global) -> Result<MemSink, AllocError>
        ensures { IfOk result (λ s. s ≡ self.now) }
    {
        let mut taken = Vec::with_capacity(alloc, self.room)?;
        taken.extend_from_slice(&self.taken)?;
        Ok(MemSink {
            taken,
            room: self.room,
            calls: self.calls,
            failing: self.failing.to_vec(alloc)?,
            faults: self.faults,
            step: self.step,
        })
    }
}

impl Sink for MemSink {
    ghost taken = { λ s. Some s.taken };

    ghost faults = { λ s. s.faults };

    ghost free = { free_of };

    ghost below_last = { free_below };

    /// One call: it moves as many bytes as `step` and the piece allow. It fails where its number is in `failing`, and
    /// where that many don't fit into the room any more.
    fn write(&mut self, piece: &[u8]) -> Result<usize, Failed>
        ensures fails { IsErr result ↔ (Contains self.old.failing (next_count self.old.calls)
            ⊎ (self.old.room < length self.old.taken + min self.old.step (length piece.now))) }
        ensures moves { IfOk result (λ n. (n ≡ min self.old.step (length piece.now))
            × (self.new ≡ record self.old
            { taken = self.old.taken ++ take n piece.now; calls = next_count self.old.calls })) }
        ensures counts { OnErr result (self.new
            ≡ record self.old { calls = next_count self.old.calls; faults = next_count self.old.faults }) }

        // As every sink.
        ensures fits { IfOk result (λ n. n ≤ length piece.now) }
        ensures bytes { IfOk result (λ n. Appends (Some self.old.taken) (Some self.new.taken) (take n piece.now)) }
        ensures failed { OnErr result (Appends (Some self.old.taken) (Some self.new.taken) []) }
        ensures count { self.old.faults ≤ self.new.faults }
        ensures cause { OnErr result (Rose self.old.faults self.new.faults) }
        ensures stall { IfOk result (λ n. n ≡ 0 → 0 < length piece.now → Rose self.old.faults self.new.faults) }
        ensures room { IfSome (free_of self.old) (λ f. length piece.now ≤ f →
            IsOkAnd result (λ n. Fills n f (free_of self.new) self.old.faults self.new.faults)) }
    {
        self.calls = self.calls.saturating_add(1);
        let n = self.step.min(piece.len());
        if self.failing.contains(&self.calls) || n > self.room - self.taken.len() {
            self.faults = self.faults.saturating_add(1);
            return Err(Failed);
        }
        self.taken.extend_from_slice(&piece[..n]).unwrap();
        Ok(n)
    }
}
