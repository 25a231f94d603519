//! Sources and sinks over the readers and writers of std. They tell no bytes, and any call may fail. A contract sees
//! one as the reader or writer and a count of faults.

ghost use Rattle.std.specs.Prelude.{◌≡◌, ◌≤◌, ◌<◌, None, length, if◌then◌else◌, is_ok, IfOk};
ghost use Rattle.std.proofs.lemmas.Option.{none-some};
ghost use Rattle.std.specs.Io.KnownBytes.{ReadConsumes, WriteAppends};
ghost use Rattle.ff_io.specs.Streams.{next_count};

use crate::Failed;
use crate::sink::Sink;
use crate::source::Source;
use std::io::{Read, Write};
use std::marker::Model;

/// A reader of std as a source. Each error of the reader is a fault, an interrupted read too.
#[derive(Drop)]
pub struct ReadSource<R: Read> {
    inner: R,
    faults: u64,
}

impl<R: Read> Model for ReadSource<R> {
    ghost use Rattle.ff_io.specs.Streams.{Counted};

    ghost Value = { Counted R };

    ghost view = { λ s. record { inner = s.inner; faults = s.faults } };
}

impl<R: Read> ReadSource<R> {
    /// No fault is counted yet. Takes no memory.
    pub fn new(inner: R) -> ReadSource<R>
        ensures made { result ≡ record { inner = inner; faults = 0 } }
        ensures faults { ⟦<ReadSource<R> as Source>⟧.faults result ≡ 0 }
    {
        ReadSource { inner, faults: 0 }
    }

    /// How many reads failed.
    pub fn faults(&self) -> u64
        ensures { result ≡ self.now.faults }
    {
        self.faults
    }
}

impl<R: Read> Source for ReadSource<R> {
    ghost left = { λ _. None };

    ghost faults = { λ s. s.faults };

    ghost steady = { λ _. ⊥ };

    ghost below_last = { λ s steady. absurd steady };

    /// One read of the reader.
    fn read(&mut self, buf: &mut [u8]) -> Result<usize, Failed>
        ensures fits { IfOk result (λ n. n ≤ length buf.new) }
        ensures bytes { ReadConsumes (R.remaining self.old.inner) (R.remaining self.new.inner) result buf.new }
        ensures counts { self.new.faults ≡ (if is_ok result then self.old.faults else next_count self.old.faults) }
        ensures never_falls { self.old.faults ≤ self.new.faults }
    {
        match self.inner.read(buf) {
            Ok(n) => Ok(n),
            Err(_) => {
                self.faults = self.faults.saturating_add(1);
                Err(Failed)
            }
        }
    }
}

/// A writer of std as a sink. Each error of the writer is a fault, and so is a write that takes nothing of a piece
/// that isn't empty.
#[derive(Drop)]
pub struct WriteSink<W: Write> {
    inner: W,
    faults: u64,
}

impl<W: Write> Model for WriteSink<W> {
    ghost use Rattle.ff_io.specs.Streams.{Counted};

    ghost Value = { Counted W };

    ghost view = { λ s. record { inner = s.inner; faults = s.faults } };
}

impl<W: Write> WriteSink<W> {
    /// No fault is counted yet. Takes no memory.
    pub fn new(inner: W) -> WriteSink<W>
        ensures made { result ≡ record { inner = inner; faults = 0 } }
        ensures faults { ⟦<WriteSink<W> as Sink>⟧.faults result ≡ 0 }
    {
        WriteSink { inner, faults: 0 }
    }

    /// How many writes failed.
    pub fn faults(&self) -> u64
        ensures { result ≡ self.now.faults }
    {
        self.faults
    }
}

impl<W: Write> Sink for WriteSink<W> {
    ghost taken = { λ _. None };

    ghost faults = { λ s. s.faults };

    ghost free = { λ _. None };

    ghost below_last = { λ s f told. absurd (none-some f told) };

    /// One write of the writer.
    fn write(&mut self, piece: &[u8]) -> Result<usize, Failed>
        ensures fits { IfOk result (λ n. n ≤ length piece.now) }
        ensures bytes { WriteAppends (W.contents self.old.inner) (W.contents self.new.inner) result piece.now }
        ensures some { IfOk result (λ n. 0 < length piece.now → 0 < n) }
        ensures counts { self.new.faults ≡ (if is_ok result then self.old.faults else next_count self.old.faults) }
        ensures never_falls { self.old.faults ≤ self.new.faults }
    {
        match self.inner.write(piece) {
            Ok(n) if n > 0 || piece.is_empty() => Ok(n),
            _ => {
                self.faults = self.faults.saturating_add(1);
                Err(Failed)
            }
        }
    }
}
