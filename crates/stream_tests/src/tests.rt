//! Small callers whose contracts are proved, and what the calls do with each failing call in turn.

ghost use Rattle.std.specs.Prelude.{◌≡◌, ◌<◌, [], ◌∷◌, ◌++◌, Some, length, IfOk, IsErr, IsErrOf, OnOk};
ghost use Rattle.ff_io.specs.Streams.{IsPrefix};

use ff_io::Failed;
use ff_io::adapters::{ReadSource, WriteSink};
use ff_io::memory::{MemSink, MemSource};
use ff_io::sink::write_all;
use ff_io::source::{ReadEnd, Source, read_all};
use std::alloc::{AllocError, Global};
use std::io;
use std::test::Fail;

// Over a source in memory with no failing call these are the only answers but for want of memory.
fn read_bytes(alloc: Global, bytes: Vec<u8>, limit: usize, step: usize) -> Result<Vec<u8>, ReadEnd>
    requires { 0 < step }
    ensures whole { IfOk result (λ read. read.items ≡ bytes.items) }
    ensures too_long { IsErrOf result ReadEnd.TooLong → limit < length bytes.items }
    ensures not_ok { limit < length bytes.items → IsErr result }
    ensures no_fault { ¬ IsErrOf result ReadEnd.Fault }
{
    let mut src = MemSource::new(bytes, Vec::new(alloc), step);
    read_all(alloc, &mut src, limit)
}

// A sink in memory with no failing call and with room enough takes all.
fn write_bytes(alloc: Global, bytes: &[u8], step: usize) -> Result<MemSink, AllocError>
    requires { 0 < step }
    ensures { IfOk result (λ out. out.taken ≡ bytes.now) }
{
    let mut out = MemSink::new(alloc, bytes.len(), Vec::new(alloc), step)?;
    write_all(&mut out, bytes).unwrap();
    Ok(out)
}

// What a failed write appended begins the bytes.
fn write_some(out: &mut MemSink, bytes: &[u8]) -> Result<(), Failed>
    ensures { (part : _) × IsPrefix part bytes.now × (out.new.taken ≡ out.old.taken ++ part) }
{
    write_all(out, bytes)
}

// A source that holds too much keeps what stands behind the byte that showed it, and isn't read whole.
fn leaves_the_rest<S: Source>(alloc: Global, src: &mut S) -> Result<(), ReadEnd>
    requires { S.left src.old ≡ Some (1 ∷ 2 ∷ 3 ∷ []) }
    ensures { OnOk result (S.left src.new ≡ Some (3 ∷ [])) }
{
    match read_all(alloc, src, 1) {
        Err(ReadEnd::TooLong) => Ok(()),
        Ok(_) => unreachable!(),
        Err(end) => Err(end),
    }
}

#[test]
fn limit_of_read_all(rt: HostRuntime) -> Result<(), Fail> {
    let alloc = rt.alloc();
    for step in [1, 2, 16] {
        let two = b"ab";
        let read = read_bytes(alloc, two.to_vec(alloc)?, 2, step)?;
        assert_eq!(rt; read.as_slice(), b"ab".as_slice(), "step {step}");
        let cut = read_bytes(alloc, two.to_vec(alloc)?, 1, step);
        assert_eq!(rt; cut, Err(ReadEnd::TooLong), "step {step}");
        let none = read_bytes(alloc, Vec::new(alloc), 0, step)?;
        assert!(rt; none.is_empty(), "step {step}");
        let one = read_bytes(alloc, b"a".to_vec(alloc)?, 0, step);
        assert_eq!(rt; one, Err(ReadEnd::TooLong), "step {step}");
        let open = read_bytes(alloc, two.to_vec(alloc)?, usize::MAX, step)?;
        assert_eq!(rt; open.len(), 2, "step {step}");
    }
    Ok(())
}

#[test]
fn byte_past_the_limit_is_the_last_read(rt: HostRuntime) -> Result<(), Fail> {
    let alloc = rt.alloc();
    let mut src = MemSource::new([1, 2, 3].to_vec(alloc)?, Vec::new(alloc), 16);
    assert_eq!(rt; leaves_the_rest(alloc, &mut src), Ok(()));
    assert_eq!(rt; src.place(), 2);
    Ok(())
}

// 8 bytes by 3 take three calls, and a fourth that finds the end.
#[test]
fn each_read_fails_in_turn(rt: HostRuntime) -> Result<(), Fail> {
    let alloc = rt.alloc();
    for (call, place) in [(1, 0), (2, 3), (3, 6), (4, 8)] {
        let mut failing = Vec::new(alloc);
        failing.push(call)?;
        let mut src = MemSource::new(b"abcdefgh".to_vec(alloc)?, failing, 3);
        let read = read_all(alloc, &mut src, 8);
        assert_eq!(rt; read, Err(ReadEnd::Fault), "call {call}");
        assert_eq!(rt; src.place(), place, "call {call}");
        assert_eq!(rt; src.calls(), call, "call {call}");
        assert_eq!(rt; src.faults(), 1, "call {call}");
    }
    Ok(())
}

#[test]
fn each_write_fails_in_turn(rt: HostRuntime) -> Result<(), Fail> {
    let alloc = rt.alloc();
    for (call, taken) in [(1, b"".as_slice()), (2, b"abc"), (3, b"abcdef")] {
        let mut failing = Vec::new(alloc);
        failing.push(call)?;
        let mut out = MemSink::new(alloc, 8, failing, 3)?;
        assert_eq!(rt;
            write_some(&mut out, b"abcdefgh"),
            Err(Failed),
            "call {call}"
        );
        assert_eq!(rt; out.taken(), taken, "call {call}");
        assert_eq!(rt; out.calls(), call, "call {call}");
        assert_eq!(rt; out.faults(), 1, "call {call}");
    }
    Ok(())
}

#[test]
fn full_room_is_a_fault(rt: HostRuntime) -> Result<(), Fail> {
    let alloc = rt.alloc();
    let mut out = MemSink::new(alloc, 5, Vec::new(alloc), 3)?;
    assert_eq!(rt; write_all(&mut out, b"abcdefgh"), Err(Failed));
    assert_eq!(rt; out.taken(), b"abc".as_slice());
    assert_eq!(rt; out.faults(), 1);
    assert_eq!(rt;
        write_bytes(alloc, b"abcdefgh", 3)?.taken(),
        b"abcdefgh".as_slice()
    );
    Ok(())
}

#[test]
fn copies(rt: HostRuntime) -> Result<(), Fail> {
    let alloc = rt.alloc();
    let mut src = MemSource::new(b"ab".to_vec(alloc)?, Vec::new(alloc), 1);
    assert_eq!(rt; src.read(&mut [0; 4]), Ok(1));
    let mut rest = src.copy(alloc)?;
    assert_eq!(rt; read_all(alloc, &mut rest, 9)?.as_slice(), b"b".as_slice());
    let mut out = write_bytes(alloc, b"ab", 1)?.copy(alloc)?;
    assert_eq!(rt; out.taken(), b"ab".as_slice());
    assert_eq!(rt; write_all(&mut out, b"c"), Err(Failed));
    Ok(())
}

// A reader and a writer whose second call goes wrong.
#[derive(Drop)]
struct Flaky {
    calls: u8,
}

impl Flaky {
    fn is_second(&mut self) -> bool {
        self.calls = self.calls.saturating_add(1);
        self.calls == 2
    }
}

impl io::Read for Flaky {
    fn read(&mut self, buf: &mut [u8]) -> io::Result<usize> {
        if self.is_second() {
            return Err(io::ErrorKind::Other.into());
        }
        Ok(buf.len().min(1))
    }
}

impl io::Write for Flaky {
    fn write(&mut self, buf: &[u8]) -> io::Result<usize> {
        if self.is_second() {
            return Ok(0);
        }
        Ok(buf.len().min(1))
    }

    fn flush(&mut self) -> io::Result<()> {
        Ok(())
    }
}

#[test]
fn reader_of_std(rt: HostRuntime) -> Result<(), Fail> {
    let alloc = rt.alloc();
    let mut src = ReadSource::new(b"ab".as_slice());
    assert_eq!(rt; read_all(alloc, &mut src, 2)?.as_slice(), b"ab".as_slice());
    assert_eq!(rt; src.faults(), 0);
    let mut flaky = ReadSource::new(Flaky { calls: 0 });
    assert_eq!(rt; read_all(alloc, &mut flaky, 9), Err(ReadEnd::Fault));
    assert_eq!(rt; flaky.faults(), 1);
    assert_eq!(rt; flaky.read(&mut [0; 4]), Ok(1));
    Ok(())
}

#[test]
fn writer_of_std(rt: HostRuntime) -> Result<(), Fail> {
    let mut bytes = Vec::new(rt.alloc());
    let mut out = WriteSink::new(&mut bytes);
    assert_eq!(rt; write_all(&mut out, b"ab"), Ok(()));
    assert_eq!(rt; out.faults(), 0);
    assert_eq!(rt; bytes.as_slice(), b"ab".as_slice());
    let mut flaky = WriteSink::new(Flaky { calls: 0 });
    assert_eq!(rt; write_all(&mut flaky, b"ab"), Err(Failed));
    assert_eq!(rt; flaky.faults(), 1);
    Ok(())
}
