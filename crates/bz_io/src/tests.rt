use super::*;
use crate::reading::read_opened;
use crate::retrying::{read_once, write_once};
use crate::source::Source;
use std::alloc::{AllocError, Global};
use std::cell::Cell;
use std::fmt::Display;
use std::io::{ErrorKind, Read, Write};
use std::test::Fail;
use std::{fs, io, process};

fn one_file(
    alloc: Global,
    name: &[u8],
    text: &[u8],
) -> Result<Vec<(Vec<u8>, Vec<u8>)>, AllocError> {
    let mut files = Vec::new(alloc);
    files.push((Vec::from_slice(alloc, name)?, Vec::from_slice(alloc, text)?))?;
    Ok(files)
}

#[test]
fn a_desk_in_memory_loads(rt: HostRuntime) -> Result<(), Fail> {
    let alloc = rt.alloc();
    let fails = vec![in alloc; 2u64]?;
    let mut desk = MemDesk::new(alloc, one_file(alloc, b"part", b"0 1\n")?, fails);
    let loaded = desk.load(alloc, "part", 4)?;
    assert_eq!(rt; loaded.as_slice(), b"0 1\n".as_slice());
    for (name, limit, want) in [
        ("model", 4, LoadError::Failed),
        ("part", 4, LoadError::Failed),
        ("part", 3, LoadError::TooLong),
    ] {
        let refused = desk.load(alloc, name, limit).err();
        assert!(rt; refused == Some(want), "{name} within {limit}");
    }
    Ok(())
}

#[test]
fn a_desk_in_memory_saves(rt: HostRuntime) -> Result<(), Fail> {
    let alloc = rt.alloc();
    let fails = vec![in alloc; 2u64]?;
    let mut desk = MemDesk::new(alloc, one_file(alloc, b"part", b"0 1\n")?, fails);
    desk.save("cert", b"value 1")?;
    desk.save("part", b"2")?;
    assert!(rt; desk.save("cert", b"end") == Err(SaveError::Failed));
    for (name, text) in [("cert", b"".as_slice()), ("part", b"2".as_slice())] {
        let held = desk.held(name).ok_or("nothing is held")?;
        assert_eq!(rt; held, text, "under {name}");
    }
    assert!(rt; desk.held("model").is_none());
    Ok(())
}

#[test]
fn a_failed_put_leaves_a_prefix(rt: HostRuntime) -> Result<(), Fail> {
    let alloc = rt.alloc();
    let mut out = MemSink::new(alloc, 7, vec![in alloc; 1u64]?);
    assert!(rt; put_all(&mut out, b"status optimal") == Err(PutFailed));
    assert_eq!(rt; out.taken(), b"status ".as_slice());
    put_all(&mut out, b"infeasible")?;
    assert_eq!(rt; out.taken(), b"status infeasible".as_slice());
    Ok(())
}

#[test]
fn bytes_pass_through_a_file(rt: HostRuntime) -> Result<(), Fail> {
    let alloc = rt.alloc();
    let path = format!(in alloc; "/tmp/bz_io-{}", process::id(rt.process()))?;
    let mut desk = HostDesk::new(&rt);
    desk.save(path.as_str(), b"value 1 1\n")?;
    let loaded = desk.load(alloc, path.as_str(), 10)?;
    let refused = desk.load(alloc, path.as_str(), 9).err();
    fs::remove_file(&rt, path.as_str())?;
    let gone = desk.load(alloc, path.as_str(), 10).err();
    assert_eq!(rt; loaded.as_slice(), b"value 1 1\n".as_slice());
    assert!(rt; refused == Some(LoadError::TooLong));
    assert!(rt; gone == Some(LoadError::Failed));
    Ok(())
}

#[test]
fn a_file_of_the_limit_is_read_and_none_above(rt: HostRuntime) -> Result<(), Fail> {
    let alloc = rt.alloc();
    let path = format!(in alloc; "/tmp/bz_io-limit-{}", process::id(rt.process()))?;
    let mut desk = HostDesk::new(&rt);
    for size in [0, 1, 4095, 4096, 4097, 8192] {
        let text = "x".repeat(alloc, size)?;
        desk.save(path.as_str(), text.as_bytes())?;
        let whole = desk.load(alloc, path.as_str(), size);
        let within = size
            .checked_sub(1)
            .map(|limit| desk.load(alloc, path.as_str(), limit));
        fs::remove_file(&rt, path.as_str())?;
        assert_eq!(rt; whole?.as_slice(), text.as_bytes());
        if let Some(refused) = within {
            assert!(rt; refused.err() == Some(LoadError::TooLong));
        }
    }
    Ok(())
}

#[test]
fn a_save_that_can_not_be_made_or_written_fails(rt: HostRuntime) -> Result<(), Fail> {
    let mut desk = HostDesk::new(&rt);
    for path in ["/tmp/bz_io-none/file", "/tmp", "/dev/full"] {
        assert!(rt;
            desk.save(path, b"value 1 1\n") == Err(SaveError::Failed),
            "{path}"
        );
    }
    desk.save("/dev/full", b"")?;
    Ok(())
}

/// Takes two bytes at a time, and keeps the last eight as the digits of a number.
#[derive(Drop)]
struct Recorder {
    seen: Cell<u64>,
}

impl Print for Recorder {
    fn print<D: Display + Drop>(&self, _value: D) -> io::Result<()> {
        Ok(())
    }

    fn println<D: Display + Drop>(&self, _value: D) -> io::Result<()> {
        Ok(())
    }

    fn write_all(&self, _bytes: &[u8]) -> io::Result<()> {
        Ok(())
    }

    fn write_some(&self, bytes: &[u8]) -> io::Result<usize> {
        let count = bytes.len().min(2);
        for byte in &bytes[..count] {
            let seen = self.seen.get().wrapping_mul(256);
            self.seen.set(seen.wrapping_add(u64::from(*byte)));
        }
        Ok(count)
    }
}

#[test]
fn bytes_pass_through_standard_output(rt: HostRuntime) -> Result<(), Fail> {
    let recorder = Recorder { seen: Cell::new(0) };
    put_all(&mut HostSink::new(io::writer(&recorder)), b"gap 3/4")?;
    assert_eq!(rt; recorder.seen.get(), u64::from_be_bytes(*b"\0gap 3/4"));
    put_all(&mut HostSink::new(io::writer(&rt)), b"gap 3/4\n")?;
    Ok(())
}

/// Gives and takes one byte at a time. So many calls fail before that.
#[derive(Drop)]
struct Faulty {
    faults: u32,
    kind: ErrorKind,
    left: u32,
    taken: u32,
}

impl Faulty {
    /// A reader and writer of three bytes that fails once.
    fn new(kind: ErrorKind) -> Faulty {
        Faulty {
            faults: 1,
            kind,
            left: 3,
            taken: 0,
        }
    }

    /// Whether this call fails.
    fn fails(&mut self) -> bool {
        let fails = self.faults > 0;
        self.faults = self.faults.saturating_sub(1);
        fails
    }
}

impl Read for Faulty {
    fn read(&mut self, piece: &mut [u8]) -> io::Result<usize> {
        if self.fails() {
            return Err(io::Error::from(self.kind));
        }
        if piece.is_empty() || self.left == 0 {
            return Ok(0);
        }
        self.left -= 1;
        piece[0] = b'x';
        Ok(1)
    }
}

impl Write for Faulty {
    fn write(&mut self, bytes: &[u8]) -> io::Result<usize> {
        if self.fails() {
            return Err(io::Error::from(self.kind));
        }
        if bytes.is_empty() {
            return Ok(0);
        }
        self.taken = self.taken.saturating_add(1);
        Ok(1)
    }

    fn flush(&mut self) -> io::Result<()> {
        Ok(())
    }
}

#[test]
fn an_interrupted_read_is_made_again_and_no_other(rt: HostRuntime) -> Result<(), Fail> {
    let alloc = rt.alloc();
    let mut interrupted = Ok(Source::new(Faulty::new(ErrorKind::Interrupted)));
    let bytes = read_opened(alloc, &mut interrupted, 3)?;
    assert_eq!(rt; bytes.as_slice(), b"xxx".as_slice());
    let mut refused = Ok(Source::new(Faulty::new(ErrorKind::PermissionDenied)));
    for _ in 0..2 {
        let answer = read_opened(alloc, &mut refused, 3);
        assert!(rt; answer.err() == Some(LoadError::Failed));
    }
    let mut faulty = Faulty::new(ErrorKind::PermissionDenied);
    let failed = read_once(&mut faulty, &mut [0; 2]).err();
    let kind = failed.map(|error| error.kind());
    assert!(rt; kind == Some(ErrorKind::PermissionDenied));
    assert_eq!(rt; faulty.left, 3);
    Ok(())
}

#[test]
fn an_interrupted_write_is_made_again_and_no_other(rt: HostRuntime) -> Result<(), Fail> {
    let mut out = HostSink::new(Faulty::new(ErrorKind::Interrupted));
    put_all(&mut out, b"gap")?;
    let mut out = HostSink::new(Faulty::new(ErrorKind::PermissionDenied));
    assert!(rt; put_all(&mut out, b"gap") == Err(PutFailed));
    let mut faulty = Faulty::new(ErrorKind::Interrupted);
    let taken = write_once(&mut faulty, b"gap")?;
    assert!(rt; taken == 1 && faulty.taken == 1);
    let mut faulty = Faulty::new(ErrorKind::PermissionDenied);
    let failed = write_once(&mut faulty, b"gap").err();
    let kind = failed.map(|error| error.kind());
    assert!(rt; kind == Some(ErrorKind::PermissionDenied) && faulty.taken == 0);
    Ok(())
}
