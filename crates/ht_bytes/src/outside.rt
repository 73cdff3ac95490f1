//! Sources and sinks that fail at will, and are tried again.

use hw_io::{Failed, MemorySink, MemorySource, Sink, Source, StdSink, StdSource};
use std::alloc::{AllocError, Global};
use std::io;
use std::io::{Read, Write};
use std::test::Fail;

/// A reader that gives one byte a call, and errs once, after `before` calls.
#[derive(Drop)]
struct OneByOne {
    bytes: &'static [u8],
    before: Option<usize>,
}

impl Read for OneByOne {
    fn read(&mut self, buf: &mut [u8]) -> io::Result<usize> {
        if self.before == Some(0) {
            self.before = None;
            return Err(io::ErrorKind::Other.into());
        }
        self.before = self.before.map(|calls| calls.saturating_sub(1));
        if self.bytes.is_empty() || buf.is_empty() {
            return Ok(0);
        }
        buf[0] = self.bytes[0];
        self.bytes = &self.bytes[1..];
        Ok(1)
    }
}

/// A writer that takes at most `most` bytes a call, and errs at each call after the first `calls`.
#[derive(Drop)]
struct Narrow {
    taken: Vec<u8>,
    most: usize,
    calls: usize,
}

impl Write for Narrow {
    fn write(&mut self, buf: &[u8]) -> io::Result<usize> {
        if self.calls == 0 {
            return Err(io::ErrorKind::Other.into());
        }
        self.calls -= 1;
        let count = self.most.min(buf.len());
        self.taken.extend_from_slice(&buf[..count])?;
        Ok(count)
    }

    fn flush(&mut self) -> io::Result<()> {
        Ok(())
    }
}

/// What this many takes of at most three bytes answer: the bytes of each, or `!`, each before a `|`.
fn takes<S: Source>(alloc: Global, source: &mut S, turns: usize) -> Result<Vec<u8>, AllocError> {
    let mut answers = Vec::new(alloc);
    for _ in 0..turns {
        let mut buf = [b'?'; 3];
        match source.take(&mut buf) {
            Ok(count) => answers.extend_from_slice(&buf[..count])?,
            Err(Failed) => answers.push(b'!')?,
        }
        answers.push(b'|')?;
    }
    Ok(answers)
}

/// What the puts of these pieces answer: `+` for each that is taken, and `!` for each that fails.
fn puts<K: Sink>(alloc: Global, sink: &mut K, pieces: &[&[u8]]) -> Result<Vec<u8>, AllocError> {
    let mut answers = Vec::new(alloc);
    for piece in pieces {
        match sink.put(piece) {
            Ok(()) => answers.push(b'+')?,
            Err(Failed) => answers.push(b'!')?,
        }
    }
    Ok(answers)
}

#[test]
fn memory_sources_fail_at_their_calls(rt: HostRuntime) -> Result<(), Fail> {
    let alloc = rt.alloc();
    let cases: [(&[u64], &[u8]); 3] = [
        (&[], b"abc|def|g||||"),
        (&[3, 1], b"abc|!|def|!|g||"),
        (&[0, 5, 9], b"!|abc|def|g||!|"),
    ];
    for (failing, want) in cases {
        let bytes = b"abcdefg".to_vec(alloc)?;
        let mut source = MemorySource::start(bytes, failing.to_vec(alloc)?)?;
        assert_eq!(rt; takes(alloc, &mut source, 6)?.as_slice(), want);
    }
    Ok(())
}

#[test]
fn memory_sinks_fail_at_their_calls_and_past_their_room(rt: HostRuntime) -> Result<(), Fail> {
    let alloc = rt.alloc();
    let failing = [1].to_vec(alloc)?;
    let mut sink = MemorySink::start(alloc, 5, failing)?;
    let pieces: [&[u8]; 8] = [b"ab", b"xx", b"cd", b"xx", b"e", b"x", b"", b"x"];
    assert_eq!(rt;
        puts(alloc, &mut sink, &pieces)?.as_slice(),
        b"+!+!+!+!".as_slice()
    );
    assert_eq!(rt; sink.bytes(), b"abcde".as_slice());
    Ok(())
}

#[test]
fn readers_are_sources(rt: HostRuntime) -> Result<(), Fail> {
    let alloc = rt.alloc();
    let slice: &[u8] = b"abcd";
    let mut whole = StdSource::new(slice);
    assert_eq!(rt;
        takes(alloc, &mut whole, 3)?.as_slice(),
        b"abc|d||".as_slice()
    );
    let mut broken = StdSource::new(OneByOne {
        bytes: b"abc",
        before: Some(2),
    });
    assert_eq!(rt;
        takes(alloc, &mut broken, 5)?.as_slice(),
        b"a|b|!|c||".as_slice()
    );
    Ok(())
}

#[test]
fn writers_are_sinks(rt: HostRuntime) -> Result<(), Fail> {
    let alloc = rt.alloc();
    let pieces: [&[u8]; 3] = [b"abc", b"", b"de"];
    let mut all = Vec::new(alloc);
    let mut sink = StdSink::new(&mut all);
    assert_eq!(rt;
        puts(alloc, &mut sink, &pieces)?.as_slice(),
        b"+++".as_slice()
    );
    assert_eq!(rt; all.as_slice(), b"abcde".as_slice());
    let cases: [(usize, usize, &[u8], &[u8]); 4] = [
        (1, 9, b"+++", b"abcde"),
        (0, 9, b"!+!", b""),
        (2, 1, b"!+!", b"ab"),
        (2, 2, b"++!", b"abc"),
    ];
    for (most, calls, want, want_taken) in cases {
        let mut writer = Narrow {
            taken: Vec::new(alloc),
            most,
            calls,
        };
        let mut sink = StdSink::new(&mut writer);
        assert_eq!(rt;
            puts(alloc, &mut sink, &pieces)?.as_slice(),
            want,
            "{most} a call, {calls}"
        );
        assert_eq!(rt;
            writer.taken.as_slice(),
            want_taken,
            "{most} a call, {calls}"
        );
    }
    Ok(())
}

#[test]
fn a_fault_has_words(rt: HostRuntime) -> Result<(), Fail> {
    let words = format!(in rt.alloc(); "{Failed}")?;
    assert_eq!(rt; words.as_str(), "the outside failed");
    Ok(())
}
