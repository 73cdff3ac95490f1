//! Frames of streams, by what other programs and the public standards say of them.

use hf_split::{Framing, SplitFault, Splitter, wrap};
use std::alloc::{AllocError, Global};
use std::process::Abort;
use std::test::Fail;

/// The length of the ping `{"type":6}` of HubProtocol.md.
const MOST: usize = 10;

/// A stream, the frames of it with their places, and the fault that it ends in.
struct Case {
    framing: Framing,
    stream: &'static [u8],
    frames: &'static [(u64, &'static [u8])],
    fault: Option<SplitFault>,
}

/// With `Record` the frames are what Python's `stream.split(b"\x1e")[:-1]` gives, up to the first that is longer than
/// `MOST`. With `Length` the lengths are base-128 numbers as in Protocol Buffers' "Base 128 Varints".
const CASES: [Case; 18] = [
    Case {
        framing: Framing::Record,
        stream: b"",
        frames: &[],
        fault: None,
    },
    Case {
        framing: Framing::Record,
        stream: b"{}\x1e{\"type\":6}\x1e",
        frames: &[(0, b"{}"), (3, b"{\"type\":6}")],
        fault: None,
    },
    Case {
        framing: Framing::Record,
        stream: b"\x1e\x1e{\"type\":6",
        frames: &[(0, b""), (1, b"")],
        fault: None,
    },
    Case {
        framing: Framing::Record,
        stream: b"{\"type\":6}\x1e{\"type\":66}\x1e{}\x1e",
        frames: &[(0, b"{\"type\":6}")],
        fault: Some(SplitFault::TooLong { at: 11 }),
    },
    Case {
        framing: Framing::Record,
        stream: b"{}\x1e01234567890",
        frames: &[(0, b"{}")],
        fault: Some(SplitFault::TooLong { at: 3 }),
    },
    Case {
        framing: Framing::Record,
        stream: b"{}\x1e0123456789",
        frames: &[(0, b"{}")],
        fault: None,
    },
    Case {
        framing: Framing::Record,
        stream: b"a\x1ebc\x1edef\x1eghij\x1eklmno\x1epqrstu\x1evwxyz01\x1e2345",
        frames: &[
            (0, b"a"),
            (2, b"bc"),
            (5, b"def"),
            (9, b"ghij"),
            (14, b"klmno"),
            (20, b"pqrstu"),
            (27, b"vwxyz01"),
        ],
        fault: None,
    },
    Case {
        framing: Framing::Length,
        stream: b"",
        frames: &[],
        fault: None,
    },
    Case {
        framing: Framing::Length,
        stream: b"\x00\x02{}\x0a{\"type\":6}\x03{}",
        frames: &[(0, b""), (1, b"{}"), (4, b"{\"type\":6}")],
        fault: None,
    },
    // a separator is a byte as any other
    Case {
        framing: Framing::Length,
        stream: b"\x03\x1e\x80\xff\x01\x1e",
        frames: &[(0, b"\x1e\x80\xff"), (4, b"\x1e")],
        fault: None,
    },
    // lengths of 0, 1 and 2 in more bytes than they need
    Case {
        framing: Framing::Length,
        stream: b"\x80\x00\x81\x80\x80\x80\x00a\x82\x80\x00bc",
        frames: &[(0, b""), (2, b"a"), (8, b"bc")],
        fault: None,
    },
    // a length of 11 with nothing after it
    Case {
        framing: Framing::Length,
        stream: b"\x01a\x0b",
        frames: &[(0, b"a")],
        fault: Some(SplitFault::TooLong { at: 2 }),
    },
    Case {
        framing: Framing::Length,
        stream: b"\x01a\x8b\x80\x80\x80\x00",
        frames: &[(0, b"a")],
        fault: Some(SplitFault::TooLong { at: 2 }),
    },
    // 2^31-1 and 2^35-1
    Case {
        framing: Framing::Length,
        stream: b"\xff\xff\xff\xff\x07",
        frames: &[],
        fault: Some(SplitFault::TooLong { at: 0 }),
    },
    Case {
        framing: Framing::Length,
        stream: b"\x01a\xff\xff\xff\xff\x7f",
        frames: &[(0, b"a")],
        fault: Some(SplitFault::TooLong { at: 2 }),
    },
    Case {
        framing: Framing::Length,
        stream: b"\x01a\x80\x80\x80\x80\x80\x00",
        frames: &[(0, b"a")],
        fault: Some(SplitFault::BadLength { at: 2 }),
    },
    Case {
        framing: Framing::Length,
        stream: b"\x02ab\xff\xff\xff\xff",
        frames: &[(0, b"ab")],
        fault: None,
    },
    Case {
        framing: Framing::Length,
        stream: b"\x02ab\x03cd",
        frames: &[(0, b"ab")],
        fault: None,
    },
];

/// Lengths and the fewest bytes of them, from Protocol Buffers' "Base 128 Varints" and its rule for others.
const SHORTEST: [(usize, &[u8]); 11] = [
    (0, b"\x00"),
    (1, b"\x01"),
    (127, b"\x7f"),
    (128, b"\x80\x01"),
    (150, b"\x96\x01"),
    (300, b"\xac\x02"),
    (16383, b"\xff\x7f"),
    (16384, b"\x80\x80\x01"),
    (32768, b"\x80\x80\x02"),
    (2097151, b"\xff\xff\x7f"),
    (2097152, b"\x80\x80\x80\x01"),
];

/// Passes each whole frame and keeps it with its place, and answers the fault after them.
fn take_whole(
    alloc: Global,
    splitter: &mut Splitter,
    seen: &mut Vec<(u64, Vec<u8>)>,
) -> Result<Option<SplitFault>, AllocError> {
    for _ in 0..100u32 {
        match splitter.frame() {
            Ok(Some((place, frame))) => seen.push((place, frame.to_vec(alloc)?))?,
            Ok(None) => return Ok(None),
            Err(fault) => return Ok(Some(fault)),
        }
        splitter.pass();
    }
    Ok(None)
}

/// Feeds the whole piece, or as much as there is before a fault, and keeps each frame that it makes whole.
fn feed_whole(
    alloc: Global,
    splitter: &mut Splitter,
    piece: &[u8],
    seen: &mut Vec<(u64, Vec<u8>)>,
) -> Result<Option<SplitFault>, AllocError> {
    let mut left = piece;
    for _ in 0..100u32 {
        let count = splitter.feed(left);
        left = &left[count..];
        let fault = take_whole(alloc, splitter, seen)?;
        if fault.is_some() || left.is_empty() {
            return Ok(fault);
        }
    }
    Ok(None)
}

/// Checks that the frames seen, with their places, are those wanted.
fn are(rt: &impl Abort, seen: &[(u64, Vec<u8>)], wanted: &[(u64, &[u8])]) {
    assert_eq!(rt; seen.len(), wanted.len());
    for ((place, frame), (at, bytes)) in seen.iter().zip(wanted) {
        assert_eq!(rt; *place, *at);
        assert_eq!(rt; frame.as_slice(), *bytes);
    }
}

/// Checks the frames and the fault of the case, fed in these pieces.
fn check(rt: &impl Abort, alloc: Global, case: &Case, pieces: &[&[u8]]) -> Result<(), Fail> {
    let mut splitter = Splitter::start(alloc, case.framing, MOST)?;
    let mut seen = Vec::new(alloc);
    let mut fault = None;
    for piece in pieces {
        fault = feed_whole(alloc, &mut splitter, piece, &mut seen)?;
    }
    assert_eq!(rt; fault, case.fault, "of {:?}", pieces);
    are(rt, &seen, case.frames);
    Ok(())
}

#[test]
fn cuts_in_pieces_of_any_size(rt: HostRuntime) -> Result<(), Fail> {
    for case in &CASES {
        for size in 1..13usize {
            let mut pieces = Vec::new(rt.alloc());
            for piece in case.stream.chunks(size) {
                pieces.push(piece)?;
            }
            check(&rt, rt.alloc(), case, &pieces)?;
        }
    }
    Ok(())
}

#[test]
fn the_framing_changes_after_a_frame_and_at_a_new_stream(rt: HostRuntime) -> Result<(), Fail> {
    let alloc = rt.alloc();
    let mut splitter = Splitter::start(alloc, Framing::Record, MOST)?;
    let mut seen = Vec::new(alloc);
    feed_whole(alloc, &mut splitter, b"{}\x1e\x02hi\x81\x00a", &mut seen)?;
    assert_eq!(rt; (splitter.place(), splitter.held()), (3, 6));
    splitter.reframe(Framing::Length);
    take_whole(alloc, &mut splitter, &mut seen)?;
    splitter.reset(Framing::Record);
    feed_whole(alloc, &mut splitter, b"[]\x1e", &mut seen)?;
    are(&rt, &seen, &[(0, b"{}"), (3, b"hi"), (6, b"a"), (0, b"[]")]);
    Ok(())
}

#[test]
fn faults_have_words(rt: HostRuntime) -> Result<(), Fail> {
    let faults = [
        SplitFault::TooLong { at: 7 },
        SplitFault::BadLength { at: 0 },
    ];
    let words = format!(in rt.alloc(); "{} {}", faults[0], faults[1])?;
    assert_eq!(rt; words.as_str(), "TooLong BadLength");
    Ok(())
}

#[test]
fn wraps(rt: HostRuntime) -> Result<(), Fail> {
    let mut out = Vec::new(rt.alloc());
    wrap(Framing::Record, b"{}", &mut out)?;
    wrap(Framing::Record, b"{\"type\":6}", &mut out)?;
    assert_eq!(rt; out.as_slice(), b"{}\x1e{\"type\":6}\x1e".as_slice());
    wrap(Framing::Length, b"{}\x1e", &mut out)?;
    assert_eq!(rt;
        out.as_slice(),
        b"{}\x1e{\"type\":6}\x1e\x03{}\x1e".as_slice()
    );
    Ok(())
}

#[test]
fn wraps_after_the_shortest_length(rt: HostRuntime) -> Result<(), Fail> {
    for (length, prefix) in &SHORTEST {
        let body = vec![in rt.alloc(); b'a'; *length]?;
        let mut out = Vec::new(rt.alloc());
        wrap(Framing::Length, &body, &mut out)?;
        assert!(rt; out.starts_with(prefix), "of a length of {length}");
        assert_eq!(rt; out.len(), prefix.len() + length, "of a length of {length}");
        assert!(rt; out.ends_with(&body), "of a length of {length}");
    }
    Ok(())
}
