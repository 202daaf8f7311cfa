//! Readers that give little at a time, are interrupted, and fail.

use script_text::{Reader, RunFault, run};
use std::io::{self, ErrorKind, Read};
use std::test::Fail;

/// Gives one octet at a call, is interrupted before each, and fails at the end.
#[derive(Drop)]
struct Slow<'a> {
    rest: &'a [u8],
    interrupted: bool,
    fails: Option<ErrorKind>,
}

impl<'a> Read for Slow<'a> {
    fn read(&mut self, chunk: &mut [u8]) -> io::Result<usize> {
        self.interrupted = !self.interrupted;
        if self.interrupted {
            return Err(io::Error::from(ErrorKind::Interrupted));
        }
        match (self.rest, self.fails) {
            ([], Some(kind)) => Err(io::Error::from(kind)),
            ([first, rest @ ..], _) if !chunk.is_empty() => {
                chunk[0] = *first;
                self.rest = rest;
                Ok(1)
            }
            _ => Ok(0),
        }
    }
}

/// An end of the input answers the line that has not ended, and a failure doesn't.
#[test]
fn octets_may_come_one_by_one(rt: HostRuntime) -> Result<(), Fail> {
    let cases = [
        (None, Ok(()), "ok 1\nok 2\n"),
        (
            Some(ErrorKind::ConnectionReset),
            Err(RunFault::Read),
            "ok 1\n",
        ),
        (
            Some(ErrorKind::OutOfMemory),
            Err(RunFault::OutOfMemory),
            "ok 1\n",
        ),
    ];
    for (fails, want, text) in cases {
        let mut reader = Reader(Slow {
            rest: b"desk 0 add-room 1\r\ndesk 0 add-room 2",
            interrupted: false,
            fails,
        });
        let mut out = Vec::new(rt.alloc());
        let answer = run(rt.alloc(), &mut reader, &mut out);
        assert!(rt; answer == want && out.as_slice() == text.as_bytes());
    }
    Ok(())
}

/// What is told of the ends that no script brings about.
#[test]
fn other_ends_are_told(rt: HostRuntime) -> Result<(), Fail> {
    let cases = [
        (RunFault::OutOfMemory, "out of memory"),
        (RunFault::Read, "input or output failed"),
        (RunFault::Write, "input or output failed"),
    ];
    for (fault, want) in cases {
        let text = format!(in rt.alloc(); "{fault}")?;
        assert!(rt; text.as_str() == want);
    }
    Ok(())
}
