//! Writers that take little at a time, are interrupted, and fail.

use script_text::{RunFault, Writer, run};
use std::alloc::Global;
use std::io::{self, ErrorKind, Write};
use std::test::Fail;

/// Takes one octet at a call, is interrupted before each, and fails or takes nothing once its limit
/// is used up.
#[derive(Drop)]
struct Narrow {
    taken: Vec<u8>,
    limit: usize,
    interrupted: bool,
    fails: Option<ErrorKind>,
}

impl Write for Narrow {
    fn write(&mut self, octets: &[u8]) -> io::Result<usize> {
        self.interrupted = !self.interrupted;
        if self.interrupted {
            return Err(io::Error::from(ErrorKind::Interrupted));
        }
        if self.taken.len() >= self.limit {
            return match self.fails {
                Some(kind) => Err(io::Error::from(kind)),
                None => Ok(0),
            };
        }
        match octets {
            [first, ..] => self.taken.push(*first)?,
            [] => {}
        }
        Ok(octets.len().min(1))
    }

    fn flush(&mut self) -> io::Result<()> {
        Ok(())
    }
}

const TEXT: &str = "ok 1\nok 2\n";

/// Whether two replies end so where the writer takes so many octets, all of which are used.
fn ends(alloc: Global, limit: usize, fails: Option<ErrorKind>, want: Result<(), RunFault>) -> bool {
    let mut reader = b"desk 0 add-room 1\ndesk 0 add-room 2\n".as_slice();
    let mut writer = Writer(Narrow {
        taken: Vec::new(alloc),
        limit,
        interrupted: false,
        fails,
    });
    let answer = run(alloc, &mut reader, &mut writer);
    answer == want && TEXT.as_bytes().get(..limit) == Some(writer.0.taken.as_slice())
}

/// A writer that is out of memory between two lines ends the run by that fault. Within a line it has failed.
#[test]
fn a_writer_may_take_a_part(rt: HostRuntime) -> Result<(), Fail> {
    let failed = Err(RunFault::Write);
    for limit in 0..10 {
        let starved = if limit % 5 == 0 {
            Err(RunFault::OutOfMemory)
        } else {
            failed
        };
        assert!(rt;
            ends(rt.alloc(), limit, None, failed)
                && ends(rt.alloc(), limit, Some(ErrorKind::ConnectionReset), failed)
                && ends(rt.alloc(), limit, Some(ErrorKind::OutOfMemory), starved),
            "{limit}"
        );
    }
    assert!(rt; ends(rt.alloc(), 10, None, Ok(())));
    Ok(())
}
