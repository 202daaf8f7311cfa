//! What is wrong with a line.

ghost use Rattle.std.specs.Prelude.{◌≡◌, Some};
ghost use Rattle.desk_text.specs.Text.{fault_text};

use std::alloc::{AllocError, AllocFailed};
use std::fmt;

/// What is wrong with a line. Its number and name are those that are printed.
#[derive(Clone, Copy, Debug, PartialEq, Eq)]
pub enum Fault {
    /// 1: more than 65,536 octets, or 8,388,608 where the line hands the lane an item.
    LineTooLong,
    /// 2: an octet outside 32 to 126.
    BadByte,
    /// 3: a word that is none of those that may stand there.
    UnknownWord,
    /// 4: the line ends where a word has to stand.
    MissingWord,
    /// 5: a word behind the last one.
    ExtraWord,
    /// 6: no decimal number, or one out of its range.
    BadNumber,
    /// 7: no address.
    BadAddress,
    /// 8: no hexadecimal octets, or a packet without its four parts.
    BadHex,
    /// 9: packets that make no frame.
    BadFrame,
}

/// Why a line could not be read.
// The place is where the writer has to change the line: where a missing word would stand, or the first word too many.
// Of a packet's word the number of its parts is judged first, since they can't be told apart before.
#[derive(Clone, Copy, PartialEq, Eq)]
pub enum ParseFault {
    /// The fault, and the place of its word from 1; place 0 is the whole line.
    Line { word: u32, fault: Fault },
    /// Memory ran out.
    OutOfMemory,
}

impl Fault {
    ghost use Rattle.desk_text.specs.declared.fault.ParseFault.TheVariants.{Line, OutOfMemory};

    /// The fault of the word at this place.
    pub fn at(self, place: u32) -> ParseFault
        ensures { result ≡ Line place self }
    {
        ParseFault::Line {
            word: place,
            fault: self,
        }
    }
}

impl fmt::Display for Fault {
    ghost output = { λ f. Some (fault_text f) };

    fn fmt<W: fmt::Write>(&self, f: &mut fmt::Formatter<W>) -> fmt::Result {
        match self {
            Fault::LineTooLong => write!(f, "1 LineTooLong"),
            Fault::BadByte => write!(f, "2 BadByte"),
            Fault::UnknownWord => write!(f, "3 UnknownWord"),
            Fault::MissingWord => write!(f, "4 MissingWord"),
            Fault::ExtraWord => write!(f, "5 ExtraWord"),
            Fault::BadNumber => write!(f, "6 BadNumber"),
            Fault::BadAddress => write!(f, "7 BadAddress"),
            Fault::BadHex => write!(f, "8 BadHex"),
            Fault::BadFrame => write!(f, "9 BadFrame"),
        }
    }
}

impl From<AllocError> for ParseFault {
    ghost use Rattle.desk_text.specs.declared.fault.ParseFault.TheVariants.{OutOfMemory};

    ghost from_gives = { λ _ e. e ≡ OutOfMemory };

    fn from(_e: AllocError) -> ParseFault {
        ParseFault::OutOfMemory
    }
}

impl<T: Drop> From<AllocFailed<T>> for ParseFault {
    ghost use Rattle.desk_text.specs.declared.fault.ParseFault.TheVariants.{OutOfMemory};

    ghost from_gives = { λ _ e. e ≡ OutOfMemory };

    fn from(_e: AllocFailed<T>) -> ParseFault {
        ParseFault::OutOfMemory
    }
}
