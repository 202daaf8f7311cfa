//! The lines of a stream that comes in pieces.

ghost use Rattle.std.specs.Prelude.{◌≡◌, ◌++◌, ℕ, List, [], IfOk, OnErr};
ghost use Rattle.std.specs.Str.Lines.{strip_carriage_return};
ghost use Rattle.operator_lines.specs.Cut.{Cut, with_octet};
ghost use Rattle.operator_lines.specs.Fed.{Kept, StandsFor, Brings, texts};
ghost use Rattle.operator_lines.specs.inner.Holds.{Holds, in_place, unless};

use std::alloc::{AllocError, Allocator, Global};
use std::marker::Model;

/// How many octets a line has at most, a CR at its end counted and its LF not.
const LINE_LIMIT: usize = 4_096;

/// What a piece of the stream brought.
#[derive(Drop)]
pub struct Fed<A: Allocator + Copy = Global> {
    /// The lines that it ended, without their LF and one CR before it.
    pub lines: Vec<Vec<u8, A>, A>,
    /// Whether a line was too long, in this piece or an earlier one.
    pub too_long: bool,
}

/// The lines of a stream that comes in pieces, however it was cut.
/// Contracts see what is kept between two pieces.
#[derive(Drop)]
pub struct Lines<A: Allocator + Copy = Global> {
    pending: Vec<u8, A>,
    too_long: bool,
}

impl<A: Allocator + Copy> Model for Lines<A> {
    ghost Value = { Kept };

    ghost view = { λ lines. record { pending = lines.pending.items; too_long = lines.too_long } };
}

/// A line without the CR at its end.
fn without_cr(line: &[u8]) -> &[u8]
    ensures { result.now ≡ strip_carriage_return line.now }
{
    match line {
        [front @ .., b'\r'] => front,
        _ => line,
    }
}

/// The line of these octets and those, one after the other, without the CR at its end.
fn line_of<A: Allocator + Copy>(
    alloc: A,
    front: &[u8],
    back: &[u8],
) -> Result<Vec<u8, A>, AllocError>
    ensures { IfOk result (λ line. line.items ≡ strip_carriage_return (front.now ++ back.now)) }
{
    if back.is_empty() {
        return Vec::from_slice(alloc, without_cr(front));
    }
    let mut line = Vec::from_slice(alloc, front)?;
    line.extend_from_slice(without_cr(back))?;
    Ok(line)
}

impl<A: Allocator + Copy> Lines<A> {
    /// A stream from which nothing has come.
    pub fn new(alloc: A) -> Self
        ensures { StandsFor result [] }
    {
        Self {
            pending: Vec::new(alloc),
            too_long: false,
        }
    }

    /// What a piece has brought before its first octet.
    fn empty(&self, alloc: A) -> Self
        ensures { result ≡ record { pending = []; too_long = self.now.too_long } }
    {
        Self {
            pending: Vec::new(alloc),
            too_long: self.too_long,
        }
    }

    /// What is carried over into the line that comes next.
    fn carried(&self, ended: bool) -> &[u8]
        ensures { result.now ≡ unless ended self.now.pending }
    {
        if ended { &[] } else { &self.pending }
    }

    /// Keeps what a piece without an LF brought. An `Err` changes nothing.
    fn lengthen(&mut self, more: &Self) -> Result<(), AllocError>
        ensures ok { IfOk result (λ u. self.new ≡ in_place self.old.pending more.now) }
        ensures err { OnErr result (self.new ≡ self.old) }
    {
        self.pending.extend_from_slice(&more.pending)?;
        self.too_long = more.too_long;
        Ok(())
    }

    /// Takes the next octet of a line that begins with `carried`, and returns whether it ended that line. If so, the
    /// line is added.
    fn take(
        &mut self,
        alloc: A,
        carried: &[u8],
        octet: u8,
        lines: &mut Vec<Vec<u8, A>, A>,
    ) -> Result<bool, AllocError>
        ensures { IfOk result (λ ended. (before : List (List ℕ)) (c : Cut)
            → Holds before c (in_place carried.now self.old) (texts lines.old.items)
            → Holds before (with_octet c octet) (in_place (unless ended carried.now) self.new)
            (texts lines.new.items)) }
    {
        if self.too_long {
            return Ok(false);
        }
        if octet == b'\n' {
            let line = line_of(alloc, carried, &self.pending)?;
            lines.push(line)?;
            self.pending.clear();
            return Ok(true);
        }
        if carried.len() + self.pending.len() >= LINE_LIMIT {
            self.too_long = true;
            return Ok(false);
        }
        self.pending.push(octet)?;
        Ok(false)
    }

    /// Takes the next piece of the stream. An `Err` changes nothing.
    pub fn feed(&mut self, alloc: A, octets: &[u8]) -> Result<Fed<A>, AllocError>
        ensures fed { IfOk result (λ fed. (before : List ℕ) → StandsFor self.old before
            → Brings before octets.now (texts fed.lines.items) fed.too_long) }
        ensures kept { IfOk result (λ fed. (before : List ℕ) → StandsFor self.old before
            → StandsFor self.new (before ++ octets.now)) }
        ensures err { OnErr result (self.new ≡ self.old) }
    {
        // What this piece brings is kept apart, so that out of memory changes nothing.
        let mut next = self.empty(alloc);
        let mut lines = Vec::new(alloc);
        let mut ended = false;
        for octet in octets {
            let carried = self.carried(ended);
            if next.take(alloc, carried, *octet, &mut lines)? {
                ended = true;
            }
        }
        let too_long = next.too_long;
        if ended {
            *self = next;
        } else {
            self.lengthen(&next)?;
        }
        Ok(Fed { lines, too_long })
    }
}
