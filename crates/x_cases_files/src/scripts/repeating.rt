//! Lines that stand for several: `%1..64 desk 0 add-room {}` is a line for each number.

use std::alloc::AllocError;

/// A line that stands for several, one for each number from the first to the last.
#[derive(Clone, Copy)]
pub struct Repeated<'a> {
    /// The first number.
    pub first: u64,
    /// The last number.
    pub last: u64,
    text: &'a str,
}

impl<'a> Repeated<'a> {
    /// The lines that `FIRST..LAST TEXT` stands for.
    pub fn read(line: &'a str) -> Option<Self> {
        let (first, rest) = line.split_once("..")?;
        let (last, text) = rest.split_once(" ")?;
        Some(Self {
            first: first.parse().ok()?,
            last: last.parse().ok()?,
            text,
        })
    }

    /// Appends the line of this number.
    pub fn append_line(&self, line: &mut String, number: u64) -> Result<(), AllocError> {
        let mut parts = self.text.split('{');
        if let Some(plain) = parts.next() {
            line.push_str(plain)?;
        }
        for part in parts {
            let (steps, plain) = part.split_once("}").unwrap_or((part, ""));
            append_counted(line, steps, number)?;
            line.push_str(plain)?;
        }
        Ok(())
    }
}

/// The number that a step makes of another.
fn stepped(number: u64, step: u8, operand: u64) -> u64 {
    match step {
        b'+' => number.wrapping_add(operand),
        b'-' => number.wrapping_sub(operand),
        b'*' => number.wrapping_mul(operand),
        b'/' => number.checked_div(operand).unwrap_or(0),
        b'%' => number.checked_rem(operand).unwrap_or(0),
        _ => number,
    }
}

/// Appends what the steps make of a number, in hexadecimal where the last one is `x` with the
/// number of digits.
fn append_counted(line: &mut String, steps: &str, number: u64) -> Result<(), AllocError> {
    let mut number = number;
    let mut step = b' ';
    let mut operand: u64 = 0;
    for octet in steps.bytes() {
        if octet.is_ascii_digit() {
            operand = operand.wrapping_mul(10).wrapping_add(u64::from(octet & 15));
        } else {
            number = stepped(number, step, operand);
            step = octet;
            operand = 0;
        }
    }
    match (step, operand) {
        (b'x', 2) => write!(line, "{number:02x}"),
        (b'x', 4) => write!(line, "{number:04x}"),
        (b'x', 8) => write!(line, "{number:08x}"),
        _ => write!(line, "{}", stepped(number, step, operand)),
    }
}
