//! The words of a line.

use std::alloc::{AllocError, Global};

/// A number and what stands behind it, if anything.
pub fn numbered(text: &str) -> Option<(usize, &str)> {
    let (number, rest) = text.split_once(" ").unwrap_or((text, ""));
    Some((number.parse().ok()?, rest))
}

/// A text with its escapes read: `\r` is a CR, `\n` an LF, and without a `\` at its end an LF stands there.
pub fn spoken(alloc: Global, text: &str) -> Result<Vec<u8>, AllocError> {
    let mut octets = Vec::new(alloc);
    let mut is_escaped = false;
    for octet in text.bytes() {
        if is_escaped {
            octets.push(match octet {
                b'r' => b'\r',
                b'n' => b'\n',
                other => other,
            })?;
            is_escaped = false;
        } else if octet == b'\\' {
            is_escaped = true;
        } else {
            octets.push(octet)?;
        }
    }
    if !is_escaped {
        octets.push(b'\n')?;
    }
    Ok(octets)
}

/// The digits of a datagram: words behind one another, of which `WORD*TIMES` stands there so many times.
pub fn digits(alloc: Global, text: &str) -> Option<String> {
    let mut whole = String::new(alloc);
    for word in text.split(' ') {
        let (word, times) = word.split_once("*").unwrap_or((word, "1"));
        let times: usize = times.parse().ok()?;
        for _ in 0..times {
            whole.push_str(word).ok()?;
        }
    }
    Some(whole)
}

/// Whether a digit is what a character stands for: a dot for any digit, a `~` for one from 1 to 4.
fn is_like(is: u8, like: u8) -> bool {
    match like {
        b'.' => true,
        b'~' => matches!(is, b'1'..=b'4'),
        like => is == like,
    }
}

/// Whether octets have these digits, where a dot stands for any digit, and a `~` for one from 1 to 4.
pub fn are_like(alloc: Global, octets: &[u8], wanted: &str) -> Option<bool> {
    let had = hex::encode(alloc, octets).ok()?;
    let mut pairs = had.bytes().zip(wanted.bytes());
    Some(had.len() == wanted.len() && pairs.all(|(is, like)| is_like(is, like)))
}

/// Whether a word is a number or an address.
fn is_number(word: &[u8]) -> bool {
    !word.is_empty()
        && word
            .iter()
            .all(|octet| matches!(*octet, b'0'..=b'9' | b'.' | b':'))
}

/// Whether a word is what another one stands for: `#` for any number or address, `#-` for one or a `-`.
fn is_word(is: &[u8], like: &str) -> bool {
    match like {
        "#" => is_number(is),
        "#-" => is_number(is) || is == b"-".as_slice(),
        like => is == like.as_bytes(),
    }
}

/// Whether a line has these words, where `#` stands for any number or address, and `#-` for one or a `-`.
pub fn is_line(line: &[u8], wanted: &str) -> bool {
    let mut words = line.split(|octet| *octet == b' ');
    for like in wanted.split(' ') {
        let Some(is) = words.next() else {
            return false;
        };
        if !is_word(is, like) {
            return false;
        }
    }
    words.next().is_none()
}
