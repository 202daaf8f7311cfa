//! Requests and texts of cases.

use std::alloc::{AllocError, Global};

/// Appends a text with its escapes read.
fn push_spoken(octets: &mut Vec<u8>, text: &str) -> Result<(), AllocError> {
    let mut is_escaped = false;
    for octet in text.bytes() {
        if octet == b'\\' && !is_escaped {
            is_escaped = true;
        } else {
            let is_end = is_escaped && octet == b'n';
            octets.push(if is_end { b'\n' } else { octet })?;
            is_escaped = false;
        }
    }
    Ok(())
}

/// A text with its escapes read: `\n` is an LF.
pub fn spoken(alloc: Global, text: &str) -> Option<Vec<u8>> {
    let mut octets = Vec::new(alloc);
    push_spoken(&mut octets, text).ok()?;
    Some(octets)
}

/// A text so many times.
fn repeated(alloc: Global, text: &str, times: usize) -> Option<Vec<u8>> {
    let once = spoken(alloc, text)?;
    let mut octets = Vec::new(alloc);
    for _ in 0..times {
        octets.extend_from_slice(&once).ok()?;
    }
    Some(octets)
}

/// The octets of a text: `a*5000` is so many times an `a`, and a text that ends in no such number stands for itself.
pub fn octets_of(alloc: Global, text: &str) -> Option<Vec<u8>> {
    if let Some((once, times)) = text.rsplit_once("*") {
        if let Ok(times) = times.parse::<usize>() {
            return repeated(alloc, once, times);
        }
    }
    spoken(alloc, text)
}

/// Appends texts to octets.
fn push_texts(octets: &mut Vec<u8>, texts: &[&str]) -> Option<()> {
    for text in texts {
        octets.extend_from_slice(text.as_bytes()).ok()?;
    }
    Some(())
}

/// Appends a field, from `FIELD=VALUE`.
fn push_field(octets: &mut Vec<u8>, word: &str) -> Option<()> {
    let (name, value) = word.split_once("=")?;
    push_texts(octets, &[name, ": ", value, "\r\n"])
}

/// Appends the first line of a request and its fields, from `METHOD PATH FIELD=VALUE ..`.
fn push_head(octets: &mut Vec<u8>, head: &str) -> Option<()> {
    let mut words = head.split(' ');
    push_texts(
        octets,
        &[words.next()?, " ", words.next()?, " HTTP/1.1\r\n"],
    )?;
    for word in words {
        push_field(octets, word)?;
    }
    Some(())
}

/// Appends the length of a body, the end of the head, and the body.
fn push_body(alloc: Global, octets: &mut Vec<u8>, body: &[u8]) -> Option<()> {
    let length = body.len();
    let field = format!(in alloc; "content-length: {length}\r\n\r\n").ok()?;
    octets.extend_from_slice(field.as_bytes()).ok()?;
    octets.extend_from_slice(body).ok()
}

/// Appends a request: `METHOD PATH FIELD=VALUE ..`, and after ` | ` its body.
fn push_request(alloc: Global, octets: &mut Vec<u8>, text: &str) -> Option<()> {
    let (head, body) = text.split_once(" | ").unwrap_or((text, ""));
    push_head(octets, head)?;
    push_body(alloc, octets, &octets_of(alloc, body)?)
}

/// The octets of a request: `METHOD PATH FIELD=VALUE ..`, and after ` | ` its body.
pub fn request_of(alloc: Global, text: &str) -> Option<Vec<u8>> {
    let mut octets = Vec::new(alloc);
    push_request(alloc, &mut octets, text)?;
    Some(octets)
}
