//! What a settings file has where its fault is.

use crate::fault::SettingsFault;
use crate::setup::SettingKey;
use crate::values::are_printable;
use std::alloc::Global;
use std::fmt;
use toml::Table;

/// How many characters of a line are told at most.
const MOST_TOLD: usize = 120;

/// The line, from 1 on, in which this octet of a text stands.
fn line_at(text: &str, octet: usize) -> usize {
    let before = text.as_bytes().iter().take(octet);
    let ends = before.filter(|octet| **octet == b'\n').count();
    ends.saturating_add(1)
}

/// Why a text is no TOML, and in which line.
fn unread(alloc: Global, text: &str) -> Option<String> {
    let Err(error) = toml::table_from_str(alloc, text) else {
        return None;
    };
    let line = line_at(text, error.span()?.start);
    let why = error.message();
    format!(in alloc; "line {line}: {why}").ok()
}

/// A key and its value, as they stand in a table.
fn entry<K: fmt::Display>(alloc: Global, table: &Table, key: &K, text: &str) -> Option<String> {
    let value = table.get(text)?;
    format!(in alloc; "{key} = {value}").ok()
}

/// The first characters of a line.
fn shortened(alloc: Global, line: &str) -> Option<String> {
    let mut whole = String::new(alloc);
    for one in line.chars().take(MOST_TOLD) {
        whole.push(one).ok()?;
    }
    Some(whole)
}

/// The values of a key that are good.
fn good_values(key: SettingKey) -> &'static str {
    match key {
        SettingKey::Udp => "an address such as 10.0.0.5:5004",
        SettingKey::Tcp => "an address in 127.0.0.0/8, such as 127.0.0.1:7000",
        SettingKey::Lanes | SettingKey::Operators => "a number from 1 to 16",
        SettingKey::ReportMs => "a number from 1000 to 5000",
        SettingKey::BridgeSsrc => "a number from 0 to 4294967295",
        SettingKey::Cname => "a text of 1 to 255 octets from a space to ~",
        SettingKey::Trace => {
            "an address in 127.0.0.0/8, where operators is 2 or more and cname has no space"
        }
        SettingKey::ReceiveBuffer | SettingKey::SendBuffer => "a number from 4096 to 1000000000",
    }
}

/// The keys that there are.
const KEYS: &str =
    "udp, tcp, lanes, operators, report_ms, bridge_ssrc, cname, trace, receive_buffer, send_buffer";

/// What would be good in place of a fault, if that can be said.
fn good_part(fault: &SettingsFault) -> Option<&'static str> {
    match fault {
        SettingsFault::MissingKey { key } | SettingsFault::BadValue { key } => {
            Some(good_values(*key))
        }
        SettingsFault::UnknownKey { .. } => Some(KEYS),
        SettingsFault::BadToml | SettingsFault::OutOfMemory => None,
    }
}

/// What a settings file has where its fault is, of at most 120 characters: a faulty value behind its key, as in
/// `lanes = 17`; that a key is missing; or what is no TOML, and in which line. `None`: memory ran out, or an unknown
/// key can't be printed.
fn faulty_text(alloc: Global, text: &str, fault: &SettingsFault) -> Option<String> {
    let line = match fault {
        SettingsFault::BadToml => unread(alloc, text)?,
        SettingsFault::MissingKey { key } => format!(in alloc; "{key} is missing").ok()?,
        SettingsFault::BadValue { key } => {
            let table = toml::table_from_str(alloc, text).ok()?;
            entry(alloc, &table, key, key.text())?
        }
        SettingsFault::UnknownKey { key } => {
            if !are_printable(key.as_bytes()) {
                return None;
            }
            let table = toml::table_from_str(alloc, text).ok()?;
            entry(alloc, &table, key, key.as_str())?
        }
        SettingsFault::OutOfMemory => return None,
    };
    shortened(alloc, line.as_str())
}

/// What a settings file has where its fault is, in one line, and what would be good: `lanes = 17 (a number from 1 to
/// 16)`. `None`: memory ran out, or an unknown key can't be printed.
pub fn faulty_part(alloc: Global, text: &str, fault: &SettingsFault) -> Option<String> {
    let part = faulty_text(alloc, text, fault)?;
    match good_part(fault) {
        None => Some(part),
        Some(good) => format!(in alloc; "{part} ({good})").ok(),
    }
}
