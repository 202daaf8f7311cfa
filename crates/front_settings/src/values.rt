//! The values of a table, as settings.

ghost use Rattle.std.specs.Prelude.{◌≡◌, ◌≢◌, codes, Err, None};
ghost use Rattle.std.specs.List.{list_all};
ghost use Rattle.std.specs.Option.{option_map};
ghost use Rattle.toml.specs.Data.{get_member};
ghost use Rattle.toml.specs.View.{view, table_view};
ghost use Rattle.desk_text.specs.Lines.{is_printable};
ghost use Rattle.front_settings.specs.SettingValues.{address_in, loopback_in, number_in};
ghost use Rattle.front_settings.specs.SettingValues.{is_cname, cname_in, is_word, trace_in};
ghost use Rattle.front_settings.specs.Settings.{key_text, needed, given, is_known, unknown_in};
ghost use Rattle.front_settings.specs.SettingsTold.{Gives};

use crate::fault::SettingsFault;
use crate::setup::SettingKey;
use desk_text::parse_address;
use rtp_codec::Address;
use toml::{Table, Value};

/// The fewest seats of a bridge that is traced: one of them is the trace's.
const LEAST_TRACED: u32 = 2;

/// The address that a text value spells.
fn address(value: &Value) -> Option<Address>
    ensures { result ≡ address_in (view value.now) }
{
    match value.as_str() {
        None => None,
        Some(text) => parse_address(text.as_bytes()),
    }
}

/// Such an address, if it is of this machine alone.
fn loopback(value: &Value) -> Option<Address>
    ensures { result ≡ loopback_in (view value.now) }
{
    match address(value) {
        Some(address) if address.octets()[0] == 127 => Some(address),
        _ => None,
    }
}

/// A number from `low` to `high`.
fn number(value: &Value, low: u32, high: u32) -> Option<u32>
    ensures { result ≡ number_in low high (view value.now) }
{
    match value.as_integer() {
        Some(n) if low as i64 <= n && n <= high as i64 => Some(n as u32),
        _ => None,
    }
}

/// Whether each octet is printed.
pub(crate) fn are_printable(text: &[u8]) -> bool
    ensures { result ≡ list_all is_printable text.now }
{
    text.iter().all(|octet| 32 <= *octet && *octet <= 126)
}

/// Whether a text can be a canonical name, all of it printed.
fn is_cname(text: &[u8]) -> bool
    ensures { result ≡ is_cname text.now }
{
    !text.is_empty() && text.len() <= 255 && are_printable(text)
}

/// The canonical name that a text value is.
fn cname(value: &Value) -> Option<&[u8]>
    ensures { option_map (λ x. x.now) result ≡ cname_in (view value.now) }
{
    match value.as_str() {
        Some(text) if is_cname(text.as_bytes()) => Some(text.as_bytes()),
        _ => None,
    }
}

fn value_at(table: &Table, key: SettingKey) -> Option<&Value>
    ensures { option_map (λ x. view x.now) result ≡ get_member (key_text key) (table_view table.now) }
{
    table.get(key.text())
}

/// The address of the UDP socket.
pub(crate) fn udp_of(table: &Table) -> Result<Address, SettingsFault>
    ensures memory { result ≢ Err SettingsFault.OutOfMemory }
    ensures answer { Gives (λ x. x) result
        (needed SettingKey.Udp address_in (get_member (codes "udp") (table_view table.now))) }
{
    let key = SettingKey::Udp;
    let Some(value) = value_at(table, key) else {
        return Err(SettingsFault::MissingKey { key });
    };
    address(value).ok_or(SettingsFault::BadValue { key })
}

/// The address of the operators' listener.
pub(crate) fn tcp_of(table: &Table) -> Result<Address, SettingsFault>
    ensures { Gives (λ x. x) result
        (needed SettingKey.Tcp loopback_in (get_member (codes "tcp") (table_view table.now))) }
{
    let key = SettingKey::Tcp;
    let Some(value) = value_at(table, key) else {
        return Err(SettingsFault::MissingKey { key });
    };
    loopback(value).ok_or(SettingsFault::BadValue { key })
}

/// The number at a key, from `low` to `high`, or `left_out` where there is none.
pub(crate) fn number_of(
    table: &Table,
    key: SettingKey,
    low: u32,
    high: u32,
    left_out: u32,
) -> Result<u32, SettingsFault>
    ensures { Gives (λ x. x) result
        (given key (number_in low high) left_out (get_member (key_text key) (table_view table.now))) }
{
    match value_at(table, key) {
        None => Ok(left_out),
        Some(value) => number(value, low, high).ok_or(SettingsFault::BadValue { key }),
    }
}

/// The canonical name, or `bridge`.
pub(crate) fn cname_of(table: &Table) -> Result<&[u8], SettingsFault>
    ensures { Gives (λ x. x.now) result
        (given SettingKey.Cname cname_in (codes "bridge") (get_member (codes "cname") (table_view table.now))) }
{
    match value_at(table, SettingKey::Cname) {
        None => Ok(b"bridge"),
        Some(value) => cname(value).ok_or(SettingsFault::BadValue {
            key: SettingKey::Cname,
        }),
    }
}

/// Whether a text has no space.
fn is_word(text: &[u8]) -> bool
    ensures { result ≡ is_word text.now }
{
    text.iter().all(|octet| *octet != 32)
}

/// Where the trace of a bridge with so many seats and this name goes to, if a value says that it has one.
fn trace(value: &Value, operators: u32, cname: &[u8]) -> Option<Option<Address>>
    ensures { result ≡ trace_in operators cname.now (view value.now) }
{
    if operators >= LEAST_TRACED && is_word(cname) {
        loopback(value).map(Some)
    } else {
        None
    }
}

/// Where the trace of a bridge with so many seats and this name goes to, if it has one.
pub(crate) fn trace_of(
    table: &Table,
    operators: u32,
    cname: &[u8],
) -> Result<Option<Address>, SettingsFault>
    ensures { Gives (λ x. x) result
        (given SettingKey.Trace (trace_in operators cname.now) None
        (get_member (codes "trace") (table_view table.now))) }
{
    let key = SettingKey::Trace;
    match value_at(table, key) {
        None => Ok(None),
        Some(value) => trace(value, operators, cname).ok_or(SettingsFault::BadValue { key }),
    }
}

/// Whether a text is how one of the keys is written.
#[tactic(auto, unfolding(crate::specs::Settings::is_known))]
fn is_known(text: &[u8]) -> bool
    ensures { result ≡ is_known text.now }
{
    text == b"udp".as_slice()
        || text == b"tcp".as_slice()
        || text == b"lanes".as_slice()
        || text == b"operators".as_slice()
        || text == b"report_ms".as_slice()
        || text == b"bridge_ssrc".as_slice()
        || text == b"cname".as_slice()
        || text == b"trace".as_slice()
        || text == b"receive_buffer".as_slice()
        || text == b"send_buffer".as_slice()
}

/// The least key that is not known.
pub(crate) fn unknown_in(table: &Table) -> Option<&str>
    ensures { option_map (λ x. x.now) result ≡ unknown_in (table_view table.now) }
{
    // The keys of a table ascend, so that the first is the least.
    for key in table.keys() {
        if !is_known(key.as_bytes()) {
            return Some(key.as_str());
        }
    }
    None
}
