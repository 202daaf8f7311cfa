//! The settings that a text gives.

ghost use Rattle.std.specs.Prelude.{◌≡◌, ◌≢◌, Err};
ghost use Rattle.toml.specs.Data.{no_members, get_member};
ghost use Rattle.toml.specs.Errors.{IsBlank};
ghost use Rattle.toml.specs.Parse.{parse_document};
ghost use Rattle.toml.specs.View.{table_view};
ghost use Rattle.front_settings.specs.Settings.{key_text, unknown_in, none_unknown, buffer_at, settings_of, read_of};
ghost use Rattle.front_settings.specs.SettingsTold.{Gives};

use crate::fault::SettingsFault;
use crate::setup::{FrontSettings, SettingKey};
use crate::values::{cname_of, number_of, tcp_of, trace_of, udp_of, unknown_in};
use bridge_core::Settings;
use bytes::Bytes;
use std::alloc::Global;
use toml::Table;

/// How many lanes there are at most.
const MOST_LANES: u32 = 16;
/// How many operators there are seats for at most.
const MOST_OPERATORS: u32 = 16;
/// The fewest milliseconds between two reports.
const LEAST_REPORT_MS: u32 = 1_000;
/// The most milliseconds between two reports, and how many they are where none are given.
const MOST_REPORT_MS: u32 = 5_000;
/// The fewest octets of a buffer.
const LEAST_BUFFER: u32 = 4_096;
/// The most octets of a buffer.
const MOST_BUFFER: u32 = 1_000_000_000;
/// How many octets a buffer is asked to have where none are given.
const USUAL_BUFFER: u32 = 4_194_304;

/// Checks that each key is known.
// It comes after all known keys, and names the least unknown one: a table has no order that its writer sees.
fn none_unknown(alloc: Global, table: &Table) -> Result<(), SettingsFault>
    ensures { Gives (λ u. u) result (none_unknown (unknown_in (table_view table.now))) }
{
    match unknown_in(table) {
        None => Ok(()),
        Some(text) => {
            let key = String::from_str(alloc, text)?;
            Err(SettingsFault::UnknownKey { key })
        }
    }
}

/// How many octets the buffer of this key is asked to have.
fn buffer_of(table: &Table, key: SettingKey) -> Result<u32, SettingsFault>
    ensures { Gives (λ x. x) result (buffer_at key (get_member (key_text key) (table_view table.now))) }
{
    number_of(table, key, LEAST_BUFFER, MOST_BUFFER, USUAL_BUFFER)
}

/// The settings of a table. What takes memory comes last.
#[tactic(auto, unfolding(crate::specs::Settings::settings_of))]
fn from_table(alloc: Global, table: &Table) -> Result<FrontSettings, SettingsFault>
    ensures answer { Gives (λ s. s) result (settings_of (table_view table.now)) }
    ensures memory { result ≡ Err SettingsFault.OutOfMemory → table_view table.now ≢ no_members }
{
    let udp = udp_of(table)?;
    let tcp = tcp_of(table)?;
    let lanes = number_of(table, SettingKey::Lanes, 1, MOST_LANES, 1)?;
    let operators = number_of(table, SettingKey::Operators, 1, MOST_OPERATORS, 1)?;
    let report_ms = number_of(
        table,
        SettingKey::ReportMs,
        LEAST_REPORT_MS,
        MOST_REPORT_MS,
        MOST_REPORT_MS,
    )?;
    let bridge_ssrc = number_of(table, SettingKey::BridgeSsrc, 0, u32::MAX, 1)?;
    let cname = cname_of(table)?;
    let trace = trace_of(table, operators, cname)?;
    let receive_buffer = buffer_of(table, SettingKey::ReceiveBuffer)?;
    let send_buffer = buffer_of(table, SettingKey::SendBuffer)?;
    none_unknown(alloc, table)?;
    let cname = Bytes::copy_from_slice(alloc, cname)?;
    Ok(FrontSettings {
        udp,
        tcp,
        lanes,
        operators,
        report_ms,
        bridge: Settings { bridge_ssrc, cname },
        trace,
        receive_buffer,
        send_buffer,
    })
}

/// The settings that a TOML text gives, by these keys:
///
/// | Key | Value | If it is left out |
/// |---|---|---|
/// | `udp` | a text, an address as `10.0.0.1:5004`: decimal, without leading zeros | a fault |
/// | `tcp` | such a text, in 127.0.0.0/8 | a fault |
/// | `lanes` | a number from 1 to 16 | 1 |
/// | `operators` | a number from 1 to 16 | 1 |
/// | `report_ms` | a number from 1,000 to 5,000 | 5,000 |
/// | `bridge_ssrc` | a number from 0 to 2^32 - 1 | 1 |
/// | `cname` | a text of 1 to 255 octets, each from 32 to 126 | `bridge` |
/// | `trace` | a text as of `tcp`; only where `operators` is 2 or more, and `cname` has no space | no trace |
/// | `receive_buffer`, then `send_buffer` | a number from 4,096 to 1,000,000,000 | 4,194,304 |
///
/// They are checked in this order, and then any other key is refused. Port 0 is good: the system chooses one. If memory
/// runs out before the text is read, nothing is checked.
pub fn settings(alloc: Global, text: &str) -> Result<FrontSettings, SettingsFault>
    ensures answer { Gives (λ s. s) result (read_of (parse_document text.now)) }
    ensures memory { result ≡ Err SettingsFault.OutOfMemory → ¬ IsBlank text.now }
{
    match toml::table_from_str(alloc, text) {
        Ok(table) => from_table(alloc, &table),
        Err(error) if error.is_memory() => Err(SettingsFault::OutOfMemory),
        Err(_) => Err(SettingsFault::BadToml),
    }
}
