//! How a bridge that runs on sockets is set up.

ghost use Rattle.std.specs.Prelude.{◌≡◌, Some};
ghost use Rattle.front_settings.specs.Settings.{key_text};

use bridge_core::Settings;
use rtp_codec::Address;
use std::fmt;

/// How a bridge that runs on sockets is set up. Port 0 is one of the system's choice.
#[derive(Drop)]
pub struct FrontSettings {
    /// Where datagrams are taken, and where they go out from.
    pub udp: Address,
    /// Where operators connect, in 127.0.0.0/8.
    pub tcp: Address,
    /// How many lanes there are, 1 to 16.
    pub lanes: u32,
    /// How many operators there are seats for, 1 to 16.
    pub operators: u32,
    /// How many milliseconds lie between two reports, 1,000 to 5,000.
    pub report_ms: u32,
    /// How the bridge presents itself to members.
    pub bridge: Settings,
    /// Where the trace of what it does goes to, in 127.0.0.0/8, if it has one. It then has two seats or more, and a
    /// name of one word.
    pub trace: Option<Address>,
    /// How many octets the buffer is asked to have in which datagrams wait until they are read, 4,096 to 1,000,000,000.
    pub receive_buffer: u32,
    /// How many octets the buffer is asked to have in which datagrams wait until they leave, 4,096 to 1,000,000,000.
    pub send_buffer: u32,
}

/// A key of the settings, named as in the file. The values are checked in this order.
#[derive(Clone, Copy, Debug)]
pub enum SettingKey {
    Udp,
    Tcp,
    Lanes,
    Operators,
    ReportMs,
    BridgeSsrc,
    Cname,
    Trace,
    ReceiveBuffer,
    SendBuffer,
}

impl SettingKey {
    /// How it is written.
    pub(crate) fn text(self) -> &'static str
        ensures { result.now ≡ key_text self }
    {
        match self {
            SettingKey::Udp => "udp",
            SettingKey::Tcp => "tcp",
            SettingKey::Lanes => "lanes",
            SettingKey::Operators => "operators",
            SettingKey::ReportMs => "report_ms",
            SettingKey::BridgeSsrc => "bridge_ssrc",
            SettingKey::Cname => "cname",
            SettingKey::Trace => "trace",
            SettingKey::ReceiveBuffer => "receive_buffer",
            SettingKey::SendBuffer => "send_buffer",
        }
    }
}

impl fmt::Display for SettingKey {
    ghost output = { λ key. Some (key_text key) };

    fn fmt<W: fmt::Write>(&self, f: &mut fmt::Formatter<W>) -> fmt::Result {
        f.write_str(self.text())
    }
}
