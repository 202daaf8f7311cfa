//! Whether the bridge's desk is closed: its lease has ended.

ghost use Rattle.std.specs.Prelude.{◌≡◌, option_map};
ghost use Rattle.desk_http.specs.Leases.{lease_line, ended_in, closed_by};

use crate::bridge_request::before_last_lf;
use crate::lines::is_person;

/// The line that asks for the lease of the desk. A bridge that doesn't know this question answers by a fault.
pub fn lease_line() -> &'static [u8]
    ensures { result.now ≡ lease_line }
{
    b"lease"
}

/// Who held the lease that a line tells the end of.
fn ended_in(line: &[u8]) -> Option<&[u8]>
    ensures { option_map (λ x. x.now) result ≡ ended_in line.now }
{
    if line.len() >= 8 && &line[..8] == b"lease 0 ".as_slice() && is_person(&line[8..]) {
        Some(&line[8..])
    } else {
        None
    }
}

/// Who held the desk's lease, if the bridge's answer says that it has ended: the desk refuses the calls of all others.
pub fn closed_by(answer: &[u8]) -> Option<&[u8]>
    ensures { option_map (λ x. x.now) result ≡ closed_by answer.now }
{
    match before_last_lf(answer) {
        Some(line) => ended_in(line),
        None => None,
    }
}
