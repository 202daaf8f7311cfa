//! How much an operator may leave unread.

ghost use Rattle.std.specs.Prelude.{◌≡◌, true, false, length};

use operator_lines::Outgoing;

/// 4 MiB may wait.
pub fn may_leave_4_mib_unread(outgoing: &Outgoing) -> bool
    requires { length outgoing.now ≡ 4194304 }
    ensures { result ≡ false }
{
    outgoing.is_over()
}

/// An octet more may not.
pub fn may_not_leave_an_octet_more(outgoing: &Outgoing) -> bool
    requires { length outgoing.now ≡ 4194305 }
    ensures { result ≡ true }
{
    outgoing.is_over()
}
