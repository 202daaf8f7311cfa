//! Laws of the definitions: functions that do nothing when they run.

ghost use Rattle.std.specs.Prelude.{◌≡◌, ℕ, ◌↔◌, true, List, [], ◌∷◌, ◌++◌, Some};
ghost use Rattle.retransmit.specs.declared.owner.Owner.{Owner};
ghost use Rattle.retransmit.specs.SentPacket.{SentPacket};
ghost use Rattle.retransmit.specs.Window.{window_size, latest, is_for, resend_of, MayFollow, AreInARow};
ghost use Rattle.retransmit.specs.laws.SoFar.{ArePushed, of_number};

/// A law over all pushes into a new window. Packets can be pushed if they are numbered in a row, and only then. The
/// window then shows the last 512 of them.
pub fn so_far()
    ensures pushed { (sent window : List SentPacket) → ArePushed [] sent window
        ↔ (AreInARow sent × (window ≡ latest window_size sent)) }
    ensures one_more { (sent : List SentPacket) (p : SentPacket)
        → latest window_size (latest window_size sent ++ p ∷ []) ≡ latest window_size (sent ++ p ∷ []) }
    ensures may_follow { (sent : List SentPacket) (p : SentPacket)
        → MayFollow (latest window_size sent) p ↔ MayFollow sent p }
    ensures in_a_row { (sent : List SentPacket) (p : SentPacket) → AreInARow (sent ++ p ∷ [])
        ↔ (AreInARow sent × MayFollow sent p) }
{}

/// A law: a packet that is found is the only one of its number in the window.
pub fn found_is_the_only_one()
    ensures { (sent : List SentPacket) (number : ℕ) (owner : Owner) (p : SentPacket) → AreInARow sent
        → resend_of number owner (latest window_size sent) ≡ Some p
        → of_number number (latest window_size sent) ≡ p ∷ [] }
{}

/// A law: a packet is for an owner exactly if it went to this member at this address.
pub fn owners_are_told_apart()
    ensures { (number : ℕ) (owner : Owner) (p : SentPacket) → is_for number owner p ≡ true
        ↔ ((p.number ≡ number) × (p.owner ≡ owner)) }
{}
