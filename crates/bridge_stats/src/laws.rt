//! Laws of the definitions, as functions that do nothing when they run.

ghost use Rattle.std.specs.Prelude.{◌≡◌, ◌<◌, ◌+◌, All, List, length, filter};
ghost use Rattle.std.specs.Map.{lookup};
ghost use Rattle.ingress.specs.declared.outcome_class.Whose.TheVariants.{Source};
ghost use Rattle.ingress.specs.Outcomes.{whose};
ghost use Rattle.bridge_stats.specs.declared.taken.TakenIn.{TakenIn};
ghost use Rattle.bridge_stats.specs.declared.sender.Sender.{Sender};
ghost use Rattle.bridge_stats.specs.Counts.{so_many};
ghost use Rattle.bridge_stats.specs.Senders.{same_sender};
ghost use Rattle.bridge_stats.specs.Sources.{numbers_of};
ghost use Rattle.bridge_stats.specs.Stats.{StatsOf, no_stats};
ghost use Rattle.bridge_stats.specs.Tables.{most_sources, or_none};
ghost use Rattle.bridge_stats.specs.Runs.{AreAllNoted, is_of};

/// A law over all datagrams that are noted one after another. Each of them is counted by its outcome, whatever that is.
/// And as long as fewer than 5,120 sources are kept, and memory was never refused for one, what is counted of each
/// source is counted of all its datagrams.
pub fn all_are_counted()
    ensures taken { (all : List TakenIn) (stats : StatsOf) → AreAllNoted all no_stats stats → stats.taken ≡ all }
    ensures sources { (all : List TakenIn) (stats : StatsOf) (sender : Sender) → AreAllNoted all no_stats stats
        → stats.sources.left_out ≡ 0 → length stats.sources.entries < most_sources
        → or_none (lookup (same_sender sender) stats.sources.entries) ≡ filter (is_of sender) all }
{}

/// A law over all lists of datagrams of a source: a packet that is dropped has one of four causes, and the counts of
/// these add up to that of what was dropped.
pub fn causes_add_up()
    ensures { (all : List TakenIn) → All (λ taken. whose taken.outcome ≡ Source) all
        → (numbers_of all).dropped ≡ so_many ((numbers_of all).drops.bad_payload + (numbers_of all).drops.spent
        + (numbers_of all).drops.probation + (numbers_of all).drops.jump) }
{}
