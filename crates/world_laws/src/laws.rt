//! The laws, for any list of events, refused ones included.

ghost use Rattle.std.specs.Prelude.{◌≡◌, ◌<◌, ℕ, All, List};
ghost use Rattle.lane_words.specs.declared.Refusal.{Refusal};
ghost use Rattle.group_machine.specs.Cluster.{CommitTerms};
ghost use Rattle.group_machine.specs.State.{opening};
ghost use Rattle.world.specs.declared.event.Event.{Event};
ghost use Rattle.world.specs.declared.event.Reply.TheVariants as reply;
ghost use Rattle.world.specs.Courses.{after_all, outcome_of};
ghost use Rattle.world.specs.Valid.{IsValidWorld};
ghost use Rattle.world.specs.World.{WorldState};
ghost use Rattle.world_laws.specs.Counting.{GetsCommitted, IsRefusedAfter, IsUnknownAfter, times_counted};
ghost use Rattle.world_laws.specs.Growth.{OnlyGrows};
ghost use Rattle.world_laws.specs.Membership.{HaveDifferentNames, IsOut, IsSettled, KeepsMembers};

/// No two present members have the same name: nobody is present at first, and no event brings a
/// second one.
pub fn names_stay_different()
    ensures opening { (partitions : ℕ) → HaveDifferentNames (opening partitions) }
    ensures kept { (w : WorldState) (events : List Event) → IsValidWorld w
        → HaveDifferentNames w.cluster.group
        → HaveDifferentNames (after_all w events).cluster.group }
{}

/// Generations and committed offsets never fall; logs, keys, names and moves lose no entry.
pub fn nothing_is_lost()
    ensures { (w : WorldState) (events : List Event) → IsValidWorld w
        → OnlyGrows w.cluster (after_all w events).cluster }
{}

/// A commit of a member that is out, or of a generation that is over, is never accepted again.
pub fn past_commits_stay_refused()
    ensures out { (w : WorldState) (events : List Event) (c : CommitTerms) → IsValidWorld w
        → IsOut w.cluster.group c.member → IsUnknownAfter w events c }
    ensures over { (w : WorldState) (events : List Event) (c : CommitTerms) → IsValidWorld w
        → c.generation < w.cluster.group.generation → IsRefusedAfter w events c }
{}

/// Exactly one accepted commit counts each record that gets committed, and none counts a record
/// that was committed before, or is not committed after these events.
pub fn each_record_is_counted_once()
    ensures once { (w : WorldState) (events : List Event) (p offset : ℕ) → IsValidWorld w
        → GetsCommitted w events p offset → times_counted w events p offset ≡ 1 }
    ensures never { (w : WorldState) (events : List Event) (p offset : ℕ) → IsValidWorld w
        → (GetsCommitted w events p offset → ⊥) → times_counted w events p offset ≡ 0 }
{}

/// A settled group stays settled until a member joins, leaves or is lost.
pub fn only_members_unsettle_a_group()
    ensures { (w : WorldState) (events : List Event) → IsValidWorld w → All KeepsMembers events
        → IsSettled w → IsSettled (after_all w events) }
{}

/// An event that is refused leaves the cluster as it was: its group, logs, offsets and counts.
pub fn refused_events_change_nothing()
    ensures { (w : WorldState) (event : Event) (why : Refusal)
        → (outcome_of w event).reply ≡ reply.Refused why
        → (outcome_of w event).after.cluster ≡ w.cluster }
{}
