//! Reading of a plan by places.
ghost use Rattle.std.specs.Prelude.{◌≡◌, ℕ, ◌^◌, ◌<◌, Some};
ghost use Rattle.std.specs.List.{slice_get};
ghost use Rattle.kc_history.specs.declared.entries.Entry.{Entry as EntryShape};
ghost use Rattle.kc_store.specs.Plans.{Move as MoveShape};
ghost use Rattle.kc_store.specs.private.Plans.{IsMoveAt};

use kc_groups::PhasePlan;
use kc_history::{Entry, Move};

// Returns the group at place g.
pub(crate) fn group_at(plan: &PhasePlan, g: u32) -> &Entry
    requires { (e : EntryShape) × (slice_get plan.now.groups g ≡ Some e) }
    ensures { (e : EntryShape) → slice_get plan.now.groups g ≡ Some e → result.now ≡ e }
{
    &plan.groups.as_slice()[g as usize]
}

// Returns move i of a group.
pub(crate) fn move_of(group: &Entry, i: u32) -> Move
    requires { (m : MoveShape) × (slice_get group.now.moves i ≡ Some m) }
    ensures { (m : MoveShape) → slice_get group.now.moves i ≡ Some m → result ≡ m }
{
    group.moves.as_slice()[i as usize]
}

// Returns the number of the phase.
pub(crate) fn phase_of(plan: &PhasePlan) -> u32
    ensures { result ≡ plan.now.quiet.phase }
{
    plan.quiet.phase
}

// Returns the label of a group.
pub(crate) fn label_of(group: &Entry) -> u32
    requires { (l : ℕ) × (group.now.label ≡ Some l) }
    ensures { group.now.label ≡ Some result }
{
    match group.label {
        Some(label) => label,
        None => 0,
    }
}

// Returns move i of the group at place g, and the group's label.
pub(crate) fn move_at(plan: &PhasePlan, g: u32, i: u32) -> (Move, u32)
    requires label { (e : EntryShape) × (l : ℕ) × (slice_get plan.now.groups g ≡ Some e) × (e.label ≡ Some l) }
    requires found { (e : EntryShape) × (m : MoveShape) × IsMoveAt plan.now g i e m }
    ensures { (e : EntryShape) (m : MoveShape) → IsMoveAt plan.now g i e m → (result.0 ≡ m) × (e.label ≡ Some result.1) }
{
    let group = group_at(plan, g);
    (move_of(group, i), label_of(group))
}

// Returns a level as a word, which is below 2^16.
pub(crate) fn word_of(level: u16) -> u64
    ensures value { result ≡ level }
    ensures short { level < 2 ^ 16 }
{
    u64::from(level)
}
