//! A group of a phase plan, as it is passed to the calls that show it.
ghost use Rattle.std.specs.Prelude.{◌≡◌, ◌<◌, length};
ghost use Rattle.kc_groups.specs.WellFormed.{IsWellFormed};
ghost use Rattle.kc_store.specs.Plans.{group_at};

use crate::showing::sizes::moves_of;
use kc_groups::PhasePlan;

// The group at place g of a plan, with the number of its moves.
#[derive(Drop)]
pub(crate) struct PlannedGroup<'a> {
    // The plan of the phase, which is well formed.
    pub(crate) plan: &'a PhasePlan,
    // The place of the group in the plan, counted from 0: less than the number of its groups.
    pub(crate) g: u32,
    // The number of moves of the group.
    pub(crate) moves: u32,
    ghost inside: { g < length plan.now.groups },
    ghost counted: { moves ≡ length (group_at plan.now g).moves },
}

impl<'a> PlannedGroup<'a> {
    // Makes the group at place g of a plan for n vertices.
    pub(crate) fn new(plan: &'a PhasePlan, n: u32, g: u32) -> PlannedGroup<'a>
        requires formed { IsWellFormed n plan.now }
        requires inside { g < length plan.now.groups }
        ensures plan { result.plan.now ≡ plan.now }
        ensures place { result.g ≡ g }
    {
        PlannedGroup {
            plan,
            g,
            moves: moves_of(plan, n, g),
        }
    }
}
