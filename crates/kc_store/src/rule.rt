//! The rule of the table, and what its seat learns from each kind of step.
use crate::roles::Role;
use atomic_table::{Join, Play, Seat, Split, TableRule};
use std::marker::{Brand, PhantomData};

pub(crate) type Place = Seat<u8, Role>;

pub(crate) struct Rule;

// The numbers with which a table is opened.
#[derive(Clone, Copy)]
pub(crate) struct Size {
    pub vertices: u32,
    pub before: u32,
}

impl TableRule<u8, Role, Size> for Rule {
    ghost use Rattle.kc_store.specs.private.Rule.{IsKept};
    ghost use Rattle.kc_store.specs.private.Steps.{first_role};

    ghost holds = { λ k. IsKept k.vertices };

    ghost first = { λ k. first_role k.vertices k.before };
}

// The plan of the phase that a step begins. The proof of a call that passes `Brand` picks it.
pub(crate) trait Planned {
    ghost use Rattle.kc_groups.specs.declared.plans.PhasePlan.{PhasePlan};

    ghost plan: { PhasePlan };
}

impl Planned for Brand {
    ghost use Rattle.kc_store.specs.States.{empty_plan};

    ghost plan = { empty_plan 0 };
}

// A phase begins.
pub(crate) struct Begins<J> {
    of: PhantomData<J>,
}

impl<J: Planned> Play<u8, Role> for Begins<J> {
    ghost use Rattle.kc_store.specs.private.Steps.{begins};

    ghost then = { begins J.plan };
}

// The writer stores an old level.
pub(crate) struct Notes;

impl Play<u8, Role> for Notes {
    ghost use Rattle.kc_store.specs.private.Steps.{notes};

    ghost then = { notes };
}

// The writer stores the mark of a move.
pub(crate) struct Marks;

impl Play<u8, Role> for Marks {
    ghost use Rattle.kc_store.specs.private.Steps.{marks};

    ghost then = { marks };
}

// The writer stores the new level of a published move with phase 0, so that a reader needs no second load.
pub(crate) struct Clears;

impl Play<u8, Role> for Clears {
    ghost use Rattle.kc_store.specs.private.Steps.{clears};

    ghost then = { clears };
}

// A group is published.
pub(crate) struct Publishes;

impl Play<u8, Role> for Publishes {
    ghost use Rattle.kc_store.specs.private.Steps.{publishes};

    ghost then = { publishes };
}

// A marker stores an old level.
pub(crate) struct LentNotes;

impl Play<u8, Role> for LentNotes {
    ghost use Rattle.kc_store.specs.private.Steps.{lent_notes};

    ghost then = { lent_notes };
}

// A marker stores the mark of a move.
pub(crate) struct LentMarks;

impl Play<u8, Role> for LentMarks {
    ghost use Rattle.kc_store.specs.private.Steps.{lent_marks};

    ghost then = { lent_marks };
}

// A marker stores the new level of a published move with phase 0, so that a reader needs no second load.
pub(crate) struct LentClears;

impl Play<u8, Role> for LentClears {
    ghost use Rattle.kc_store.specs.private.Steps.{lent_clears};

    ghost then = { lent_clears };
}

// A pass loads the packed word of a vertex.
pub(crate) struct FirstLoad;

impl Play<u8, Role> for FirstLoad {
    ghost use Rattle.kc_store.specs.private.Steps.{first_load};

    ghost then = { first_load };
}

// A pass loads the stamp of the word's label.
pub(crate) struct SecondLoad;

impl Play<u8, Role> for SecondLoad {
    ghost use Rattle.kc_store.specs.private.Steps.{second_load};

    ghost then = { second_load };
}

// A pass loads the old level of the vertex.
pub(crate) struct ThirdLoad;

impl Play<u8, Role> for ThirdLoad {
    ghost use Rattle.kc_store.specs.private.Steps.{third_load};

    ghost then = { third_load };
}

// A pass is split off.
pub(crate) struct NewPass;

impl Split<Role> for NewPass {
    ghost use Rattle.kc_store.specs.private.Steps.{new_pass};

    ghost left = { λ v. v };

    ghost right = { new_pass };
}

// A pass or a marker is joined.
pub(crate) struct TakesBack;

impl Join<Role> for TakesBack {
    ghost use Rattle.kc_store.specs.private.Steps.{took_back};
    ghost use Rattle.kc_store.specs.declared.roles.Role.TheVariants.{Spent};

    ghost both = { took_back };

    ghost spent = { Spent };
}

// The parts of the history that passes had seen are beginnings of the history.
pub(crate) struct Tells;

impl Play<u8, Role> for Tells {
    ghost use Rattle.kc_store.specs.private.Steps.{told};

    ghost then = { told };
}

// The range that is lent. The proof of a call that passes `Brand` picks it.
pub(crate) trait Ranged {
    ghost use Rattle.std.specs.Prelude.{ℕ};

    ghost group: { ℕ };

    ghost low: { ℕ };

    ghost high: { ℕ };
}

impl Ranged for Brand {
    ghost group = { 0 };

    ghost low = { 0 };

    ghost high = { 0 };
}

// A marker is lent.
pub(crate) struct Lends<J> {
    of: PhantomData<J>,
}

impl<J: Ranged> Split<Role> for Lends<J> {
    ghost use Rattle.kc_store.specs.private.Steps.{lender, lent_to};

    ghost left = { lender J.group J.low J.high };

    ghost right = { lent_to J.group J.low J.high };
}
