//! The invariant that the user of an intake picks for its updates.

/// An invariant of an intake. Between any two steps it holds of the drained and of the waiting updates, both oldest
/// first.
///
/// The user of an intake picks it. At `open_with`, `submit` and `drain` the user shows that it holds at first and stays
/// true. In return `drain` says that it holds of the drained updates.
///
/// The calls of an intake are proved for every invariant, so none of them can invent updates. Of the waiting updates
/// they know only what a step of the queue showed them.
pub trait Invariant {
    ghost use Rattle.std.specs.Prelude.{List};
    ghost use Rattle.kc_intake.specs.declared.updates.Update.{Update};

    ghost holds: { List Update → List Update → Type 0 };
}

/// The invariant that holds of all updates.
pub struct Anything;

impl Invariant for Anything {
    ghost holds = { λ drained waiting. Unit {0} };
}
