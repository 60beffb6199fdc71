//! The greatest size of a plan. The function does nothing: it has the law as its contract.

ghost use Rattle.kc_groups.specs.Sizes.{PlansAreSmall};

/// A plan that is well formed for n vertices has at most n groups, and each of them at most n moves.
pub fn plans_are_small()
    ensures { PlansAreSmall }
{}
