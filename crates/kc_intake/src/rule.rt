//! The rule of the queue, and the facts that each kind of step shows.
use crate::invariant::Invariant;
use crate::roles::Role;
use crate::updates::Update;
use crossbeam_queue::RuledArrayQueue;
use crossbeam_queue::protocol::{Join, Lesson, Outcome, Protocol, Split};
use std::marker::PhantomData;

pub(crate) type Queue<I> = RuledArrayQueue<Update, Role, Rule<I>>;

pub(crate) type Pass = crossbeam_queue::Pass<Update, Role>;

pub(crate) struct Rule<I> {
    invariant: PhantomData<I>,
}

impl<I: Invariant> Protocol<Update, Role> for Rule<I> {
    ghost use Rattle.kc_intake.specs.Rule.{IsKept};
    ghost use Rattle.kc_intake.specs.private.Steps.{first_role};

    ghost holds = { IsKept I.holds };

    ghost first = { first_role };
}

// A client is split off.
pub(crate) struct NewClient;

impl Split<Role> for NewClient {
    ghost use Rattle.kc_intake.specs.private.Steps.{with_client, client_of};

    ghost left = { with_client };

    ghost right = { client_of };
}

// A client pushes an update, or finds the queue full.
pub(crate) struct Sends<I> {
    invariant: PhantomData<I>,
}

impl<I: Invariant> Outcome<Update, Role> for Sends<I> {
    ghost use Rattle.kc_intake.specs.private.Steps.{sends};

    ghost then = { sends };
}

impl<I: Invariant> Lesson<Update, Role> for Sends<I> {
    ghost use Rattle.kc_intake.specs.Causes.{MayWait};

    ghost fact = { MayWait I.holds };
}

// The drainer pops the first update of a batch, or finds the queue empty.
pub(crate) struct Begins<I> {
    invariant: PhantomData<I>,
}

impl<I: Invariant> Outcome<Update, Role> for Begins<I> {
    ghost use Rattle.kc_intake.specs.private.Steps.{begins};

    ghost then = { begins I.holds };
}

impl<I: Invariant> Lesson<Update, Role> for Begins<I> {
    ghost use Rattle.kc_intake.specs.private.Steps.{drain_learns};

    ghost fact = { drain_learns I.holds };
}

// The drainer pops another update of the batch, or finds the queue empty.
pub(crate) struct Adds<I> {
    invariant: PhantomData<I>,
}

impl<I: Invariant> Outcome<Update, Role> for Adds<I> {
    ghost use Rattle.kc_intake.specs.private.Steps.{adds};

    ghost then = { adds I.holds };
}

impl<I: Invariant> Lesson<Update, Role> for Adds<I> {
    ghost use Rattle.kc_intake.specs.private.Steps.{drain_learns};

    ghost fact = { drain_learns I.holds };
}

// A client is taken in.
pub(crate) struct TakesIn;

impl Join<Role> for TakesIn {
    ghost use Rattle.kc_intake.specs.private.Steps.{took_in};
    ghost use Rattle.kc_intake.specs.declared.roles.Role.TheVariants.{Spent};

    ghost both = { took_in };

    ghost spent = { Spent };
}

// The items that the clients sent that were taken in.
pub(crate) struct Compares<I> {
    invariant: PhantomData<I>,
}

impl<I: Invariant> Lesson<Update, Role> for Compares<I> {
    ghost use Rattle.kc_intake.specs.private.Steps.{drain_learns};

    ghost fact = { drain_learns I.holds };
}
