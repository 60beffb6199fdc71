//! The meaning of "full" for a client that submits alone. The function does nothing: it has a law as its contract.

ghost use Rattle.kc_intake.specs.OneClient.{FillsAlone};

/// If client c alone submits, it finds the intake full only after it has submitted as many items as the intake holds.
///
/// The calls of an intake are proved for every invariant that its user picks. Here the user picks "all updates are of
/// c". With it `Full` can't be true for a client that has submitted fewer items. So no call may answer `Full` without
/// a step of the queue that says so.
pub fn one_client_fills_it_alone()
    ensures { FillsAlone }
{}
