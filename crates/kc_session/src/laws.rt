//! What follows from the definition of a generated load. The functions do nothing: each has a law as its contract.
ghost use Rattle.kc_session.specs.LoadInputs.{LoadsAreRead};
ghost use Rattle.kc_session.specs.LoadVectors.{StatesFromZero, LoadOfThreeItems};

/// Example: the first nine states from the seed 0 on.
pub fn states_from_zero()
    ensures { StatesFromZero }
{}

/// Example: the text of a batch of three items between five vertices.
pub fn load_of_three_items()
    ensures { LoadOfThreeItems }
{}

/// The text of a load is an input with a header of two asks and the batches of the drawn items. The grammar refuses
/// neither the header nor a batch, and the text is shorter than the limit of an input.
#[tactic(auto, using(crate::proofs::LoadReads::loads_are_read))]
pub fn loads_are_read()
    ensures { LoadsAreRead }
{}
