//! What a load lays is a list that is accepted.

ghost use Rattle.load_states.specs.inner.Loads.{LoadIsAccepted};

/// What a load of segments lays is accepted in the memory that it leaves, plain and with context preserved, whatever the
/// memory held and whichever pages of the pool are destinations.
pub fn loads_are_accepted()
    ensures { LoadIsAccepted }
{}
