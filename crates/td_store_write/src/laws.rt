//! The law of what a desk decides, as the contract of a function that does nothing.
ghost use Rattle.td_store_write.specs.Laws.{DecisionsAreWritten};

/// The statements of what a desk decides on a command write it.
pub fn decisions_are_written()
    ensures { DecisionsAreWritten }
{}
