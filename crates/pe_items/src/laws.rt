//! Laws of runs of items, each the contract of a function that does nothing.

ghost use Rattle.pe_items.specs.Laws.{ItemsGoInStep, ItemsStayLinked, NoRunIsGone};

/// After any number of steps the run of items stands as the push-enter run does, with the same
/// output and the same input left, unless that one is stuck or misses a frame. The words of the
/// items, and two more for each item, are at most the load.
pub fn items_go_in_step()
    ensures { ItemsGoInStep }
{}

/// A run of items is never gone.
pub fn no_run_is_gone()
    ensures { NoRunIsGone }
{}

/// After any number of steps of any code each frame and each context that the state, a frame or a
/// context names stands among the items below, a cell's frame with a cell, an escape's with an
/// escape and a sequence's context under its cells; contexts also name the foot of the stack.
pub fn items_stay_linked()
    ensures { ItemsStayLinked }
{}
