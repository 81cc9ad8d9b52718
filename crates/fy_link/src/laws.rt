//! The laws of units.

ghost use Rattle.fy_link.specs.Laws.{UnitsAreJudgedOneWay, UnitsAreLinked};

/// Units that no cause refuses are linked without a new search for types: of the core phrase of the text in which each but the last
/// is a definition around those behind it, the derivation that is composed of the units' own ones concludes `comm`, and no type in
/// it is too deep. It does nothing: its contract is the law.
pub fn units_are_linked()
    ensures { UnitsAreLinked }
{}

/// With a list of names a source says one thing at most, one of a unit isn't refused, and others are refused for one cause. Bytes are
/// read as one unit at most, and then they aren't refused, and they are refused for one part. And units
/// are linked to one text, phrase and derivation at most, and then they aren't refused, and they are refused for one cause: but for
/// want of memory. It does nothing: its contract is the law.
pub fn units_are_judged_one_way()
    ensures { UnitsAreJudgedOneWay }
{}
