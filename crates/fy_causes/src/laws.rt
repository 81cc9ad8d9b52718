//! Laws of what is blamed and of causes.

ghost use Rattle.fy_causes.specs.Blamed.{BlamedPlaces};
ghost use Rattle.fy_causes.specs.Facts.{BlameStops, BlamedForms, CausesAreSo, SecondCausesAreSo};

/// What is blamed stands at the place that `check` names. It does nothing: its contract is the law.
pub fn blamed_phrases_stand_at_their_places()
    ensures { BlamedPlaces }
{}

/// Each direct part of what is blamed has more types than `ns`; and it has only `ns` itself, or is the whole. It does nothing: its contract is the law.
pub fn blame_stops()
    ensures { BlameStops }
{}

/// Literals, abstractions, fields, merges, definitions and `skip` have more types than `ns` where their parts have. It does nothing: its
/// contract is the law.
pub fn only_some_forms_are_blamed()
    ensures { BlamedForms }
{}

/// The fact that a cause tells of what is blamed holds. It does nothing: its contract is the law.
pub fn causes_are_so()
    ensures { CausesAreSo }
{}

/// What is told of a definition behind it has only `ns`, and the fact that its cause tells holds. It does nothing: its contract is the law.
pub fn second_causes_are_so()
    ensures { SecondCausesAreSo }
{}
