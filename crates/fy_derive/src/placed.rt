//! The law of derivations in other contexts.

ghost use Rattle.fy_derive.specs.Placed.{PlacedConcludes, PlacedIsSmall};

/// A derivation is kept where its phrase stands in another context, in which some variables have types below those
/// that it was made for: with a subsumption above each use of these it concludes the same, and it has at most twice
/// the nodes and nests at most one more. It does nothing: its contract is the law.
pub fn derivations_are_kept()
    ensures concludes { PlacedConcludes }
    ensures small { PlacedIsSmall }
{}
