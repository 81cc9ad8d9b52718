//! Laws of least types.

ghost use Rattle.fy_least.specs.Laws.{FoundShapesAreSame, LeastTypeIsPrincipal, ShapesAreLeast};

/// A phrase has exactly the types that are above its least type. It does nothing: its contract is
/// the law.
pub fn least_type_is_principal()
    ensures principal { LeastTypeIsPrincipal }
{}

/// Whatever derivation a phrase has, the least types of its visits have each of the derivation's
/// demand shapes. It does nothing: its contract is the law.
pub fn shapes_are_least()
    ensures contained { ShapesAreLeast }
{}

/// Whatever derivations [`find`](crate::find) gives of one phrase have the same demand shapes: those that
/// some derivation of the phrase has. It does nothing: its contract is the law.
pub fn found_derivations_have_the_same_shapes()
    ensures same { FoundShapesAreSame }
{}
