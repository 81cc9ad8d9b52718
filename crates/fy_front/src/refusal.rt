//! Why a text is refused.

use fy_base::Place;

/// Why a text is refused, and where.
#[derive(Clone, Copy, PartialEq, Eq, Debug)]
pub enum Refusal {
    /// It has over 1,048,576 bytes.
    Length,
    /// A byte that begins or continues no token.
    Byte(Place),
    /// A comment, string or character that isn't closed.
    Unclosed(Place),
    /// A literal past 9223372036854775807.
    Number(Place),
    /// It has over 262,144 tokens.
    Tokens,
    /// A token that can't follow those before it.
    Syntax(Place),
    /// A token that nests deeper than 256.
    Deep(Place),
    /// A name that stands for no phrase.
    Name(Place),
    /// A name that stands for no type.
    TypeName(Place),
    /// The second use of a name among the definitions of one `let` or the declarations of one `letrec`.
    Double(Place),
    /// A definition of a `letrec` whose name isn't the declared one, or `in` where one is missing.
    Letrec(Place),
    /// A right operand of `,` that is no abstraction, field definition or acceptor.
    Merge(Place),
    /// An abstraction with over 16 alternatives.
    Alternatives(Place),
    /// A written type that is too large once its names are replaced.
    TypeSize(Place),
    /// The core phrase nests more than 512.
    CoreDepth,
    /// The core phrase has over 65,536 nodes.
    CoreSize,
    /// The core phrase has over 65,536 visits.
    Visits,
    /// The core phrase is no command; the place is that of the innermost phrase that is blamed.
    NoType(Place),
    /// A least type or a written type is too large, or all least types together are.
    LeastSize,
    /// The derivation that is in use has over 256 demand shapes.
    Shapes,
    /// It has over 65,536 pairs of a node and a demand shape.
    Entries,
    /// The tables for its demand shapes would have over 1,048,576 words.
    Tables,
    /// What stands before the first `==` of a unit's source is no header; the place is that of the first
    /// token.
    Header(Place),
}
