//! The parts of the note of a refusal.

ghost use Rattle.std.specs.Prelude.{◌≡◌, ◌≤◌, length};
ghost use Rattle.fy_world.specs.Note.{word_of, place_of};

use fy_base::Place;
use fy_front::Refusal;

/// The first word of a refusal's note, with a blank where a place follows.
pub(crate) fn refusal_word(why: Refusal) -> &'static str
    ensures word { result.now ≡ word_of why }
    ensures length { length result.now ≤ 20 }
{
    match why {
        Refusal::Length => "length",
        Refusal::Byte(_) => "byte ",
        Refusal::Unclosed(_) => "unclosed ",
        Refusal::Number(_) => "number ",
        Refusal::Tokens => "tokens",
        Refusal::Syntax(_) => "syntax ",
        Refusal::Deep(_) => "deep ",
        Refusal::Name(_) => "name ",
        Refusal::TypeName(_) => "typename ",
        Refusal::Double(_) => "double ",
        Refusal::Letrec(_) => "letrec ",
        Refusal::Merge(_) => "merge ",
        Refusal::Alternatives(_) => "alternatives ",
        Refusal::TypeSize(_) => "typesize ",
        Refusal::CoreDepth => "coredeep",
        Refusal::CoreSize => "coresize",
        Refusal::Visits => "visits",
        Refusal::NoType(_) => "type ",
        Refusal::LeastSize => "least",
        Refusal::Shapes => "shapes",
        Refusal::Entries => "entries",
        Refusal::Tables => "tables",
        Refusal::Header(_) => "header ",
    }
}

/// The place that a refusal's note tells.
pub(crate) fn refusal_place(why: Refusal) -> Option<Place>
    ensures { result ≡ place_of why }
{
    match why {
        Refusal::Length
        | Refusal::Tokens
        | Refusal::CoreDepth
        | Refusal::CoreSize
        | Refusal::Visits
        | Refusal::LeastSize
        | Refusal::Shapes
        | Refusal::Entries
        | Refusal::Tables => None,
        Refusal::Byte(place)
        | Refusal::Unclosed(place)
        | Refusal::Number(place)
        | Refusal::Syntax(place)
        | Refusal::Deep(place)
        | Refusal::Name(place)
        | Refusal::TypeName(place)
        | Refusal::Double(place)
        | Refusal::Letrec(place)
        | Refusal::Merge(place)
        | Refusal::Alternatives(place)
        | Refusal::TypeSize(place)
        | Refusal::NoType(place)
        | Refusal::Header(place) => Some(place),
    }
}
