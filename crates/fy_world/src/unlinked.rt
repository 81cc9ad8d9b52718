//! Why units on a list aren't linked.

ghost use Rattle.std.specs.Prelude.{◌≡◌, ◌≤◌, length};
ghost use Rattle.fy_world.specs.Note.{link_word, unit_of};

/// Why units on a list aren't linked. A unit is told by its number on the list, from 0.
#[derive(Clone, Copy, PartialEq, Eq, Debug)]
pub enum Unlinked {
    /// The file is no list of units.
    List,
    /// The file of the unit is too long, or its bytes are no unit.
    Object(u32),
    /// The unit has the name of an earlier one.
    Double(u32),
    /// An import of the unit is the name of no earlier one.
    Missing(u32),
    /// The type of an earlier unit isn't below that of an import of this one.
    Interface(u32),
    /// The last unit is no command.
    Main,
    /// The composed derivation is too large.
    Size,
}

impl Unlinked {
    /// The first words of its note, with a blank where the number of a unit follows.
    pub(crate) fn word(self) -> &'static str
        ensures word { result.now ≡ link_word self }
        ensures length { length result.now ≤ 20 }
    {
        match self {
            Unlinked::List => "link list",
            Unlinked::Object(_) => "link object ",
            Unlinked::Double(_) => "link double ",
            Unlinked::Missing(_) => "link missing ",
            Unlinked::Interface(_) => "link interface ",
            Unlinked::Main => "link main",
            Unlinked::Size => "link size",
        }
    }

    /// The number of the unit that its note tells.
    pub(crate) fn unit(self) -> Option<u32>
        ensures { result ≡ unit_of self }
    {
        match self {
            Unlinked::Object(unit)
            | Unlinked::Double(unit)
            | Unlinked::Missing(unit)
            | Unlinked::Interface(unit) => Some(unit),
            Unlinked::List | Unlinked::Main | Unlinked::Size => None,
        }
    }
}
