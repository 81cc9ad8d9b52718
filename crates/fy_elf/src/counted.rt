//! Sizes that are those of so many parts.

ghost use Rattle.std.specs.Prelude.{◌≡◌};
ghost use Rattle.fy_elf.specs.Refusals.{code_counted, places_counted, stack_counted, table_counted};

/// Parts of one size behind a beginning, and how many there may be.
#[derive(Clone, Copy)]
pub struct Counted {
    /// The bytes of the beginning.
    pub base: u32,
    /// The bytes of a part.
    pub unit: u32,
    /// The fewest parts.
    pub least: u32,
    /// The most.
    pub most: u32,
}

/// Words of the code.
#[tactic(auto, unfolding(crate::specs::Refusals::code_counted))]
pub fn code_counted() -> Counted
    ensures { result ≡ code_counted }
{
    Counted {
        base: 0,
        unit: 4,
        least: 1,
        most: 4_194_304,
    }
}

/// Words of the table.
#[tactic(auto, unfolding(crate::specs::Refusals::table_counted))]
pub fn table_counted() -> Counted
    ensures { result ≡ table_counted }
{
    Counted {
        base: 0,
        unit: 8,
        least: 0,
        most: 1_048_576,
    }
}

/// Words of the stack.
#[tactic(auto, unfolding(crate::specs::Refusals::stack_counted))]
pub fn stack_counted() -> Counted
    ensures { result ≡ stack_counted }
{
    Counted {
        base: 0,
        unit: 8,
        least: 1024,
        most: 67_108_864,
    }
}

/// Places in a note.
#[tactic(auto, unfolding(crate::specs::Refusals::places_counted))]
pub fn places_counted() -> Counted
    ensures { result ≡ places_counted }
{
    Counted {
        base: 16,
        unit: 8,
        least: 0,
        most: 524_288,
    }
}
