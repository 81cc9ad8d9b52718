//! A node of a phrase.

ghost use Rattle.fy_phrase.specs.Reads.{reads};
ghost use Rattle.fy_phrase.specs.Sizes.{nodes};
ghost use Rattle.std.specs.Prelude.{◌≡◌};

use fy_phrase::Phrase;

/// A phrase within another one: the number of binders around it, and how many nodes it has.
#[derive(Clone, Copy, Drop)]
pub struct Node<'a> {
    pub phrase: &'a Phrase,
    pub depth: u32,
    pub size: u32,
    ghost sized: { size ≡ nodes (reads phrase.now) },
}
