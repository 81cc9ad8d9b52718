//! What is told of a run while it goes on.

ghost use Rattle.std.specs.Prelude.{◌≡◌, ℕ, List, [], ◌∷◌, ◌++◌};
ghost use Rattle.circular_buffer.specs.Buffer.{keep_last};
ghost use Rattle.rv_machine.specs.declared.watch.Fetched.{Fetched};

/// A word that was fetched, and its address.
#[derive(Clone, Copy, PartialEq, Eq, Debug)]
pub struct Fetched {
    pub pc: u64,
    pub word: u32,
}

/// What is told of each word that is fetched, before its instruction is executed.
pub trait Watch {
    /// How many words it remembers at most.
    ghost room: { Self → ℕ };

    /// The last words that it was told, the oldest first.
    ghost held: { Self → List Fetched };

    /// A word was fetched. Where the room is full, the oldest word is forgotten.
    fn fetched(&mut self, pc: u64, word: u32)
        ensures room { room self.new ≡ room self.old }
        ensures held { held self.new ≡ keep_last (room self.old) (held self.old ++ record { pc = pc; word = word } ∷ []) };
}

/// Remembers nothing: its room is 0.
#[derive(Clone, Copy, Debug)]
pub struct Unwatched;

impl Watch for Unwatched {
    ghost room = { λ _. 0 };

    ghost held = { λ _. [] };

    #[inline(always)]
    fn fetched(&mut self, _pc: u64, _word: u32) {}
}
