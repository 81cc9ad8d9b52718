//! Plans of frames and contexts, in words.

ghost use Rattle.std.specs.Prelude.{◌≡◌, ◌≤◌};
ghost use Rattle.pe_frame.specs.Frames.{frame_words, words_of_context};
ghost use Rattle.pe_frame.specs.Plans.{plan_of, IsFitPlan};

/// Where the parts of a frame stand, in words from its first.
#[derive(Clone, Copy, PartialEq, Eq, Debug)]
pub struct FramePlan {
    /// How many words the frame has.
    pub words: u32,
    /// Where the two words of its thunk begin: the entry and the payload of its binding.
    pub thunk_at: u32,
    /// Where its display begins: the addresses of the frames around it, the innermost first.
    pub display_at: u32,
}

/// The plan of a frame that has so many frames around it, at most 512.
pub fn plan_frame(depth: u32) -> FramePlan
    requires { depth ≤ 512 }
    ensures exact { result ≡ plan_of depth }
    ensures fit { IsFitPlan depth result }
{
    FramePlan {
        words: words_at(depth),
        thunk_at: 0,
        display_at: 3,
    }
}

// The words of a frame: three, then the display's first, and its rest in fours.
fn words_at(depth: u32) -> u32
    requires { depth ≤ 512 }
    ensures { result ≡ frame_words depth }
{
    if depth == 0 {
        3
    } else {
        4 + 4 * ((depth + 2) / 4)
    }
}

/// How many words a context has.
pub fn context_words() -> u32
    ensures exact { result ≡ words_of_context }
    ensures small { result ≤ 8 }
{
    4
}
