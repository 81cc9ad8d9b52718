//! What is wanted where no option says it.

ghost use Rattle.std.specs.Prelude.{◌≡◌};
ghost use Rattle.fy_words.specs.Order.{copy_wanted, stack_wanted, steps_wanted, trace_steps_wanted};

/// The stack words of an image where nothing else is said.
pub(crate) const STACK_WORDS: u32 = 1_048_576;

/// The most instructions of a run where nothing else is said.
pub(crate) const RUN_LIMIT: u64 = 1_000_000_000;

/// The stack words of an image.
pub(crate) fn stack_wanted(stack: Option<u32>) -> u32
    ensures { result ≡ stack_wanted stack }
{
    stack.unwrap_or(STACK_WORDS)
}

/// The most instructions of a run.
pub(crate) fn steps_wanted(steps: Option<u64>) -> u64
    ensures { result ≡ steps_wanted steps }
{
    steps.unwrap_or(RUN_LIMIT)
}

/// The most steps of the copy rule.
pub(crate) fn copy_wanted(steps: Option<u64>) -> u64
    ensures { result ≡ copy_wanted steps }
{
    steps.unwrap_or(100_000)
}

/// The most steps of push-enter code.
pub(crate) fn trace_steps_wanted(steps: Option<u64>) -> u64
    ensures { result ≡ trace_steps_wanted steps }
{
    steps.unwrap_or(10_000)
}
