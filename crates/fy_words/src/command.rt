//! The words of a call.

ghost use Rattle.std.specs.Prelude.{◌≡◌, ◌≤◌, map, string_bytes, IfSome};
ghost use Rattle.std.specs.Option.{option_map};
ghost use Rattle.fy_words.specs.Order.{IsInRange, IsStackInRange, copy_wanted, trace_steps_wanted};
ghost use Rattle.fy_words.specs.Order.{stack_option, trace_option, steps_option, check_from, build_from, exec_from, run_from, list_from, sample_from, command_from, order_of, copy_option, copy_from, trace_steps_option, trace_from, derive_from, judge_from, why_from, tree_from, latex_option, levels_option, node_option, width_option, audit_from, migrate_from, elf_from, unelf_from, unit_from, join_from, link_from};

use crate::words::{
    are_known, both_names, both_operands, flag, name_option, number_in, number_option, only_operand,
};

/// What the words ask for. An option that isn't among the words is `None`.
#[derive(Clone, Copy)]
pub enum Command<'a> {
    /// Checks the text in the file.
    Check {
        file: &'a str,
    },
    /// Writes a derivation of the text in the file.
    Derive {
        file: &'a str,
    },
    /// Judges the derivation in the other file for the text in the file.
    Judge {
        file: &'a str,
        derivation: &'a str,
    },
    /// Tells why the text in the file has no type, with phrases of so many bytes.
    Why {
        file: &'a str,
        width: Option<u32>,
    },
    /// Shows a derivation of the text in the file as a tree, as text or for LaTeX: below a node, down to so many levels, in lines of
    /// so many bytes.
    Tree {
        file: &'a str,
        derivation: Option<&'a str>,
        latex: bool,
        levels: Option<u32>,
        node: Option<u32>,
        width: Option<u32>,
    },
    /// Builds an image of the text in the file, and keeps it.
    Build {
        file: &'a str,
        image: &'a str,
        stack: Option<u32>,
        derivation: Option<&'a str>,
    },
    /// Runs an image.
    Exec {
        image: &'a str,
        steps: Option<u64>,
        trace: Option<u32>,
    },
    /// Builds an image of the text in the file, keeps it, and runs it.
    Run {
        file: &'a str,
        steps: Option<u64>,
        stack: Option<u32>,
        derivation: Option<&'a str>,
        image: Option<&'a str>,
    },
    /// Runs the text in the file by the copy rule.
    Copy {
        file: &'a str,
        steps: Option<u64>,
    },
    /// Runs the push-enter code of the text in the file, with nodes that are evaluated in one step or with none, and tells each step.
    Trace {
        file: &'a str,
        steps: Option<u64>,
        straight: bool,
    },
    /// Lists the image of the text in the file.
    List {
        file: &'a str,
    },
    /// Makes the sample program of this number and this many statements, and runs it.
    Sample {
        number: u32,
        size: u32,
    },
    /// Judges an image without its source.
    Audit {
        image: &'a str,
    },
    /// Keeps an image in the newest version.
    Migrate {
        from: &'a str,
        to: &'a str,
    },
    /// Keeps an image as an ELF file.
    Elf {
        from: &'a str,
        to: &'a str,
    },
    /// Keeps the image of an ELF file.
    Unelf {
        from: &'a str,
        to: &'a str,
    },
    /// Keeps the unit whose source is in the file.
    Unit {
        file: &'a str,
        to: &'a str,
    },
    /// Keeps the joined text of the units on a list.
    Join {
        list: &'a str,
        to: &'a str,
    },
    /// Links the units on a list, and keeps the image.
    Link {
        list: &'a str,
        to: &'a str,
        stack: Option<u32>,
    },
}

// The words of the stack that `--stack=` asks for.
fn stack_option(words: &[String]) -> Option<Option<u32>>
    ensures option { result ≡ stack_option (map string_bytes words.now) }
    ensures range { IfSome result (λ stack. IsStackInRange stack) }
{
    let stack = number_option("--stack=", 1024, 67_108_864, words)?;
    match stack {
        None => Some(None),
        Some(words) => Some(Some(words as u32)),
    }
}

// How many instructions `--trace=` asks for.
fn trace_option(words: &[String]) -> Option<Option<u32>>
    ensures { result ≡ trace_option (map string_bytes words.now) }
{
    let trace = number_option("--trace=", 1, 4096, words)?;
    match trace {
        None => Some(None),
        Some(count) => Some(Some(count as u32)),
    }
}

// The most instructions that `--steps=` allows.
fn steps_option(words: &[String]) -> Option<Option<u64>>
    ensures { result ≡ steps_option (map string_bytes words.now) }
{
    number_option("--steps=", 1, 1_000_000_000_000, words)
}

// The most steps of the copy rule that `--steps=` allows.
fn copy_option(words: &[String]) -> Option<Option<u64>>
    ensures option { result ≡ copy_option (map string_bytes words.now) }
    ensures range { IfSome result (λ steps. copy_wanted steps ≤ 1000000000) }
{
    number_option("--steps=", 1, 1_000_000_000, words)
}

// The most steps of push-enter code that `--steps=` allows.
fn trace_steps_option(words: &[String]) -> Option<Option<u64>>
    ensures option { result ≡ trace_steps_option (map string_bytes words.now) }
    ensures range { IfSome result (λ steps. trace_steps_wanted steps ≤ 1000000) }
{
    number_option("--steps=", 1, 1_000_000, words)
}

// The bytes of a phrase that `--width=` allows.
fn width_option(words: &[String]) -> Option<Option<u32>>
    ensures { result ≡ width_option (map string_bytes words.now) }
{
    let width = number_option("--width=", 40, 1000, words)?;
    match width {
        None => Some(None),
        Some(bytes) => Some(Some(bytes as u32)),
    }
}

// Whether `--form=latex` is among the words.
fn latex_option(words: &[String]) -> Option<bool>
    ensures { result ≡ latex_option (map string_bytes words.now) }
{
    flag("--form=latex", words)
}

// The levels of a tree that `--depth=` allows.
fn levels_option(words: &[String]) -> Option<Option<u32>>
    ensures { result ≡ levels_option (map string_bytes words.now) }
{
    let levels = number_option("--depth=", 0, 2048, words)?;
    match levels {
        None => Some(None),
        Some(count) => Some(Some(count as u32)),
    }
}

// The node that `--node=` names.
fn node_option(words: &[String]) -> Option<Option<u32>>
    ensures { result ≡ node_option (map string_bytes words.now) }
{
    let node = number_option("--node=", 0, 262_143, words)?;
    match node {
        None => Some(None),
        Some(number) => Some(Some(number as u32)),
    }
}

// `check FILE`
fn check_of(words: &[String]) -> Option<Command<'_>>
    ensures order { option_map order_of result ≡ check_from (map string_bytes words.now) }
    ensures stack { IfSome result (λ command. IsInRange (order_of command)) }
{
    if !are_known(&[], words) {
        return None;
    }
    let file = only_operand(words)?;
    Some(Command::Check { file })
}

// `derive FILE`
fn derive_of(words: &[String]) -> Option<Command<'_>>
    ensures order { option_map order_of result ≡ derive_from (map string_bytes words.now) }
    ensures stack { IfSome result (λ command. IsInRange (order_of command)) }
{
    if !are_known(&[], words) {
        return None;
    }
    let file = only_operand(words)?;
    Some(Command::Derive { file })
}

// `judge FILE --derivation=D`
fn judge_of(words: &[String]) -> Option<Command<'_>>
    ensures order { option_map order_of result ≡ judge_from (map string_bytes words.now) }
    ensures stack { IfSome result (λ command. IsInRange (order_of command)) }
{
    if !are_known(&["--derivation="], words) {
        return None;
    }
    let file = only_operand(words)?;
    let derivation = name_option("--derivation=", words)??;
    Some(Command::Judge { file, derivation })
}

// `why FILE [--width=W]`
fn why_of(words: &[String]) -> Option<Command<'_>>
    ensures order { option_map order_of result ≡ why_from (map string_bytes words.now) }
    ensures stack { IfSome result (λ command. IsInRange (order_of command)) }
{
    if !are_known(&["--width="], words) {
        return None;
    }
    let file = only_operand(words)?;
    let width = width_option(words)?;
    Some(Command::Why { file, width })
}

// `tree FILE [--derivation=D] [--form=latex] [--depth=K] [--node=N] [--width=W]`
fn tree_of(words: &[String]) -> Option<Command<'_>>
    ensures order { option_map order_of result ≡ tree_from (map string_bytes words.now) }
    ensures stack { IfSome result (λ command. IsInRange (order_of command)) }
{
    let keys = [
        "--derivation=",
        "--form=latex",
        "--depth=",
        "--node=",
        "--width=",
    ];
    if !are_known(&keys, words) {
        return None;
    }
    let file = only_operand(words)?;
    let derivation = name_option("--derivation=", words)?;
    let latex = latex_option(words)?;
    let levels = levels_option(words)?;
    let node = node_option(words)?;
    let width = width_option(words)?;
    Some(Command::Tree {
        file,
        derivation,
        latex,
        levels,
        node,
        width,
    })
}

// `build FILE --image=OUT [--stack=W] [--derivation=D]`
fn build_of(words: &[String]) -> Option<Command<'_>>
    ensures order { option_map order_of result ≡ build_from (map string_bytes words.now) }
    ensures stack { IfSome result (λ command. IsInRange (order_of command)) }
{
    if !are_known(&["--image=", "--stack=", "--derivation="], words) {
        return None;
    }
    let file = only_operand(words)?;
    let image = name_option("--image=", words)??;
    let stack = stack_option(words)?;
    let derivation = name_option("--derivation=", words)?;
    Some(Command::Build {
        file,
        image,
        stack,
        derivation,
    })
}

// `exec IMAGE [--steps=N] [--trace=K]`
fn exec_of(words: &[String]) -> Option<Command<'_>>
    ensures order { option_map order_of result ≡ exec_from (map string_bytes words.now) }
    ensures stack { IfSome result (λ command. IsInRange (order_of command)) }
{
    if !are_known(&["--steps=", "--trace="], words) {
        return None;
    }
    let image = only_operand(words)?;
    let steps = steps_option(words)?;
    let trace = trace_option(words)?;
    Some(Command::Exec {
        image,
        steps,
        trace,
    })
}

// `run FILE [--steps=N] [--stack=W] [--derivation=D] [--image=OUT]`
fn run_of(words: &[String]) -> Option<Command<'_>>
    ensures order { option_map order_of result ≡ run_from (map string_bytes words.now) }
    ensures stack { IfSome result (λ command. IsInRange (order_of command)) }
{
    if !are_known(
        &["--steps=", "--stack=", "--derivation=", "--image="],
        words,
    ) {
        return None;
    }
    let file = only_operand(words)?;
    let steps = steps_option(words)?;
    let stack = stack_option(words)?;
    let derivation = name_option("--derivation=", words)?;
    let image = name_option("--image=", words)?;
    Some(Command::Run {
        file,
        steps,
        stack,
        derivation,
        image,
    })
}

// `copy FILE [--steps=M]`
fn copy_of(words: &[String]) -> Option<Command<'_>>
    ensures order { option_map order_of result ≡ copy_from (map string_bytes words.now) }
    ensures stack { IfSome result (λ command. IsInRange (order_of command)) }
{
    if !are_known(&["--steps="], words) {
        return None;
    }
    let file = only_operand(words)?;
    let steps = copy_option(words)?;
    Some(Command::Copy { file, steps })
}

// `trace FILE [--steps=N] [--straight]`
fn trace_of(words: &[String]) -> Option<Command<'_>>
    ensures order { option_map order_of result ≡ trace_from (map string_bytes words.now) }
    ensures stack { IfSome result (λ command. IsInRange (order_of command)) }
{
    if !are_known(&["--steps=", "--straight"], words) {
        return None;
    }
    let file = only_operand(words)?;
    let steps = trace_steps_option(words)?;
    let straight = flag("--straight", words)?;
    Some(Command::Trace {
        file,
        steps,
        straight,
    })
}

// `list FILE`
fn list_of(words: &[String]) -> Option<Command<'_>>
    ensures order { option_map order_of result ≡ list_from (map string_bytes words.now) }
    ensures stack { IfSome result (λ command. IsInRange (order_of command)) }
{
    if !are_known(&[], words) {
        return None;
    }
    let file = only_operand(words)?;
    Some(Command::List { file })
}

// `sample NUMBER SIZE`
fn sample_of(words: &[String]) -> Option<Command<'_>>
    ensures order { option_map order_of result ≡ sample_from (map string_bytes words.now) }
    ensures stack { IfSome result (λ command. IsInRange (order_of command)) }
{
    if !are_known(&[], words) {
        return None;
    }
    let (number, size) = both_operands(words)?;
    let number = number_in(0, 4_294_967_295, number)?;
    let size = number_in(1, 2000, size)?;
    Some(Command::Sample {
        number: number as u32,
        size: size as u32,
    })
}

// `audit IMAGE`
fn audit_of(words: &[String]) -> Option<Command<'_>>
    ensures order { option_map order_of result ≡ audit_from (map string_bytes words.now) }
    ensures stack { IfSome result (λ command. IsInRange (order_of command)) }
{
    if !are_known(&[], words) {
        return None;
    }
    let image = only_operand(words)?;
    Some(Command::Audit { image })
}

// `migrate IN OUT`
fn migrate_of(words: &[String]) -> Option<Command<'_>>
    ensures order { option_map order_of result ≡ migrate_from (map string_bytes words.now) }
    ensures stack { IfSome result (λ command. IsInRange (order_of command)) }
{
    if !are_known(&[], words) {
        return None;
    }
    let (from, to) = both_names(words)?;
    Some(Command::Migrate { from, to })
}

// `elf IN OUT`
fn elf_of(words: &[String]) -> Option<Command<'_>>
    ensures order { option_map order_of result ≡ elf_from (map string_bytes words.now) }
    ensures stack { IfSome result (λ command. IsInRange (order_of command)) }
{
    if !are_known(&[], words) {
        return None;
    }
    let (from, to) = both_names(words)?;
    Some(Command::Elf { from, to })
}

// `unelf IN OUT`
fn unelf_of(words: &[String]) -> Option<Command<'_>>
    ensures order { option_map order_of result ≡ unelf_from (map string_bytes words.now) }
    ensures stack { IfSome result (λ command. IsInRange (order_of command)) }
{
    if !are_known(&[], words) {
        return None;
    }
    let (from, to) = both_names(words)?;
    Some(Command::Unelf { from, to })
}

// `unit FILE OUT`
fn unit_of(words: &[String]) -> Option<Command<'_>>
    ensures order { option_map order_of result ≡ unit_from (map string_bytes words.now) }
    ensures stack { IfSome result (λ command. IsInRange (order_of command)) }
{
    if !are_known(&[], words) {
        return None;
    }
    let (file, to) = both_names(words)?;
    Some(Command::Unit { file, to })
}

// `join LIST OUT`
fn join_of(words: &[String]) -> Option<Command<'_>>
    ensures order { option_map order_of result ≡ join_from (map string_bytes words.now) }
    ensures stack { IfSome result (λ command. IsInRange (order_of command)) }
{
    if !are_known(&[], words) {
        return None;
    }
    let (list, to) = both_names(words)?;
    Some(Command::Join { list, to })
}

// `link LIST OUT [--stack=W]`
fn link_of(words: &[String]) -> Option<Command<'_>>
    ensures order { option_map order_of result ≡ link_from (map string_bytes words.now) }
    ensures stack { IfSome result (λ command. IsInRange (order_of command)) }
{
    if !are_known(&["--stack="], words) {
        return None;
    }
    let (list, to) = both_names(words)?;
    let stack = stack_option(words)?;
    Some(Command::Link { list, to, stack })
}

/// The command that the words are, or `None` exactly where they are none: the first word names it,
/// a word that begins with `--` is an option, and every other word is an operand. Options stand
/// anywhere behind the first word, each at most once. It takes no memory.
pub fn command_of(words: &[String]) -> Option<Command<'_>>
    ensures order { option_map order_of result ≡ command_from (map string_bytes words.now) }
    ensures stack { IfSome result (λ command. IsInRange (order_of command)) }
{
    let [name, words @ ..] = words else {
        return None;
    };
    match name.as_str() {
        "check" => check_of(words),
        "derive" => derive_of(words),
        "judge" => judge_of(words),
        "why" => why_of(words),
        "tree" => tree_of(words),
        "build" => build_of(words),
        "exec" => exec_of(words),
        "run" => run_of(words),
        "copy" => copy_of(words),
        "trace" => trace_of(words),
        "list" => list_of(words),
        "sample" => sample_of(words),
        "audit" => audit_of(words),
        "migrate" => migrate_of(words),
        "elf" => elf_of(words),
        "unelf" => unelf_of(words),
        "unit" => unit_of(words),
        "join" => join_of(words),
        "link" => link_of(words),
        _ => None,
    }
}
