//! The top call.

ghost use Rattle.std.specs.Prelude.{◌≡◌, map, string_bytes, IfSome};
ghost use Rattle.std.specs.Option.{option_map};
ghost use Rattle.fy_words.specs.Order.{command_from, order_of};
ghost use Rattle.fy_words.specs.Order.{IsInRange};
ghost use Rattle.fy_tool.specs.Answers.{Answers, Concludes};

use crate::serve::serve;
use fy_base::{Files, Sink, Source};
use fy_words::{Command, command_of};
use fy_world::{Note, Outside, Stop, World, refuse, tell};
use std::alloc::Global;

// The status, and the last note where the outside failed or memory was wanting.
fn conclude<W: World>(work: Result<u8, Stop>, world: &mut W) -> u8
    ensures concludes { Concludes work (W.holds world.old) (W.holds world.new) (W.counts world.old) (W.counts world.new) result }
    ensures same { W.names world.new ≡ W.names world.old }
    ensures called { W.calls world.new ≡ W.calls world.old }
{
    let note = match work {
        Ok(status) => return status,
        Err(Stop::Notes) => return 7,
        Err(Stop::Memory) => {
            return match tell(&[Note::Memory], world) {
                Ok(()) => 9,
                Err(_) => 7,
            };
        }
        Err(Stop::Fetch) => Note::OutsideFiles,
        Err(Stop::Keep) => Note::OutsideFiles,
        Err(Stop::Input) => Note::OutsideInput,
        Err(Stop::Output) => Note::OutsideOutput,
    };
    let _ = tell(&[note], world);
    7
}

// Answers a command, or words that are none.
fn answer<W: World>(alloc: Global, command: Option<Command>, world: &mut W) -> u8
    requires { IfSome command (λ command. IsInRange (order_of command)) }
    ensures answers { Answers (option_map order_of command.entry) (W.holds world.old) (W.holds world.new) (W.counts world.old) (W.counts world.new) (W.calls world.old) (W.calls world.new) result }
    ensures same { W.names world.new ≡ W.names world.old }
{
    match command {
        None => {
            let work = refuse(5, Note::Usage, world);
            conclude(work, world)
        }
        Some(command) => {
            let work = serve(alloc, command, world);
            conclude(work, world)
        }
    }
}

/// Does what the words ask for, over files, an input, an output and notes, and answers the status.
///
/// | Status | Comes where |
/// |---|---|
/// | 0 | done, or the program ended |
/// | 1 | the program faulted |
/// | 2 | the text is refused, or the shapes of the derivation in use pass a limit |
/// | 3 | the stack was exhausted |
/// | 4 | all the instructions or steps that were allowed are spent, or the next focus of the copy rule is too large to hold |
/// | 5 | the words are no command |
/// | 6 | the bytes are no image's, or no image's ELF file |
/// | 7 | a count of faults rose |
/// | 8 | the derivation that is named is refused |
/// | 9 | memory was wanting |
/// | 10 | the image trapped |
/// | 11 | the units on a list aren't linked |
/// | 12 | the image that `audit` judges isn't guarded |
pub fn forsythe<F: Files, I: Source, O: Sink, N: Sink>(
    alloc: Global,
    words: &[String],
    files: &mut F,
    input: &mut I,
    output: &mut O,
    notes: &mut N,
) -> u8
    ensures { Answers (command_from (map string_bytes words.now))
        (record { files = F.held files.old; input = I.left input.old; output = O.held output.old; notes = N.held notes.old })
        (record { files = F.held files.new; input = I.left input.new; output = O.held output.new; notes = N.held notes.new })
        (record { fetches = F.fetch_faults files.old; keeps = F.keep_faults files.old; input = I.faults input.old; output = O.faults output.old; notes = N.faults notes.old })
        (record { fetches = F.fetch_faults files.new; keeps = F.keep_faults files.new; input = I.faults input.new; output = O.faults output.new; notes = N.faults notes.new })
        (F.calls files.old) (F.calls files.new)
        result }
{
    let mut outside = Outside {
        files,
        input,
        output,
        notes,
    };
    answer(alloc, command_of(words), &mut outside)
}
