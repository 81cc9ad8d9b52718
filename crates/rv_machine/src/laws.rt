//! Laws of the machine's runs, each the contract of a function that does nothing.

ghost use Rattle.std.specs.Prelude.{◌≡◌, ◌≢◌, ◌+◌, ◌≤◌, ◌↔◌, ℕ, IsNone};
ghost use Rattle.fy_base.specs.Outside.{IsPrefix};
ghost use Rattle.fy_image.specs.declared.image.Image.{Image};
ghost use Rattle.rv_insn.specs.Program.{Program, AreRead};
ghost use Rattle.rv_insn.specs.Step.{Core, instruction_step};
ghost use Rattle.rv_insn.specs.declared.events.Event.TheVariants.{Going};
ghost use Rattle.rv_machine.specs.Fetch.{word_at, IsFetchTrap};
ghost use Rattle.rv_machine.specs.Run.{World, run, tick};
ghost use Rattle.rv_machine.specs.Start.{IsProgramOf};

/// A run takes one instruction at a time, a longer run goes on from a shorter one, its output
/// begins with that of the shorter one, and a run that is over stays.
pub fn laws_of_runs()
    ensures one { (program : Program) (n : ℕ) (world : World) → run program (n + 1) world ≡ tick program (run program n world) }
    ensures more { (program : Program) (n m : ℕ) (world : World) → run program (n + m) world ≡ run program m (run program n world) }
    ensures grows { (program : Program) (n m : ℕ) (world : World) → n ≤ m → IsPrefix (run program n world).output (run program m world).output }
    ensures stays { (program : Program) (n m : ℕ) (world : World) → (run program n world).ending ≢ Going → n ≤ m → run program m world ≡ run program n world }
{}

/// An image has one program.
pub fn images_have_one_program()
    ensures { (image : Image) (program other : Program) → IsProgramOf image program → IsProgramOf image other → program ≡ other }
{}

/// No word stands at the pc exactly where the step traps at its fetch.
pub fn fetch_traps_have_no_word()
    ensures { (program : Program) (core : Core) → AreRead program.words program.instructions → IsNone (word_at program core.pc) ↔ (IsFetchTrap (instruction_step program core).event) }
{}
