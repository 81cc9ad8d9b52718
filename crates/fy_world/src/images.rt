//! Images that are run, kept and listed.

ghost use Rattle.std.specs.Prelude.{◌≡◌, [], ◌∷◌, None, Err, IfOk, IfErr};
ghost use Rattle.fy_image.specs.Ranges.{IsImage};
ghost use Rattle.rv_insn.specs.Program.{Program};
ghost use Rattle.rv_insn.specs.declared.events.Status.TheVariants.{Running};
ghost use Rattle.rv_machine.specs.Start.{IsProgramOf, start_of};
ghost use Rattle.fy_world.specs.Counted.{Counted, HasCalled};
ghost use Rattle.fy_world.specs.Did.{Did, IsOwn};
ghost use Rattle.fy_world.specs.Working.{Executes, Keeps, KeepsAndRuns, KeepsAndSamples, KeepsElf, KeepsSuch, listed};

use crate::runs::{run_machine, run_sampled, run_traced};
use crate::shown::line_of;
use crate::world::{Stop, World};
use fy_base::OutOfMemory;
use fy_elf::write_elf;
use fy_image::{Image, write_image};
use rv_machine::{Fetched, Machine};
use std::alloc::Global;

// The address of the first word of code.
const CODE_START: u64 = 65_536;

// A machine with the image, at its start.
fn load(alloc: Global, image: &Image) -> Result<Machine, Stop>
    requires { IsImage image.now }
    ensures program { IfOk result (λ m. IsProgramOf image.now m.program) }
    ensures start { IfOk result (λ m. m.core ≡ start_of image.now) }
    ensures running { IfOk result (λ m. m.core.status ≡ Running) }
    ensures memory { IfErr result (λ stop. stop ≡ Stop.Memory) }
{
    match Machine::load(alloc, image) {
        Ok(machine) => Ok(machine),
        Err(OutOfMemory) => Err(Stop::Memory),
    }
}

/// Runs an image for at most so many instructions, and tells how it ended and, where a trace is wanted,
/// the last words that it fetched.
pub fn execute<W: World>(
    alloc: Global,
    image: &Image,
    steps: u64,
    trace: Option<u32>,
    world: &mut W,
) -> Result<u8, Stop>
    requires { IsImage image.now }
    ensures executes { Executes image.now steps trace (W.holds world.old) (W.holds world.new) result }
    ensures own { IfOk result IsOwn }
    ensures counted { Counted [] [] (W.counts world.old) (W.counts world.new) result }
    ensures ready { trace ≡ None → result ≡ Err Stop.Memory → W.holds world.new ≡ W.holds world.old }
    ensures same { W.names world.new ≡ W.names world.old }
    ensures called { W.calls world.new ≡ W.calls world.old }
{
    let mut machine = match load(alloc, image) {
        Ok(machine) => machine,
        Err(stop) => return Err(stop),
    };
    match trace {
        None => run_machine(&mut machine, steps, world),
        Some(count) => run_traced(alloc, &mut machine, steps, count, world),
    }
}

/// Keeps bytes under a name.
pub fn keep_bytes<W: World>(
    alloc: Global,
    bytes: &[u8],
    name: &str,
    world: &mut W,
) -> Result<u8, Stop>
    ensures keeps { KeepsSuch (λ held. held ≡ bytes.now) name.now (W.holds world.old) (W.holds world.new) result }
    ensures own { IfOk result IsOwn }
    ensures counted { Counted [] (name.now ∷ []) (W.counts world.old) (W.counts world.new) result }
    ensures same { W.names world.new ≡ W.names world.old }
    ensures called { HasCalled 0 1 (W.calls world.old) (W.calls world.new) }
{
    match world.keep(alloc, name, bytes) {
        Ok(()) => Ok(0),
        Err(stop) => Err(stop),
    }
}

/// Keeps the bytes of an image under a name, in version 2.
pub fn keep_image<W: World>(
    alloc: Global,
    image: &Image,
    name: &str,
    world: &mut W,
) -> Result<u8, Stop>
    requires { IsImage image.now }
    ensures keeps { Keeps image.now name.now (W.holds world.old) (W.holds world.new) result }
    ensures own { IfOk result IsOwn }
    ensures counted { Counted [] (name.now ∷ []) (W.counts world.old) (W.counts world.new) result }
    ensures same { W.names world.new ≡ W.names world.old }
    ensures called { HasCalled 0 1 (W.calls world.old) (W.calls world.new) }
{
    match write_image(alloc, image) {
        Ok(bytes) => keep_bytes(alloc, bytes.as_slice(), name, world),
        Err(OutOfMemory) => Err(Stop::Memory),
    }
}

/// Keeps the ELF file of an image under a name.
pub fn keep_elf<W: World>(
    alloc: Global,
    image: &Image,
    name: &str,
    world: &mut W,
) -> Result<u8, Stop>
    requires { IsImage image.now }
    ensures keeps { KeepsElf image.now name.now (W.holds world.old) (W.holds world.new) result }
    ensures own { IfOk result IsOwn }
    ensures counted { Counted [] (name.now ∷ []) (W.counts world.old) (W.counts world.new) result }
    ensures same { W.names world.new ≡ W.names world.old }
    ensures called { HasCalled 0 1 (W.calls world.old) (W.calls world.new) }
{
    match write_elf(alloc, image) {
        Ok(bytes) => keep_bytes(alloc, bytes.as_slice(), name, world),
        Err(OutOfMemory) => Err(Stop::Memory),
    }
}

/// Keeps an image under a name once it is loaded, and then runs it.
pub fn keep_and_run<W: World>(
    alloc: Global,
    image: &Image,
    name: &str,
    steps: u64,
    world: &mut W,
) -> Result<u8, Stop>
    requires { IsImage image.now }
    ensures runs { KeepsAndRuns image.now steps name.now (W.holds world.old) (W.holds world.new) result }
    ensures own { IfOk result IsOwn }
    ensures counted { Counted [] (name.now ∷ []) (W.counts world.old) (W.counts world.new) result }
    ensures same { W.names world.new ≡ W.names world.old }
    ensures called { HasCalled 0 1 (W.calls world.old) (W.calls world.new) }
{
    let mut machine = match load(alloc, image) {
        Ok(machine) => machine,
        Err(stop) => return Err(stop),
    };
    match keep_image(alloc, image, name, world) {
        Ok(_) => run_machine(&mut machine, steps, world),
        Err(stop) => Err(stop),
    }
}

/// Keeps an image under a name once it is loaded, then runs it, and writes a summary behind its output
/// before it tells how it ended.
pub fn keep_and_sample<W: World>(
    alloc: Global,
    image: &Image,
    name: &str,
    steps: u64,
    world: &mut W,
) -> Result<u8, Stop>
    requires { IsImage image.now }
    ensures samples { KeepsAndSamples image.now steps name.now (W.holds world.old) (W.holds world.new) result }
    ensures own { IfOk result IsOwn }
    ensures counted { Counted [] (name.now ∷ []) (W.counts world.old) (W.counts world.new) result }
    ensures same { W.names world.new ≡ W.names world.old }
    ensures called { HasCalled 0 1 (W.calls world.old) (W.calls world.new) }
{
    let mut machine = match load(alloc, image) {
        Ok(machine) => machine,
        Err(stop) => return Err(stop),
    };
    match keep_image(alloc, image, name, world) {
        Ok(_) => run_sampled(&mut machine, steps, world),
        Err(stop) => Err(stop),
    }
}

/// Writes the listing of an image.
pub fn list_image<W: World>(alloc: Global, image: &Image, world: &mut W) -> Result<u8, Stop>
    requires { IsImage image.now }
    ensures did { (program : Program) → IsProgramOf image.now program → Did (listed program) (W.holds world.old) (W.holds world.new) result }
    ensures own { IfOk result IsOwn }
    ensures counted { Counted [] [] (W.counts world.old) (W.counts world.new) result }
    ensures same { W.names world.new ≡ W.names world.old }
    ensures called { W.calls world.new ≡ W.calls world.old }
{
    let mut pc = CODE_START;
    for word in image.code.as_slice() {
        let line = match line_of(alloc, Fetched { pc, word: *word }) {
            Ok(line) => line,
            Err(OutOfMemory) => return Err(Stop::Memory),
        };
        if let Err(stop) = world.put(line.as_slice()) {
            return Err(stop);
        }
        pc += 4;
    }
    Ok(0)
}
