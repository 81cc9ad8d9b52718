//! Which command does what the words ask for.

ghost use Rattle.std.specs.Prelude.{◌≡◌, Some};
ghost use Rattle.fy_words.specs.Order.{IsInRange, order_of};
ghost use Rattle.fy_tool.specs.Answers.{Serves};

use crate::audit::audit_file;
use crate::build::build_file;
use crate::check::check_file;
use crate::copy::copy_file;
use crate::derive::derive_file;
use crate::elf::{elf_file, unelf_file};
use crate::exec::exec_file;
use crate::judge::judge_file;
use crate::link::{join_file, link_file};
use crate::list::list_file;
use crate::migrate::migrate_file;
use crate::run::run_file;
use crate::sample::run_sample;
use crate::trace::trace_file;
use crate::tree::tree_file;
use crate::unit::unit_file;
use crate::why::why_file;
use fy_words::Command;
use fy_world::{Stop, World};
use std::alloc::Global;

/// Does what a command asks for.
pub(crate) fn serve<W: World>(alloc: Global, command: Command, world: &mut W) -> Result<u8, Stop>
    requires { IsInRange (order_of command) }
    ensures serves { Serves (Some (order_of command.entry)) (W.holds world.old) (W.holds world.new) (W.counts world.old) (W.counts world.new) (W.calls world.old) (W.calls world.new) result }
    ensures same { W.names world.new ≡ W.names world.old }
{
    match command {
        Command::Check { file } => check_file(alloc, file, world),
        Command::Derive { file } => derive_file(alloc, file, world),
        Command::Judge { file, derivation } => judge_file(alloc, file, derivation, world),
        Command::Why { file, width } => why_file(alloc, file, width, world),
        Command::Tree {
            file,
            derivation,
            latex,
            levels,
            node,
            width,
        } => tree_file(alloc, file, derivation, latex, levels, node, width, world),
        Command::Build {
            file,
            image,
            stack,
            derivation,
        } => build_file(alloc, file, image, stack, derivation, world),
        Command::Exec {
            image,
            steps,
            trace,
        } => exec_file(alloc, image, steps, trace, world),
        Command::Run {
            file,
            steps,
            stack,
            derivation,
            image,
        } => run_file(alloc, file, steps, stack, derivation, image, world),
        Command::Copy { file, steps } => copy_file(alloc, file, steps, world),
        Command::Trace {
            file,
            steps,
            straight,
        } => trace_file(alloc, file, steps, straight, world),
        Command::List { file } => list_file(alloc, file, world),
        Command::Sample { number, size } => run_sample(alloc, number, size, world),
        Command::Audit { image } => audit_file(alloc, image, world),
        Command::Migrate { from, to } => migrate_file(alloc, from, to, world),
        Command::Elf { from, to } => elf_file(alloc, from, to, world),
        Command::Unelf { from, to } => unelf_file(alloc, from, to, world),
        Command::Unit { file, to } => unit_file(alloc, file, to, world),
        Command::Join { list, to } => join_file(alloc, list, to, world),
        Command::Link { list, to, stack } => link_file(alloc, list, to, stack, world),
    }
}
