//! What several tests make.

ghost use Rattle.std.specs.Prelude.{◌↔◌, IsTrue, OnOk};
ghost use Rattle.rv_asm.specs.Items.{AreItems, IsFit};

use fy_base::{DoubleList, Ending, Place, PlaceList, SteadySink, SteadySource};
use fy_image::Image;
use rv_asm::{Item, assemble};
use rv_insn::is_encodable;
use rv_machine::{Machine, run_machine};
use std::alloc::Global;
use std::test::Fail;

// The only place of images.
pub const AT: Place = Place { line: 3, col: 14 };

fn is_fit(item: &Item) -> bool
    ensures { IsTrue result ↔ IsFit item.now }
{
    match *item {
        Item::Plain(insn) => is_encodable(&insn),
        Item::BranchTo { rs1, rs2, .. } => rs1 < 32 && rs2 < 32,
        Item::CallTo { rd, .. } | Item::AddressOf { rd, .. } | Item::Constant { rd, .. } => rd < 32,
        Item::Mark(_) | Item::JumpTo { .. } | Item::FarTo { .. } => true,
    }
}

// Tests what `assemble` asks of items.
pub fn keep_limits(items: &[Item]) -> Result<(), Fail>
    ensures { OnOk result (AreItems items.now) }
{
    if items.len() <= 4_194_304 && items.iter().all(|item| is_fit(item)) {
        return Ok(());
    }
    Err("no items of assembly".into())
}

// How the image of items ends on no input, and whether it puts these bytes.
pub fn run(
    alloc: Global,
    stack_words: u32,
    items: &[Item],
    due: &[u8],
) -> Result<(Ending, bool), Fail> {
    run_for(alloc, stack_words, items, due, 1_000_000)
}

// The same, where it ends within so many instructions.
pub fn run_for(
    alloc: Global,
    stack_words: u32,
    items: &[Item],
    due: &[u8],
    steps: u64,
) -> Result<(Ending, bool), Fail> {
    keep_limits(items)?;
    let assembled = assemble(alloc, items)?;
    let mut places = PlaceList::new(alloc);
    places.push(AT)?;
    let image = Image {
        stack_words,
        code: assembled.words,
        table: DoubleList::new(alloc),
        places,
    };
    let size = image.code.len();
    if !(1024..=67_108_864).contains(&stack_words) || !(1..=4_194_304).contains(&size) {
        return Err("no image".into());
    }
    let mut m = Machine::load(alloc, &image)?;
    let mut input = SteadySource::new(Vec::new(alloc));
    let mut output = SteadySink::new(alloc, 1024)?;
    let run = run_machine(&mut m, &mut input, &mut output, steps);
    Ok((run.end, output.bytes() == due))
}
