//! The items of blocks.

ghost use Rattle.std.specs.Prelude.{◌≡◌, ◌<◌, [], ◌∷◌, ◌++◌, drop, take, IsTrue, OnOk};
ghost use Rattle.std.specs.Option.{ForSome};
ghost use Rattle.pe_code.specs.declared.code.PeCode.{PeCode};
ghost use Rattle.pe_code.specs.Code.{shape_of, straight_of, variable_of};
ghost use Rattle.rv_flow.specs.Emission.{are_near};
ghost use Rattle.rv_operators.specs.Operators.{operator_blocks};
ghost use Rattle.rv_runtime.specs.Routines.{routine_blocks};
ghost use Rattle.rv_select.specs.Numbers.{first_item, first_operator, label_of, meet};
ghost use Rattle.rv_select.specs.Blocks.{answer, caller_blocks, element_block, index_block, own_blocks, sequence_blocks};
ghost use Rattle.rv_select.specs.Emission.{AddsBlocks, IsSmallStraight, blocks_at};
ghost use Rattle.rv_select.specs.Program.{item_blocks, word_code};

use crate::blocks::make_block;
use crate::fixed::{
    COUNT_LABEL, DATUM_LABEL, END_ENTRY, END_LABEL, ESCAPE_COLUMN, FILL_LABEL, FILLED_LABEL,
    FIRST_OPERATOR, INDEX_READ_LABEL, INDEX_WRITE_LABEL, LEAVE_LABEL, LENGTH_LABEL, NO_COUNT_LABEL,
    NO_ROOM_LABEL, OUTSIDE_LABEL, POP_LABEL, PUT_BOOL_LABEL, PUT_CHAR_LABEL, PUT_INT_LABEL,
    READ_ELEMENT_ENTRY, READ_ELEMENT_LABEL, READ_LABEL, SEQUENCE_COLUMN, START_LABEL,
    WRITE_ELEMENT_ENTRY, WRITE_ELEMENT_LABEL, WRITE_LABEL,
};
use crate::numbers::{Numbers, block_count};
use crate::parts::word_of_entry;
use crate::sites::Site;
use fy_base::OutOfMemory;
use pe_code::PeInsn;
use rv_asm::Item;
use rv_flow::{lower_all, lower_block};
use rv_insn::{BranchOp, ImmOp, RegOp, ShiftOp};
use rv_operators::{operators, operators_read_no_table};
use rv_runtime::{
    EXHAUSTED, GO, MEET, PUT_FALSE, PUT_INT, PUT_TRUE, routines, routines_are_uniform,
};
use rv_straight::{copy, words_behind};
use rv_word::Micro;
use rv_word::Register::{Context, Datum, First, Frame, Second, Third, Top, Zero};
use std::alloc::Global;

// The address of the stack.
const STACK_START: u64 = 1_073_741_824;

// The first word past those of integers from 0 on.
const PAST_INTEGERS: u64 = 9_223_372_036_854_775_808;

// A cell is read.
const READ: [Micro; 3] = [
    Micro::Window(Frame, 3),
    Micro::Get(Datum, Frame, 2),
    Micro::Jump(MEET),
];

// A cell is written.
const WRITE: [Micro; 6] = [
    Micro::Window(Context, 3),
    Micro::Get(Datum, Context, 2),
    Micro::Get(Context, Context, 1),
    Micro::Window(Frame, 3),
    Micro::Save(Frame, 2, Datum),
    Micro::Jump(MEET),
];

/// How many entries code has, and how many words its table has.
#[derive(Clone, Copy)]
pub struct Sizes {
    pub entries: u32,
    pub table_words: u32,
}

/// Appends all blocks of code.
pub fn add_blocks(
    alloc: Global,
    items: &mut Vec<Item>,
    sizes: Sizes,
    numbers: &Numbers<'_>,
) -> Result<(), OutOfMemory>
    ensures { OnOk result (AddsBlocks sizes 0 (word_code numbers.now).blocks items.old.items items.new.items) }
{
    add_callers(items, sizes)?;
    add_routines(alloc, items, sizes)?;
    add_operators(items, sizes)?;
    add_ends(items, sizes, numbers)?;
    add_bindings(items, sizes)?;
    add_output(items, sizes)?;
    add_counts(items, sizes)?;
    add_filling(items, sizes)?;
    add_elements(items, sizes)?;
    add_index(items, sizes, numbers, INDEX_READ_LABEL, READ_ELEMENT_ENTRY)?;
    add_index(
        items,
        sizes,
        numbers,
        INDEX_WRITE_LABEL,
        WRITE_ELEMENT_ENTRY,
    )?;
    add_items(alloc, items, sizes, numbers)
}

// A datum or a finished command meets the newest context, by the context's entry; and code goes on
// at the entry in `Datum`.
fn add_callers(items: &mut Vec<Item>, sizes: Sizes) -> Result<(), OutOfMemory>
    ensures { OnOk result (AddsBlocks sizes meet caller_blocks items.old.items items.new.items) }
{
    let meeting = [
        Micro::Window(Context, 1),
        Micro::Get(First, Context, 0),
        Micro::Enter(First),
    ];
    add(items, sizes, MEET, &meeting)?;
    add(items, sizes, GO, &[Micro::Enter(Datum)])
}

fn add_routines(alloc: Global, items: &mut Vec<Item>, sizes: Sizes) -> Result<(), OutOfMemory>
    ensures { OnOk result (AddsBlocks sizes EXHAUSTED routine_blocks items.old.items items.new.items) }
{
    routines_are_uniform();
    let mut routines = routines(alloc)?;
    items.append(&mut routines)?;
    Ok(())
}

fn add_operators(items: &mut Vec<Item>, sizes: Sizes) -> Result<(), OutOfMemory>
    ensures { OnOk result (AddsBlocks sizes first_operator (operator_blocks first_operator meet) items.old.items items.new.items) }
{
    operators_read_no_table();
    operators(items, sizes.entries, FIRST_OPERATOR, MEET)
}

// The start, which makes the stack's foot, and the end.
fn add_ends(items: &mut Vec<Item>, sizes: Sizes, numbers: &Numbers<'_>) -> Result<(), OutOfMemory>
    ensures { OnOk result (AddsBlocks sizes START_LABEL (take 2 (own_blocks numbers.now)) items.old.items items.new.items) }
{
    let start = [
        Micro::Set(Top, STACK_START),
        copy(Frame, Top),
        copy(Context, Top),
        Micro::Window(Top, 1),
        Micro::Set(First, word_of_entry(END_ENTRY)),
        Micro::Save(Top, 0, First),
        words_behind(Top, Top, 1),
        Micro::Jump(numbers.start(0).label),
    ];
    add(items, sizes, START_LABEL, &start)?;
    add(items, sizes, END_LABEL, &[Micro::End])
}

// Bindings that are entered: a datum, a cell that is read or written, an escape.
fn add_bindings(items: &mut Vec<Item>, sizes: Sizes) -> Result<(), OutOfMemory>
    ensures { (code : PeCode) → OnOk result (AddsBlocks sizes DATUM_LABEL (take 4 (drop 2 (own_blocks code))) items.old.items items.new.items) }
{
    let datum = [copy(Datum, Frame), Micro::Jump(MEET)];
    add(items, sizes, DATUM_LABEL, &datum)?;
    add(items, sizes, READ_LABEL, &READ)?;
    add(items, sizes, WRITE_LABEL, &WRITE)?;
    let leave = [
        Micro::Window(Frame, 3),
        Micro::Get(Context, Frame, 2),
        Micro::Jump(POP_LABEL),
    ];
    add(items, sizes, LEAVE_LABEL, &leave)
}

// Contexts that are met: one that a finished command answers, and those that put a datum.
fn add_output(items: &mut Vec<Item>, sizes: Sizes) -> Result<(), OutOfMemory>
    ensures { (code : PeCode) → OnOk result (AddsBlocks sizes POP_LABEL (take 4 (drop 6 (own_blocks code))) items.old.items items.new.items) }
{
    add_answered(items, sizes, POP_LABEL, &[Micro::Jump(MEET)])?;
    add_answered(items, sizes, PUT_INT_LABEL, &[Micro::Jump(PUT_INT)])?;
    add_answered(
        items,
        sizes,
        PUT_CHAR_LABEL,
        &[Micro::Put(Datum), Micro::Jump(MEET)],
    )?;
    let truth = [
        Micro::Test(BranchOp::Bne, Datum, Zero, PUT_TRUE),
        Micro::Jump(PUT_FALSE),
    ];
    add_answered(items, sizes, PUT_BOOL_LABEL, &truth)
}

// A block that answers the newest context first.
fn add_answered(
    items: &mut Vec<Item>,
    sizes: Sizes,
    label: u32,
    rest: &[Micro],
) -> Result<(), OutOfMemory>
    requires { IsTrue (are_near rest.now) }
    ensures { OnOk result (AddsBlocks sizes label ((answer ++ rest.now) ∷ []) items.old.items items.new.items) }
{
    let answer = [
        Micro::Window(Context, 2),
        copy(Top, Context),
        Micro::Get(Context, Context, 1),
    ];
    add(items, sizes, label, &answer)?;
    lower_all(items, sizes.entries, sizes.table_words, rest)
}

fn add(items: &mut Vec<Item>, sizes: Sizes, label: u32, block: &[Micro]) -> Result<(), OutOfMemory>
    requires { IsTrue (are_near block.now) }
    ensures { OnOk result (AddsBlocks sizes label (block.now ∷ []) items.old.items items.new.items) }
{
    lower_block(items, sizes.entries, sizes.table_words, label, block)
}

// The number of cells of a sequence is met.
fn add_counts(items: &mut Vec<Item>, sizes: Sizes) -> Result<(), OutOfMemory>
    ensures { (code : PeCode) → OnOk result (AddsBlocks sizes COUNT_LABEL (take 2 (sequence_blocks code)) items.old.items items.new.items) }
{
    let count = [
        Micro::Set(Second, PAST_INTEGERS),
        Micro::Test(BranchOp::Bgeu, Datum, Second, NO_COUNT_LABEL),
        Micro::Window(Context, 3),
        Micro::Get(Frame, Context, 2),
        Micro::Save(Context, 2, Datum),
        words_behind(First, First, 1),
        Micro::Save(Context, 0, First),
        words_behind(Top, Context, 4),
        copy(Second, Datum),
        copy(Datum, Zero),
        Micro::Test(BranchOp::Bne, Second, Zero, FILL_LABEL),
        Micro::Jump(FILLED_LABEL),
    ];
    add(items, sizes, COUNT_LABEL, &count)?;
    let below = [words_behind(First, First, 3), Micro::Enter(First)];
    add(items, sizes, NO_COUNT_LABEL, &below)
}

// One cell more is made; and a sequence all of whose cells are made goes on.
fn add_filling(items: &mut Vec<Item>, sizes: Sizes) -> Result<(), OutOfMemory>
    ensures { (code : PeCode) → OnOk result (AddsBlocks sizes FILL_LABEL (take 2 (drop 2 (sequence_blocks code))) items.old.items items.new.items) }
{
    let fill = [
        Micro::Room(1, EXHAUSTED),
        Micro::Window(Top, 1),
        Micro::Save(Top, 0, Zero),
        words_behind(Top, Top, 1),
        Micro::Imm(ImmOp::Addi, Datum, Datum, 1),
        Micro::Test(BranchOp::Bne, Datum, Second, FILL_LABEL),
        Micro::Jump(FILLED_LABEL),
    ];
    add(items, sizes, FILL_LABEL, &fill)?;
    let filled = [
        Micro::Window(Context, 1),
        Micro::Get(Third, Context, 0),
        words_behind(First, Third, 1),
        Micro::Save(Context, 0, First),
        words_behind(Second, Context, 2),
        Micro::Set(First, SEQUENCE_COLUMN),
        Micro::Enter(Third),
    ];
    add(items, sizes, FILLED_LABEL, &filled)
}

// An index is met, of a cell that is read or written or of none; a sequence's length is asked for; and
// there is no room for the context of an index.
fn add_elements(items: &mut Vec<Item>, sizes: Sizes) -> Result<(), OutOfMemory>
    ensures { (code : PeCode) → OnOk result (AddsBlocks sizes READ_ELEMENT_LABEL (take 5 (drop 4 (sequence_blocks code))) items.old.items items.new.items) }
{
    add_element(items, sizes, READ_ELEMENT_LABEL, &READ)?;
    add_element(items, sizes, WRITE_ELEMENT_LABEL, &WRITE)?;
    let outside = [
        Micro::Imm(ImmOp::Addi, First, First, -16),
        Micro::Window(First, 1),
        Micro::Get(First, First, 0),
        words_behind(First, First, 1),
        Micro::Enter(First),
    ];
    add(items, sizes, OUTSIDE_LABEL, &outside)?;
    let length = [
        Micro::Window(Context, 2),
        Micro::Get(Context, Context, 1),
        Micro::Window(Frame, 1),
        Micro::Get(Datum, Frame, 0),
        Micro::Jump(MEET),
    ];
    add(items, sizes, LENGTH_LABEL, &length)?;
    let no_room = [
        Micro::Window(Context, 4),
        Micro::Get(Second, Context, 2),
        Micro::Get(Frame, Context, 3),
        Micro::Set(First, ESCAPE_COLUMN),
        Micro::Test(BranchOp::Bne, Second, First, EXHAUSTED),
        Micro::Jump(LEAVE_LABEL),
    ];
    add(items, sizes, NO_ROOM_LABEL, &no_room)
}

// The block of an index, whose cell is read or written behind it.
fn add_element(
    items: &mut Vec<Item>,
    sizes: Sizes,
    label: u32,
    cell: &[Micro],
) -> Result<(), OutOfMemory>
    requires { IsTrue (are_near cell.now) }
    ensures { OnOk result (AddsBlocks sizes label (element_block cell.now ∷ []) items.old.items items.new.items) }
{
    let index = [
        Micro::Window(Context, 3),
        Micro::Get(First, Context, 2),
        copy(Top, Context),
        Micro::Get(Context, Context, 1),
        Micro::Window(First, 1),
        Micro::Get(Second, First, 0),
        Micro::Test(BranchOp::Bgeu, Datum, Second, OUTSIDE_LABEL),
        Micro::Shift(ShiftOp::Slli, Datum, Datum, 3),
        Micro::Alu(RegOp::Add, Frame, First, Datum),
    ];
    add(items, sizes, label, &index)?;
    lower_all(items, sizes.entries, sizes.table_words, cell)
}

// A cell of a sequence is entered: an index is taken, and entered at the shape of indices, if there is
// one, under a context with an entry.
fn add_index(
    items: &mut Vec<Item>,
    sizes: Sizes,
    numbers: &Numbers<'_>,
    label: u32,
    entry: u32,
) -> Result<(), OutOfMemory>
    ensures { OnOk result (AddsBlocks sizes label (index_block numbers.now entry numbers.now.sequences.value ∷ []) items.old.items items.new.items) }
{
    match numbers.code().sequences.value {
        Some(shape) => {
            let index = [
                Micro::Room(4, NO_ROOM_LABEL),
                Micro::Window(Top, 4),
                Micro::Save(Top, 2, Frame),
                Micro::Window(Context, 4),
                Micro::Get(Second, Context, 2),
                Micro::Get(Frame, Context, 3),
                Micro::Get(Context, Context, 1),
                Micro::Set(First, word_of_entry(entry)),
                Micro::Save(Top, 0, First),
                Micro::Save(Top, 1, Context),
                copy(Context, Top),
                words_behind(Top, Top, 4),
                Micro::Set(Third, numbers.row(shape)),
                Micro::Alu(RegOp::Add, Second, Second, Third),
                Micro::Look(Second, Second),
                Micro::Enter(Second),
            ];
            add(items, sizes, label, &index)
        }
        None => add(items, sizes, label, &[Micro::Jump(MEET)]),
    }
}

// The blocks of all items.
fn add_items(
    alloc: Global,
    items: &mut Vec<Item>,
    sizes: Sizes,
    numbers: &Numbers<'_>,
) -> Result<(), OutOfMemory>
    ensures { OnOk result (AddsBlocks sizes first_item (item_blocks numbers.now 0 numbers.now.items) items.old.items items.new.items) }
{
    let mut block = Vec::new(alloc);
    for (address, item) in numbers.code().items.as_slice().iter().enumerate() {
        let site = Site {
            numbers,
            address: address as u32,
            depth: item.depth,
        };
        add_item(items, &mut block, sizes, &site, &item.insn)?;
    }
    Ok(())
}

// The blocks of an instruction, each of which is made in `block`.
fn add_item(
    items: &mut Vec<Item>,
    block: &mut Vec<Micro>,
    sizes: Sizes,
    site: &Site<'_, '_>,
    insn: &PeInsn,
) -> Result<(), OutOfMemory>
    requires variable { ForSome (variable_of insn.now) (λ k. k < 512) }
    requires shape { ForSome (shape_of insn.now) (λ s. s < site.now.numbers.now.shapes) }
    requires straight { ForSome (straight_of insn.now) IsSmallStraight }
    ensures { OnOk result (AddsBlocks sizes (label_of site.now.numbers.now site.now.address) (blocks_at site.now insn.now) items.old.items items.new.items) }
{
    for number in 0..block_count(insn) {
        make_block(block, site, insn, number)?;
        add(items, sizes, site.label(number), block)?;
    }
    Ok(())
}
