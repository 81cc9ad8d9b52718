//! The table: where each thunk node, and each of the other bindings, is entered at each shape.

ghost use Rattle.std.specs.Prelude.{◌≡◌, ◌++◌, if◌then◌else◌, IfOk, OnOk};
ghost use Rattle.pe_code.specs.Code.{entry_of};
ghost use Rattle.pe_machine.specs.Step.{is_assignment};
ghost use Rattle.rv_select.specs.Numbers.{entry_word};
ghost use Rattle.rv_select.specs.Program.{node_word, row, sequence_word, word_code};

use crate::fixed::{
    DATUM_ENTRY, END_ENTRY, INDEX_READ_ENTRY, INDEX_WRITE_ENTRY, LEAVE_ENTRY, LENGTH_ENTRY,
    READ_ENTRY, WRITE_ENTRY,
};
use crate::numbers::Numbers;
use crate::parts::word_of_entry;
use fy_base::{DoubleList, OutOfMemory};
use pe_code::PeCode;
use std::alloc::Global;

/// The words of the table of code, shape by shape.
pub fn table_of(alloc: Global, numbers: &Numbers<'_>) -> Result<DoubleList, OutOfMemory>
    ensures { IfOk result (λ table. table ≡ (word_code numbers.now).table) }
{
    let mut words = Vec::new(alloc);
    for shape in 0..numbers.code().shapes {
        add_row(&mut words, numbers, shape)?;
    }
    Ok(DoubleList::from_vec(words))
}

fn add_row(words: &mut Vec<u64>, numbers: &Numbers<'_>, shape: u32) -> Result<(), OutOfMemory>
    ensures { OnOk result (words.new.items ≡ words.old.items ++ row numbers.now shape) }
{
    let code = numbers.code();
    words.extend_from_slice(&[
        word_of_entry(DATUM_ENTRY),
        word_if(
            code.assignment,
            shape,
            WRITE_ENTRY,
            word_of_entry(READ_ENTRY),
        ),
        word_of_entry(LEAVE_ENTRY),
        word_of_sequence(code, shape),
    ])?;
    for node in code.thunks.as_slice() {
        words.push(word_of_node(numbers, *node, shape))?;
    }
    Ok(())
}

// The entry of a sequence of cells, by what is asked of it. One of which nothing is asked is never
// entered there.
fn word_of_sequence(code: &PeCode, shape: u32) -> u64
    ensures { result ≡ sequence_word code.now shape }
{
    let shapes = code.sequences;
    let length = word_if(
        shapes.row_length,
        shape,
        LENGTH_ENTRY,
        word_of_entry(END_ENTRY),
    );
    let written = word_if(shapes.assigned_element, shape, INDEX_WRITE_ENTRY, length);
    word_if(shapes.element, shape, INDEX_READ_ENTRY, written)
}

// The word of an entry where the shape is the one that is meant, and else another.
fn word_if(meant: Option<u32>, shape: u32, entry: u32, other: u64) -> u64
    ensures { result ≡ (if is_assignment meant shape then entry_word entry else other) }
{
    match meant {
        Some(number) if number == shape => word_of_entry(entry),
        _ => other,
    }
}

// The entry of a node. One that has none at the shape is never entered there.
fn word_of_node(numbers: &Numbers<'_>, node: u32, shape: u32) -> u64
    ensures { result ≡ node_word numbers.now (entry_of numbers.now node shape) }
{
    match numbers.code().entry(node, shape) {
        Some(address) => word_of_entry(numbers.start(address).entry),
        None => word_of_entry(END_ENTRY),
    }
}
