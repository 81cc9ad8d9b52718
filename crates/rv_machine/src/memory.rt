//! Loads and stores, on the three regions of memory.

ghost use Rattle.std.specs.Prelude.{◌≡◌, ℕ, ◌+◌, ◌-◌, ◌*◌, ◌%◌, ◌^◌, ◌<◌, ◌≤◌, ◌++◌, List, length, drop, MatchResult};
ghost use Rattle.byteorder.specs.Endian.{little_number};
ghost use Rattle.rv_insn.specs.Memory.{lies_in, load_size, load_value, load, store_size, store_bytes, store};
ghost use Rattle.rv_insn.specs.Program.{Program, code_bytes, table_bytes};

use crate::operations::{byte_extended, half_extended, word_extended};
use byteorder::{ByteOrder, LittleEndian};
use fy_base::TrapKind;
use rv_insn::{LoadOp, StoreOp};

/// Where the code region begins.
pub const CODE: u64 = 65536;

/// Where the table region begins.
pub const TABLE: u64 = 536870912;

/// Where the stack region begins.
pub const STACK: u64 = 1073741824;

// Whether `size` bytes from an address on lie wholly in a region.
#[inline(always)]
fn is_within(start: u64, count: u64, address: u64, size: u64) -> bool
    requires start { 16 ≤ start }
    requires size { size ≤ 8 }
    ensures { result ≡ lies_in start count address size }
{
    address >= start && address - start + size <= count
}

// How many bytes a load reads.
#[inline(always)]
#[tactic(auto, unfolding(rv_insn::specs::Memory::load_size))]
fn size_of_load(op: LoadOp) -> u64
    ensures size { result ≡ load_size op }
    ensures some { 0 < result }
    ensures few { result ≤ 8 }
{
    match op {
        LoadOp::Lb | LoadOp::Lbu => 1,
        LoadOp::Lh | LoadOp::Lhu => 2,
        LoadOp::Lw | LoadOp::Lwu => 4,
        LoadOp::Ld => 8,
    }
}

// How many bytes a store writes.
#[inline(always)]
#[tactic(auto, unfolding(rv_insn::specs::Memory::store_size))]
fn size_of_store(op: StoreOp) -> u64
    ensures size { result ≡ store_size op }
    ensures some { 0 < result }
    ensures few { result ≤ 8 }
{
    match op {
        StoreOp::Sb => 1,
        StoreOp::Sh => 2,
        StoreOp::Sw => 4,
        StoreOp::Sd => 8,
    }
}

// What a load makes of bytes.
#[inline(always)]
#[tactic(auto, unfolding(rv_insn::specs::Memory::load_size, rv_insn::specs::Memory::load_value))]
fn value_of_bytes(op: LoadOp, bytes: &[u8]) -> u64
    requires { load_size op ≤ length bytes.now }
    ensures { result ≡ load_value op bytes.now }
{
    match op {
        LoadOp::Lb => byte_extended(bytes[0] as u64),
        LoadOp::Lh => half_extended(LittleEndian::read_u16(bytes) as u64),
        LoadOp::Lw => word_extended(LittleEndian::read_u32(bytes) as u64),
        LoadOp::Ld => LittleEndian::read_u64(bytes),
        LoadOp::Lbu => bytes[0] as u64,
        LoadOp::Lhu => LittleEndian::read_u16(bytes) as u64,
        LoadOp::Lwu => LittleEndian::read_u32(bytes) as u64,
    }
}

// What a load makes of bytes whose number is the low part of this one.
#[inline(always)]
#[tactic(auto, unfolding(rv_insn::specs::Memory::load_size, rv_insn::specs::Memory::load_value))]
fn value_of_number(op: LoadOp, number: u64) -> u64
    ensures { (bytes : List ℕ) → little_number (load_size op) bytes ≡ number % 256 ^ load_size op → result ≡ load_value op bytes }
{
    match op {
        LoadOp::Lb => byte_extended(number),
        LoadOp::Lh => half_extended(number),
        LoadOp::Lw => word_extended(number),
        LoadOp::Ld => number,
        LoadOp::Lbu => number % 256,
        LoadOp::Lhu => number % 65536,
        LoadOp::Lwu => number % 0x1_0000_0000,
    }
}

// What a load reads in the table, so many bytes behind its start.
#[inline(always)]
fn value_in_table(op: LoadOp, table: &[u64], offset: u64) -> u64
    requires aligned { offset % load_size op ≡ 0 }
    requires inside { offset + load_size op ≤ 8 * length table.now }
    ensures { (program : Program) → program.table ≡ table.now → result ≡ load_value op (drop offset (table_bytes program)) }
{
    value_of_number(op, table[(offset / 8) as usize] >> (8 * (offset % 8)))
}

// The same in the code.
#[inline(always)]
fn value_in_code(op: LoadOp, words: &[u32], offset: u64) -> u64
    requires aligned { offset % load_size op ≡ 0 }
    requires inside { offset + load_size op ≤ 4 * length words.now }
    ensures { (program : Program) → program.words ≡ words.now → result ≡ load_value op (drop offset (code_bytes program)) }
{
    let k = (offset / 4) as usize;
    let low = words[k] as u64;
    if size_of_load(op) == 8 {
        return value_of_number(op, low + 0x1_0000_0000 * words[k + 1] as u64);
    }
    value_of_number(op, low >> (8 * (offset % 4)))
}

/// What a load reads, or its trap. An address that isn't a multiple of the load's size is judged
/// first, and then one whose bytes don't all lie in one region.
#[inline(always)]
pub fn load(
    words: &[u32],
    table: &[u64],
    stack: &[u8],
    op: LoadOp,
    address: u64,
) -> Result<u64, TrapKind>
    requires words { length words.now ≤ 4194304 }
    requires table { length table.now ≤ 1048576 }
    ensures { (program : Program) → program.words ≡ words.now → program.table ≡ table.now → load program stack.now op address ≡ result }
{
    let size = size_of_load(op);
    if address % size != 0 {
        return Err(TrapKind::LoadAlign);
    }
    if is_within(STACK, stack.len() as u64, address, size) {
        return Ok(value_of_bytes(op, &stack[(address - STACK) as usize..]));
    }
    if is_within(TABLE, 8 * table.len() as u64, address, size) {
        return Ok(value_in_table(op, table, address - TABLE));
    }
    if is_within(CODE, 4 * words.len() as u64, address, size) {
        return Ok(value_in_code(op, words, address - CODE));
    }
    Err(TrapKind::LoadRange)
}

// Writes the bytes of a store at the beginning.
#[inline(always)]
#[tactic(auto, unfolding(rv_insn::specs::Memory::store_size, rv_insn::specs::Memory::store_bytes))]
fn put_bytes(bytes: &mut [u8], op: StoreOp, value: u64)
    requires { store_size op ≤ length bytes.old }
    ensures { bytes.new ≡ store_bytes op value ++ drop (store_size op) bytes.old }
{
    match op {
        StoreOp::Sb => bytes[0] = (value % 256) as u8,
        StoreOp::Sh => LittleEndian::write_u16(bytes, (value % 65536) as u16),
        StoreOp::Sw => LittleEndian::write_u32(bytes, (value % 0x1_0000_0000) as u32),
        StoreOp::Sd => LittleEndian::write_u64(bytes, value),
    }
}

/// Stores the low bytes of a value, or gives the trap, which leaves the stack as it was. The
/// alignment is judged first, and the stack is the only region for stores.
#[inline(always)]
pub fn store(stack: &mut [u8], op: StoreOp, address: u64, value: u64) -> Result<(), TrapKind>
    ensures { MatchResult result (λ _. store stack.old op address value ≡ Ok stack.new) (λ trap. (store stack.old op address value ≡ Err trap) × (stack.new ≡ stack.old)) }
{
    let size = size_of_store(op);
    if address % size != 0 {
        return Err(TrapKind::StoreAlign);
    }
    if is_within(STACK, stack.len() as u64, address, size) {
        put_bytes(&mut stack[(address - STACK) as usize..], op, value);
        return Ok(());
    }
    Err(TrapKind::StoreRange)
}
