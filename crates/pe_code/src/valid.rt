//! Which code is valid.

ghost use Rattle.std.specs.Prelude.{◌≡◌, ℕ, ◌+◌, ◌*◌, ◌<◌, ◌≤◌, ◌↔◌, All, IfSome, IsTrue, Some, None, nat_lt, if◌then◌else◌, length};
ghost use Rattle.std.specs.Option.{ForSome};
ghost use Rattle.pe_code.specs.Entries.{AreInOrder};
ghost use Rattle.pe_code.specs.Code.{beside, node_of, served_by, straight_of};
ghost use Rattle.pe_code.specs.Straight.{height_after, height_with as height_with_part};
ghost use Rattle.pe_code.specs.Valid.{LeadsTo, IsThunkNode, IsSoundPart, IsSoundStraight, IsSoundItem, all_picked_from, parts_run_by, all_parts_run, places_in, all_places_in, IsSoundEntry, AreOnce, IsValid, asked_shapes};

use crate::code::{Entry, PeCode, PeInsn, PeItem, Purpose, StraightPart};

const MOST_ITEMS: usize = 65_536;

const MOST_DEPTH: u32 = 512;

const MOST_WORDS: usize = 1_048_576;

const MOST_PARTS: usize = 16;

/// Whether the machine and the selection take the code: it has 1 to 65,536 items, of which the first stands under no
/// binder; each item is at most 512 deep, and all that it names is there, at the depth that it asks for; the items pick
/// from no more parts together than there are items, and straight code, which leaves one datum, has no more parts
/// together than there are items that run it or do nothing; each entry leads to an item, and has a shape that is there and a
/// node that has no other entry for it; and the table of all shapes and thunk nodes has at most 1,048,576 words. It
/// takes no memory.
pub fn is_valid(code: &PeCode) -> bool
    ensures { IsTrue result ↔ IsValid code.now }
{
    let items = code.items.as_slice();
    let entries = code.entries.as_slice();
    is_item_count(items.len())
        && leads_to(code, 0, 0)
        && are_sound_items(code, items)
        && have_few_parts(items)
        && are_sound_entries(code, entries)
        && are_once(entries)
        && are_sound_shapes(code)
        && are_few_words(code.shapes, code.thunks.as_slice())
}

fn is_item_count(count: usize) -> bool
    ensures { IsTrue result ↔ ((1 ≤ count) × (count ≤ 65536)) }
{
    (1..=MOST_ITEMS).contains(&count)
}

// Whether the address leads to an item of the depth.
fn leads_to(code: &PeCode, depth: u32, address: u32) -> bool
    ensures { IsTrue result ↔ LeadsTo code.now depth address }
{
    match code.items.as_slice().get(address as usize) {
        Some(item) => item.depth == depth,
        None => false,
    }
}

fn all_lead(code: &PeCode, depth: u32, addresses: &[u32]) -> bool
    ensures { IsTrue result ↔ All (LeadsTo code.now depth) addresses.now }
{
    for address in addresses {
        if !leads_to(code, depth, *address) {
            return false;
        }
    }
    true
}

fn all_entries_lead(code: &PeCode, depth: u32, entries: &[Entry]) -> bool
    ensures { IsTrue result ↔ All (λ e. LeadsTo code.now depth e.address) entries.now }
{
    for entry in entries {
        if !leads_to(code, depth, entry.address) {
            return false;
        }
    }
    true
}

fn are_sound_items(code: &PeCode, items: &[PeItem]) -> bool
    ensures { IsTrue result ↔ All (IsSoundItem code.now) items.now }
{
    items.iter().all(|item| is_sound_item(code, item))
}

fn is_sound_item(code: &PeCode, item: &PeItem) -> bool
    ensures { IsTrue result ↔ IsSoundItem code.now item.now }
{
    item.depth <= MOST_DEPTH
        && has_sound_parts(code, item.depth, &item.insn)
        && has_sound_body(code, item.depth + 1, item.insn.body())
        && is_below(item.insn.variable(), item.depth)
        && is_below(item.insn.shape(), code.shapes)
        && has_sound_rest(code, item.depth, &item.insn)
}

fn has_sound_parts(code: &PeCode, depth: u32, insn: &PeInsn) -> bool
    ensures { IsTrue result ↔ All (LeadsTo code.now depth) (beside insn.now) }
{
    match insn {
        PeInsn::Op1(_, x)
        | PeInsn::Pass(_, x)
        | PeInsn::PassVar(_, x)
        | PeInsn::PassData(_, x)
        | PeInsn::Field(_, x)
        | PeInsn::Pick(_, x)
        | PeInsn::Loop(x)
        | PeInsn::New(x, _)
        | PeInsn::Cells(x, _)
        | PeInsn::Put(_, x)
        | PeInsn::Read(x) => all_lead(code, depth, &[*x]),
        PeInsn::Op2(_, x, y) | PeInsn::Seq(x, y) | PeInsn::Assign(x, y) | PeInsn::While(x, y) =>
            all_lead(code, depth, &[*x, *y]),
        PeInsn::Cond(x, y, z) => all_lead(code, depth, &[*x, *y, *z]),
        PeInsn::Case(x, parts) => {
            leads_to(code, depth, *x) && all_lead(code, depth, parts.as_slice())
        }
        PeInsn::EvalFor(_, purpose) => has_sound_purpose(code, depth, *purpose),
        PeInsn::UseVar(..)
        | PeInsn::Answer(_)
        | PeInsn::Bind(_)
        | PeInsn::Let(..)
        | PeInsn::LetVar(..)
        | PeInsn::LetData(..)
        | PeInsn::Knot(..)
        | PeInsn::Done
        | PeInsn::Escape(_)
        | PeInsn::Accept(_)
        | PeInsn::Eval(_)
        | PeInsn::Set(..) => true,
    }
}

fn has_sound_purpose(code: &PeCode, depth: u32, purpose: Purpose) -> bool
    ensures { IsTrue result ↔ All (LeadsTo code.now depth) (served_by purpose) }
{
    match purpose {
        Purpose::Choose(x, y) => all_lead(code, depth, &[x, y]),
        Purpose::Repeat(x) => all_lead(code, depth, &[x]),
        Purpose::Store(x) => all_lead(code, depth, &[x]),
        Purpose::Write(_) => true,
    }
}

fn has_sound_body(code: &PeCode, depth: u32, body: Option<u32>) -> bool
    ensures { IsTrue result ↔ ForSome body (LeadsTo code.now depth) }
{
    match body {
        Some(address) => leads_to(code, depth, address),
        None => true,
    }
}

fn has_sound_node(code: &PeCode, depth: u32, node: Option<u32>) -> bool
    ensures { IsTrue result ↔ ForSome node (IsThunkNode code.now depth) }
{
    match node {
        Some(node) => is_thunk_node(code, depth, node),
        None => true,
    }
}

// Whether its node and its straight code are sound.
fn has_sound_rest(code: &PeCode, depth: u32, insn: &PeInsn) -> bool
    ensures { IsTrue result ↔ (ForSome (node_of insn.now) (IsThunkNode code.now depth) × ForSome (straight_of insn.now) (IsSoundStraight code.now depth)) }
{
    has_sound_node(code, depth, insn.node()) && has_sound_straight(code, depth, insn)
}

fn has_sound_straight(code: &PeCode, depth: u32, insn: &PeInsn) -> bool
    ensures { IsTrue result ↔ ForSome (straight_of insn.now) (IsSoundStraight code.now depth) }
{
    match insn {
        PeInsn::Eval(parts) => is_sound_straight(code, depth, parts.as_slice()),
        PeInsn::Set(_, parts) => is_sound_straight(code, depth, parts.as_slice()),
        PeInsn::EvalFor(parts, _) => is_sound_straight(code, depth, parts.as_slice()),
        _ => true,
    }
}

fn is_sound_straight(code: &PeCode, depth: u32, parts: &[StraightPart]) -> bool
    ensures { IsTrue result ↔ IsSoundStraight code.now depth parts.now }
{
    parts.len() <= MOST_PARTS && leave_one(parts) && are_sound_parts(code, depth, parts)
}

fn are_sound_parts(code: &PeCode, depth: u32, parts: &[StraightPart]) -> bool
    ensures { IsTrue result ↔ All (IsSoundPart code.now depth) parts.now }
{
    parts.iter().all(|part| is_sound_part(code, depth, *part))
}

fn is_sound_part(code: &PeCode, depth: u32, part: StraightPart) -> bool
    ensures { IsTrue result ↔ IsSoundPart code.now depth part }
{
    match part {
        StraightPart::Literal(_) => true,
        StraightPart::Cell(variable) => variable < depth,
        StraightPart::Unary(_, address) => leads_to(code, depth, address),
        StraightPart::Binary(_, address) => leads_to(code, depth, address),
    }
}

/// Whether the parts leave one datum on a stack of at most three.
pub fn leave_one(parts: &[StraightPart]) -> bool
    ensures { IsTrue result ↔ (height_after parts.now 0 ≡ Some 1) }
{
    let mut height = 0;
    for part in parts {
        match height_with(*part, height) {
            Some(next) => height = next,
            None => return false,
        }
    }
    height == 1
}

// How many data stand on the stack after a part.
fn height_with(part: StraightPart, height: u32) -> Option<u32>
    requires { height ≤ 3 }
    ensures height { result ≡ height_with_part part height }
    ensures few { IfSome result (λ next. next ≤ 3) }
{
    match part {
        StraightPart::Literal(_) => one_more(height),
        StraightPart::Cell(_) => one_more(height),
        StraightPart::Unary(..) => {
            if height < 1 {
                return None;
            }
            Some(height)
        }
        StraightPart::Binary(..) => {
            if height < 2 {
                return None;
            }
            Some(height - 1)
        }
    }
}

// A datum more, where it fits.
fn one_more(height: u32) -> Option<u32>
    requires { height ≤ 3 }
    ensures height { result ≡ (if nat_lt height 3 then Some (height + 1) else None) }
    ensures few { IfSome result (λ next. next ≤ 3) }
{
    if height < 3 {
        return Some(height + 1);
    }
    None
}

fn is_thunk_node(code: &PeCode, depth: u32, node: u32) -> bool
    ensures { IsTrue result ↔ IsThunkNode code.now depth node }
{
    code.thunks.has(node) && all_entries_lead(code, depth, code.entries.of_node(node))
}

// Whether a number, if there is one, is below the bound.
fn is_below(number: Option<u32>, bound: u32) -> bool
    ensures { IsTrue result ↔ ForSome number (λ n. n < bound) }
{
    match number {
        Some(number) => number < bound,
        None => true,
    }
}

// Whether the numbers of shapes are below their count.
fn are_sound_shapes(code: &PeCode) -> bool
    ensures { IsTrue result ↔ All (λ o. ForSome o (λ s. s < code.now.shapes)) (asked_shapes code.now) }
{
    let shapes = code.sequences;
    let asked = [
        code.assignment,
        shapes.value,
        shapes.element,
        shapes.assigned_element,
        shapes.row_length,
    ];
    are_below(&asked, code.shapes)
}

fn are_below(numbers: &[Option<u32>], bound: u32) -> bool
    ensures { IsTrue result ↔ All (λ o. ForSome o (λ n. n < bound)) numbers.now }
{
    numbers.iter().all(|number| is_below(*number, bound))
}

// Whether the items pick from few parts, and run few.
fn have_few_parts(items: &[PeItem]) -> bool
    ensures { IsTrue result ↔ ((all_picked_from items.now ≤ length items.now) × (all_parts_run items.now ≤ all_places_in items.now)) }
{
    are_few_parts(items) && run_few_parts(items)
}

// Whether straight code has no more parts, all together, than there are items that run it or do nothing.
fn run_few_parts(items: &[PeItem]) -> bool
    ensures { IsTrue result ↔ (all_parts_run items.now ≤ all_places_in items.now) }
{
    let mut room = count_places(items);
    for item in items {
        let count = parts_run_by(&item.insn);
        if count > room {
            return false;
        }
        room -= count;
    }
    true
}

fn count_places(items: &[PeItem]) -> usize
    ensures { result ≡ all_places_in items.now }
{
    let mut count = 0;
    for item in items {
        count += places_in(&item.insn);
    }
    count
}

fn parts_run_by(insn: &PeInsn) -> usize
    ensures { result ≡ parts_run_by insn.now }
{
    match insn {
        PeInsn::Eval(parts) => parts.len(),
        PeInsn::Set(_, parts) => parts.len(),
        PeInsn::EvalFor(parts, _) => parts.len(),
        _ => 0,
    }
}

fn places_in(insn: &PeInsn) -> usize
    ensures { result ≡ places_in insn.now }
{
    match insn {
        PeInsn::Eval(_) | PeInsn::Set(..) | PeInsn::EvalFor(..) | PeInsn::Done => 1,
        _ => 0,
    }
}

// Whether the items pick from no more parts, all together, than there are items.
fn are_few_parts(items: &[PeItem]) -> bool
    ensures { IsTrue result ↔ (all_picked_from items.now ≤ length items.now) }
{
    let mut room = items.len();
    for item in items {
        let count = item.insn.picked_from().len();
        if count > room {
            return false;
        }
        room -= count;
    }
    true
}

fn are_sound_entries(code: &PeCode, entries: &[Entry]) -> bool
    ensures { IsTrue result ↔ All (IsSoundEntry code.now) entries.now }
{
    entries.iter().all(|entry| is_sound_entry(code, *entry))
}

fn is_sound_entry(code: &PeCode, entry: Entry) -> bool
    ensures { IsTrue result ↔ IsSoundEntry code.now entry }
{
    (entry.address as usize) < code.items.len() && entry.shape < code.shapes
}

// Whether no two entries have the same node and shape. Those that have stand together.
fn are_once(entries: &[Entry]) -> bool
    requires { AreInOrder entries.now }
    ensures { IsTrue result ↔ AreOnce entries.now }
{
    for i in 1..entries.len() {
        if !entries[i - 1].is_before(entries[i].node, entries[i].shape) {
            return false;
        }
    }
    true
}

fn are_few_words(shapes: u32, thunks: &[u32]) -> bool
    ensures { IsTrue result ↔ (shapes * (4 + length thunks.now) ≤ 1048576) }
{
    match (shapes as usize).checked_mul(thunks.len() + 4) {
        Some(words) => words <= MOST_WORDS,
        None => false,
    }
}
