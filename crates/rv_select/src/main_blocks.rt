//! The own blocks of items, one function for each form.

ghost use Rattle.std.specs.Prelude.{◌≡◌, ℕ, ◌+◌, ◌<◌, ◌≤◌, [], ◌∷◌, ◌++◌, length, All, OnOk};
ghost use Rattle.std.specs.Option.{ForSome};
ghost use Rattle.pe_code.specs.declared.code.Purpose.{Purpose};
ghost use Rattle.pe_code.specs.Code.{shape_of, straight_of, variable_of};
ghost use Rattle.rv_straight.specs.Laws.{IsNear};
ghost use Rattle.rv_straight.specs.Straight.{straight_code};
ghost use Rattle.rv_select.specs.Numbers.{faults_from, label_of};
ghost use Rattle.rv_select.specs.Blocks.{eval_block, main_block, open_argument, purpose_block, put_block, put_entry, set_block};
ghost use Rattle.rv_select.specs.Emission.{Adds, IsSmallStraight};

use crate::fixed::{
    DATUM_COLUMN, ESCAPE_COLUMN, POP_ENTRY, PUT_BOOL_ENTRY, PUT_CHAR_ENTRY, PUT_INT_ENTRY,
};
use crate::numbers::faults_from;
use crate::parts::{
    add_at_top, add_bind, add_open_context, add_open_frame, add_push, add_push_frame, word_of_entry,
};
use crate::sites::Site;
use fy_base::{Datum as Value, OutOfMemory, PutKind};
use pe_code::{PeInsn, Purpose, StraightPart};
use pe_frame::plan_frame;
use rv_insn::{BranchOp, RegOp};
use rv_runtime::{EXHAUSTED, MEET, PUT_FALSE, PUT_INT, PUT_TRUE};
use rv_straight::{add_reach, add_straight, copy, word_of, words_behind};
use rv_word::Micro;
use rv_word::Register::{Context, Datum, First, Frame, Second, Third, Top, Zero};

/// A variable that is entered at a shape.
pub fn add_use(
    block: &mut Vec<Micro>,
    site: &Site<'_, '_>,
    variable: u32,
    shape: u32,
) -> Result<(), OutOfMemory>
    requires variable { variable < 512 }
    requires shape { shape < site.now.numbers.now.shapes }
    ensures { OnOk result (Adds site.now (λ code a d. main_block code a d (PeInsn.UseVar variable shape)) block.old.items block.new.items) }
{
    add_reach(block, First, variable)?;
    block.extend_from_slice(&[
        Micro::Window(First, 2),
        Micro::Get(Second, First, 0),
        Micro::Get(Frame, First, 1),
        Micro::Set(Third, site.numbers.row(shape)),
        Micro::Alu(RegOp::Add, Second, Second, Third),
        Micro::Look(Second, Second),
        Micro::Enter(Second),
    ])?;
    Ok(())
}

/// A datum.
pub fn add_datum(
    block: &mut Vec<Micro>,
    site: &Site<'_, '_>,
    value: Value,
) -> Result<(), OutOfMemory>
    ensures { OnOk result (Adds site.now (λ code a d. main_block code a d (PeInsn.Answer value)) block.old.items block.new.items) }
{
    block.extend_from_slice(&[Micro::Set(Datum, word_of(value)), Micro::Jump(MEET)])?;
    Ok(())
}

/// An argument that is taken for a body.
pub fn add_argument(
    block: &mut Vec<Micro>,
    site: &Site<'_, '_>,
    body: u32,
) -> Result<(), OutOfMemory>
    ensures { OnOk result (Adds site.now (λ code a d. main_block code a d (PeInsn.Bind body)) block.old.items block.new.items) }
{
    block.extend_from_slice(&[
        Micro::Window(Context, 4),
        Micro::Get(First, Context, 2),
        Micro::Get(Second, Context, 3),
        Micro::Get(Context, Context, 1),
    ])?;
    add_bind(block, site.depth, site.start(body))
}

/// A thunk that is passed to a procedure.
pub fn add_pass(
    block: &mut Vec<Micro>,
    site: &Site<'_, '_>,
    node: u32,
    procedure: u32,
) -> Result<(), OutOfMemory>
    ensures { OnOk result (Adds site.now (λ code a d. main_block code a d (PeInsn.Pass node procedure)) block.old.items block.new.items) }
{
    add_at_top(block)?;
    block.extend_from_slice(&[
        Micro::Save(Top, 1, Context),
        Micro::Set(First, site.numbers.column(node)),
        Micro::Save(Top, 2, First),
        Micro::Save(Top, 3, Frame),
    ])?;
    add_open_context(block, site.start(procedure).label)
}

/// What a variable is bound to, passed to a procedure.
pub fn add_pass_variable(
    block: &mut Vec<Micro>,
    site: &Site<'_, '_>,
    variable: u32,
    procedure: u32,
) -> Result<(), OutOfMemory>
    requires { variable < 512 }
    ensures { OnOk result (Adds site.now (λ code a d. main_block code a d (PeInsn.PassVar variable procedure)) block.old.items block.new.items) }
{
    add_reach(block, First, variable)?;
    block.extend_from_slice(&[
        Micro::Window(First, 2),
        Micro::Get(Second, First, 0),
        Micro::Get(Third, First, 1),
    ])?;
    add_at_top(block)?;
    block.extend_from_slice(&[
        Micro::Save(Top, 1, Context),
        Micro::Save(Top, 2, Second),
        Micro::Save(Top, 3, Third),
    ])?;
    add_open_context(block, site.start(procedure).label)
}

/// A datum that is passed to a procedure.
pub fn add_pass_datum(
    block: &mut Vec<Micro>,
    site: &Site<'_, '_>,
    value: Value,
    procedure: u32,
) -> Result<(), OutOfMemory>
    ensures { OnOk result (Adds site.now (λ code a d. main_block code a d (PeInsn.PassData value procedure)) block.old.items block.new.items) }
{
    add_at_top(block)?;
    block.extend_from_slice(&[
        Micro::Save(Top, 1, Context),
        Micro::Set(First, DATUM_COLUMN),
        Micro::Set(Second, word_of(value)),
    ])?;
    add_open_argument(block, site.start(procedure).label)
}

// The context of an argument at `Top`, whose binding is in `First` and `Second`, is the newest.
fn add_open_argument(block: &mut Vec<Micro>, label: u32) -> Result<(), OutOfMemory>
    ensures { OnOk result (block.new.items ≡ block.old.items ++ open_argument label) }
{
    block.extend_from_slice(&[Micro::Save(Top, 2, First), Micro::Save(Top, 3, Second)])?;
    add_open_context(block, label)
}

/// A field that the newest context selects.
pub fn add_field(block: &mut Vec<Micro>, site: &Site<'_, '_>, part: u32) -> Result<(), OutOfMemory>
    ensures { (name : ℕ) → OnOk result (Adds site.now (λ code a d. main_block code a d (PeInsn.Field name part)) block.old.items block.new.items) }
{
    block.extend_from_slice(&[
        Micro::Window(Context, 2),
        Micro::Get(Context, Context, 1),
        Micro::Jump(site.start(part).label),
    ])?;
    Ok(())
}

/// A field that is selected.
pub fn add_pick(block: &mut Vec<Micro>, site: &Site<'_, '_>, whole: u32) -> Result<(), OutOfMemory>
    ensures { (name : ℕ) → OnOk result (Adds site.now (λ code a d. main_block code a d (PeInsn.Pick name whole)) block.old.items block.new.items) }
{
    add_at_top(block)?;
    block.push(Micro::Save(Top, 1, Context))?;
    add_open_context(block, site.start(whole).label)
}

/// A thunk that is bound for a body.
pub fn add_let(
    block: &mut Vec<Micro>,
    site: &Site<'_, '_>,
    node: u32,
    body: u32,
) -> Result<(), OutOfMemory>
    ensures { OnOk result (Adds site.now (λ code a d. main_block code a d (PeInsn.Let node body)) block.old.items block.new.items) }
{
    block.extend_from_slice(&[
        Micro::Set(First, site.numbers.column(node)),
        copy(Second, Frame),
    ])?;
    add_bind(block, site.depth, site.start(body))
}

/// What a variable is bound to, bound for a body.
pub fn add_let_variable(
    block: &mut Vec<Micro>,
    site: &Site<'_, '_>,
    variable: u32,
    body: u32,
) -> Result<(), OutOfMemory>
    requires { variable < 512 }
    ensures { OnOk result (Adds site.now (λ code a d. main_block code a d (PeInsn.LetVar variable body)) block.old.items block.new.items) }
{
    add_reach(block, First, variable)?;
    block.extend_from_slice(&[
        Micro::Window(First, 2),
        Micro::Get(Second, First, 1),
        Micro::Get(First, First, 0),
    ])?;
    add_bind(block, site.depth, site.start(body))
}

/// A datum that is bound for a body.
pub fn add_let_datum(
    block: &mut Vec<Micro>,
    site: &Site<'_, '_>,
    value: Value,
    body: u32,
) -> Result<(), OutOfMemory>
    ensures { OnOk result (Adds site.now (λ code a d. main_block code a d (PeInsn.LetData value body)) block.old.items block.new.items) }
{
    block.extend_from_slice(&[
        Micro::Set(First, DATUM_COLUMN),
        Micro::Set(Second, word_of(value)),
    ])?;
    add_bind(block, site.depth, site.start(body))
}

/// An escape, whose frame stands above the context that a jump to it answers.
pub fn add_escape(block: &mut Vec<Micro>, site: &Site<'_, '_>, body: u32) -> Result<(), OutOfMemory>
    ensures { OnOk result (Adds site.now (λ code a d. main_block code a d (PeInsn.Escape body)) block.old.items block.new.items) }
{
    let words = 4 + plan_frame(site.depth).words as u16;
    block.extend_from_slice(&[
        Micro::Room(words, EXHAUSTED),
        Micro::Window(Top, 7),
        Micro::Set(First, word_of_entry(POP_ENTRY)),
        Micro::Save(Top, 0, First),
        Micro::Save(Top, 1, Context),
        copy(Context, Top),
        words_behind(Top, Top, 4),
    ])?;
    block.extend_from_slice(&[
        Micro::Set(First, ESCAPE_COLUMN),
        Micro::Save(Top, 0, First),
        Micro::Save(Top, 1, Top),
        Micro::Save(Top, 2, Context),
    ])?;
    add_open_frame(block, site.depth, site.start(body))
}

/// An assigned value that is taken for a body.
pub fn add_accept(block: &mut Vec<Micro>, site: &Site<'_, '_>, body: u32) -> Result<(), OutOfMemory>
    ensures { OnOk result (Adds site.now (λ code a d. main_block code a d (PeInsn.Accept body)) block.old.items block.new.items) }
{
    block.extend_from_slice(&[
        Micro::Window(Context, 3),
        Micro::Get(Second, Context, 2),
        Micro::Get(Context, Context, 1),
        Micro::Set(First, DATUM_COLUMN),
    ])?;
    add_bind(block, site.depth, site.start(body))
}

/// A byte that is read and assigned.
pub fn add_read(block: &mut Vec<Micro>, site: &Site<'_, '_>, target: u32) -> Result<(), OutOfMemory>
    ensures { OnOk result (Adds site.now (λ code a d. main_block code a d (PeInsn.Read target)) block.old.items block.new.items) }
{
    add_at_top(block)?;
    block.extend_from_slice(&[
        Micro::Take(First),
        Micro::Save(Top, 1, Context),
        Micro::Save(Top, 2, First),
    ])?;
    add_open_context(block, site.start(target).label)
}

/// Straight code whose datum is in focus then.
pub fn add_eval(
    block: &mut Vec<Micro>,
    site: &Site<'_, '_>,
    parts: &[StraightPart],
) -> Result<(), OutOfMemory>
    requires short { length parts.now ≤ 16 }
    requires near { All IsNear parts.now }
    ensures { OnOk result (block.new.items ≡ block.old.items ++ eval_block (label_of site.now.numbers.now site.now.address + 1) parts.now) }
{
    add_straight(block, parts, site.label(1))?;
    block.push(Micro::Jump(MEET))?;
    Ok(())
}

/// Straight code whose datum a variable's own cell takes.
pub fn add_set(
    block: &mut Vec<Micro>,
    site: &Site<'_, '_>,
    variable: u32,
    parts: &[StraightPart],
) -> Result<(), OutOfMemory>
    requires variable { variable < 512 }
    requires short { length parts.now ≤ 16 }
    requires near { All IsNear parts.now }
    ensures { OnOk result (block.new.items ≡ block.old.items ++ set_block (label_of site.now.numbers.now site.now.address + 1) variable parts.now) }
{
    add_straight(block, parts, site.label(1))?;
    add_reach(block, First, variable)?;
    block.extend_from_slice(&[
        Micro::Window(First, 3),
        Micro::Save(First, 2, Datum),
        Micro::Jump(MEET),
    ])?;
    Ok(())
}

/// Straight code, and what its datum is for.
pub fn add_eval_for(
    block: &mut Vec<Micro>,
    site: &Site<'_, '_>,
    parts: &[StraightPart],
    purpose: Purpose,
) -> Result<(), OutOfMemory>
    requires short { length parts.now ≤ 16 }
    requires near { All IsNear parts.now }
    ensures { OnOk result (Adds site.now (λ code a d. straight_code parts.now 0 (label_of code a + faults_from purpose) ++ purpose_block code a d purpose) block.old.items block.new.items) }
{
    add_straight(block, parts, site.label(faults_from(purpose)))?;
    add_purpose(block, site, purpose)
}

fn add_purpose(
    block: &mut Vec<Micro>,
    site: &Site<'_, '_>,
    purpose: Purpose,
) -> Result<(), OutOfMemory>
    ensures { OnOk result (Adds site.now (λ code a d. purpose_block code a d purpose) block.old.items block.new.items) }
{
    match purpose {
        Purpose::Choose(x, y) => add_choice(block, site, x, y),
        Purpose::Repeat(x) => {
            block.push(Micro::Test(BranchOp::Beq, Datum, Zero, MEET))?;
            add_push_frame(block, site.entry(1), site.start(x).label)
        }
        Purpose::Store(x) => add_store(block, site, x),
        Purpose::Write(kind) => add_put(block, kind),
    }
}

// Two branches.
fn add_choice(
    block: &mut Vec<Micro>,
    site: &Site<'_, '_>,
    yes: u32,
    no: u32,
) -> Result<(), OutOfMemory>
    ensures { OnOk result (Adds site.now (λ code a d. purpose_block code a d (Purpose.Choose yes no)) block.old.items block.new.items) }
{
    block.extend_from_slice(&[
        Micro::Test(BranchOp::Beq, Datum, Zero, site.start(no).label),
        Micro::Jump(site.start(yes).label),
    ])?;
    Ok(())
}

// An acceptor, under the context of the datum.
fn add_store(block: &mut Vec<Micro>, site: &Site<'_, '_>, target: u32) -> Result<(), OutOfMemory>
    ensures { OnOk result (Adds site.now (λ code a d. purpose_block code a d (Purpose.Store target)) block.old.items block.new.items) }
{
    add_at_top(block)?;
    block.extend_from_slice(&[Micro::Save(Top, 1, Context), Micro::Save(Top, 2, Datum)])?;
    add_open_context(block, site.start(target).label)
}

// The datum is put.
fn add_put(block: &mut Vec<Micro>, kind: PutKind) -> Result<(), OutOfMemory>
    ensures { OnOk result (block.new.items ≡ block.old.items ++ put_block kind) }
{
    match kind {
        PutKind::Int => block.push(Micro::Jump(PUT_INT))?,
        PutKind::Char => block.extend_from_slice(&[Micro::Put(Datum), Micro::Jump(MEET)])?,
        PutKind::Bool => block.extend_from_slice(&[
            Micro::Test(BranchOp::Bne, Datum, Zero, PUT_TRUE),
            Micro::Jump(PUT_FALSE),
        ])?,
    }
    Ok(())
}

/// The own block of an instruction.
pub fn add_main(
    block: &mut Vec<Micro>,
    site: &Site<'_, '_>,
    insn: &PeInsn,
) -> Result<(), OutOfMemory>
    requires variable { ForSome (variable_of insn.now) (λ k. k < 512) }
    requires shape { ForSome (shape_of insn.now) (λ s. s < site.now.numbers.now.shapes) }
    requires straight { ForSome (straight_of insn.now) IsSmallStraight }
    ensures { OnOk result (Adds site.now (λ code a d. main_block code a d insn.now) block.old.items block.new.items) }
{
    match insn {
        PeInsn::UseVar(variable, shape) => add_use(block, site, *variable, *shape),
        PeInsn::Answer(value) => add_datum(block, site, *value),
        PeInsn::Op1(_, x) => add_push(block, site.entry(1), site.start(*x).label),
        PeInsn::Op2(_, x, _)
        | PeInsn::Cond(x, _, _)
        | PeInsn::Case(x, _)
        | PeInsn::Seq(x, _)
        | PeInsn::Assign(_, x)
        | PeInsn::While(x, _)
        | PeInsn::Loop(x)
        | PeInsn::New(x, _)
        | PeInsn::Cells(x, _) => add_push_frame(block, site.entry(1), site.start(*x).label),
        PeInsn::Bind(body) => add_argument(block, site, *body),
        PeInsn::Pass(node, x) => add_pass(block, site, *node, *x),
        PeInsn::PassVar(variable, x) => add_pass_variable(block, site, *variable, *x),
        PeInsn::PassData(value, x) => add_pass_datum(block, site, *value, *x),
        PeInsn::Field(_, x) => add_field(block, site, *x),
        PeInsn::Pick(_, x) => add_pick(block, site, *x),
        PeInsn::Let(node, body) | PeInsn::Knot(node, body) => add_let(block, site, *node, *body),
        PeInsn::LetVar(variable, body) => add_let_variable(block, site, *variable, *body),
        PeInsn::LetData(value, body) => add_let_datum(block, site, *value, *body),
        PeInsn::Done => add_jump(block, MEET),
        PeInsn::Escape(body) => add_escape(block, site, *body),
        PeInsn::Accept(body) => add_accept(block, site, *body),
        PeInsn::Put(kind, x) => add_push(block, put_entry(*kind), site.start(*x).label),
        PeInsn::Read(x) => add_read(block, site, *x),
        PeInsn::Eval(parts) => add_eval(block, site, parts.as_slice()),
        PeInsn::Set(variable, parts) => add_set(block, site, *variable, parts.as_slice()),
        PeInsn::EvalFor(parts, purpose) => add_eval_for(block, site, parts.as_slice(), *purpose),
    }
}

fn add_jump(block: &mut Vec<Micro>, label: u32) -> Result<(), OutOfMemory>
    ensures { OnOk result (block.new.items ≡ block.old.items ++ Micro.Jump label ∷ []) }
{
    block.push(Micro::Jump(label))?;
    Ok(())
}

// The entry of the context that puts a datum.
fn put_entry(kind: PutKind) -> u32
    ensures { result ≡ put_entry kind }
{
    match kind {
        PutKind::Int => PUT_INT_ENTRY,
        PutKind::Char => PUT_CHAR_ENTRY,
        PutKind::Bool => PUT_BOOL_ENTRY,
    }
}
