//! The text of a tree. Each token is written with a blank behind it, and the last blank is taken back.

ghost use Rattle.std.specs.Prelude.{◌≡◌, ◌++◌, ◌<◌, [], map, codes, IfOk, OnOk};
ghost use Rattle.std.specs.Fmt.{signed_decimal};
ghost use Rattle.fy_syntax.specs.Reading.{decl_tree, defs_of, links_of, tree_of, trees_of, type_tree, type_trees};
ghost use Rattle.fy_syntax.specs.Printing.{IsPrintable, IsTextOf};
ghost use Rattle.fy_syntax.specs.Ranges.{AreBytes, AreDefsInRanges, AreInRanges, AreLinksInRanges, IsInRanges};
ghost use Rattle.fy_syntax.specs.Print.{
  atom_text,
  decls_text,
  defs_text,
  dots_text,
  element_text,
  elements_text,
  fields_text,
  hex_digit as hex_digit_of,
  ident_text,
  links_text,
  operator_text,
  prefix_text,
  prefixes_text,
  tree_text,
  trees_text,
  truth_text,
  type_text,
  types_text,
};

use crate::surface::{DefList, LinkList, PrefixList, Surface, SurfaceList};
use crate::types::{DeclList, NameList, SurfaceTy, SurfaceTyList};
use fy_base::{BinOp, OutOfMemory, Text, UnOp};
use fy_types::{Atom, Name, Names};
use std::alloc::Global;

/// The text of the tree: its tokens, with one blank between two and none at the ends. What is written spells a tree equal to the
/// given one but for places, if some tokens spell the tree, its names are numbers of identifiers, and no integer in it is negative.
pub fn print_surface(alloc: Global, names: &Names, tree: &Surface) -> Result<Text, OutOfMemory>
    requires { IsPrintable names.now (tree_of tree.now) }
    ensures { IfOk result (λ text. IsTextOf names.now (tree_of tree.now) text) }
{
    let mut text = Vec::new(alloc);
    put_tree(&mut text, names, tree)?;
    text.pop();
    Ok(Text::from_vec(text))
}

#[cycle(put_tree)]
fn put_tree(text: &mut Vec<u8>, names: &Names, tree: &Surface) -> Result<(), OutOfMemory>
    ensures text { OnOk result (text.new.items ≡ text.old.items ++ tree_text names.now (tree_of tree.now)) }
    ensures ranges { OnOk result (IsInRanges (tree_of tree.now)) }
{
    match tree {
        Surface::Merge(members, _) => put_trees(text, names, b", ", members),
        Surface::Sequence(members, _) => put_trees(text, names, b"; ", members),
        Surface::Chain(first, links, _) => {
            put_tree(text, names, first)?;
            put_links(text, names, links)
        }
        Surface::Prefix(operators, operand, _) => {
            put_prefixes(text, operators)?;
            put_tree(text, names, operand)
        }
        Surface::Apply(first, arguments, _) => {
            put_tree(text, names, first)?;
            put_trees(text, names, b"", arguments)
        }
        Surface::Select(operand, fields, _) => {
            put_tree(text, names, operand)?;
            put_dots(text, names, fields)
        }
        Surface::Group(inside, _) => {
            put(text, b"( ")?;
            put_tree(text, names, inside)?;
            put(text, b") ")
        }
        Surface::SeqOf(parts, _) => {
            put(text, b"seq ( ")?;
            put_trees(text, names, b", ", parts)?;
            put(text, b") ")
        }
        Surface::Assign(target, _, value, _) => {
            put_tree(text, names, target)?;
            put(text, b":= ")?;
            put_tree(text, names, value)
        }
        Surface::Field(name, body, _) => {
            put_name(text, names, *name)?;
            put(text, b"== ")?;
            put_tree(text, names, body)
        }
        Surface::Loop(body, _) => {
            put(text, b"loop ")?;
            put_tree(text, names, body)
        }
        Surface::WhileDo(test, body, _) => {
            put(text, b"while ")?;
            put_tree(text, names, test)?;
            put(text, b"do ")?;
            put_tree(text, names, body)
        }
        Surface::If(test, first, second, _) => {
            put(text, b"if ")?;
            put_tree(text, names, test)?;
            put(text, b"then ")?;
            put_tree(text, names, first)?;
            put(text, b"else ")?;
            put_tree(text, names, second)
        }
        Surface::Escape(name, body, _) => {
            put(text, b"escape ")?;
            put_name(text, names, *name)?;
            put(text, b"in ")?;
            put_tree(text, names, body)
        }
        Surface::Accept(name, kind, body, _) => {
            put(text, b"accept ")?;
            put_name(text, names, *name)?;
            put(text, b": ")?;
            put(text, word_of_atom(*kind))?;
            put(text, b"in ")?;
            put_tree(text, names, body)
        }
        Surface::New(name, kind, first, body, _) => {
            put(text, b"new ")?;
            put_name(text, names, *name)?;
            put(text, b": ")?;
            put(text, word_of_atom(*kind))?;
            put(text, b":= ")?;
            put_tree(text, names, first)?;
            put(text, b"in ")?;
            put_tree(text, names, body)
        }
        Surface::Lettype(name, ty, body, _) => {
            put(text, b"lettype ")?;
            put_name(text, names, *name)?;
            put(text, b"== ")?;
            put_type(text, names, ty)?;
            put(text, b"in ")?;
            put_tree(text, names, body)
        }
        Surface::Let(defs, body, _) => {
            put(text, b"let ")?;
            put_defs(text, names, defs)?;
            put(text, b"in ")?;
            put_tree(text, names, body)
        }
        Surface::Letrec(decls, defs, _, body, _) => {
            put(text, b"letrec ")?;
            put_decls(text, names, decls)?;
            put(text, b"where ")?;
            put_defs(text, names, defs)?;
            put(text, b"in ")?;
            put_tree(text, names, body)
        }
        Surface::Lam(name, alternatives, body, _) => {
            put(text, b"\\ ")?;
            put_name(text, names, *name)?;
            put(text, b": ")?;
            put_types(text, names, b"| ", alternatives)?;
            put(text, b". ")?;
            put_tree(text, names, body)
        }
        Surface::Ident(name, _) => put_name(text, names, *name),
        Surface::Number(value, _) => put_number(text, *value),
        Surface::Letter(byte, _) => {
            put(text, b"'")?;
            put_element(text, *byte)?;
            put(text, b"' ")
        }
        Surface::Str(bytes, _) => {
            put(text, b"\"")?;
            put_elements(text, bytes.as_slice())?;
            put(text, b"\" ")
        }
        Surface::Truth(truth, _) => put(text, word_of_truth(*truth)),
        Surface::Skip(_) => put(text, b"skip "),
    }
}

// Phrases with a separator between two.
#[cycle(put_tree)]
fn put_trees(
    text: &mut Vec<u8>,
    names: &Names,
    separator: &[u8],
    trees: &SurfaceList,
) -> Result<(), OutOfMemory>
    ensures text { OnOk result (text.new.items ≡ text.old.items ++ trees_text names.now [] separator.now (trees_of trees.now)) }
    ensures ranges { OnOk result (AreInRanges (trees_of trees.now)) }
{
    let mut lead: &[u8] = b"";
    for tree in trees.as_slice() {
        put(text, lead)?;
        put_tree(text, names, tree)?;
        lead = separator;
    }
    Ok(())
}

#[cycle(put_tree)]
fn put_defs(text: &mut Vec<u8>, names: &Names, defs: &DefList) -> Result<(), OutOfMemory>
    ensures text { OnOk result (text.new.items ≡ text.old.items ++ defs_text names.now [] (defs_of defs.now)) }
    ensures ranges { OnOk result (AreDefsInRanges (defs_of defs.now)) }
{
    let mut lead: &[u8] = b"";
    for def in defs.as_slice() {
        put(text, lead)?;
        put_name(text, names, def.name)?;
        put(text, b"== ")?;
        put_tree(text, names, &def.body)?;
        lead = b", ";
    }
    Ok(())
}

#[cycle(put_tree)]
fn put_links(text: &mut Vec<u8>, names: &Names, links: &LinkList) -> Result<(), OutOfMemory>
    ensures text { OnOk result (text.new.items ≡ text.old.items ++ links_text names.now (links_of links.now)) }
    ensures ranges { OnOk result (AreLinksInRanges (links_of links.now)) }
{
    for link in links.as_slice() {
        put(text, operator_word(link.op))?;
        put_tree(text, names, &link.item)?;
    }
    Ok(())
}

fn put_decls(text: &mut Vec<u8>, names: &Names, decls: &DeclList) -> Result<(), OutOfMemory>
    ensures { OnOk result (text.new.items ≡ text.old.items ++ decls_text names.now [] (map decl_tree decls.now)) }
{
    let mut lead: &[u8] = b"";
    for decl in decls.as_slice() {
        put(text, lead)?;
        put_name(text, names, decl.name)?;
        put(text, b": ")?;
        put_type(text, names, &decl.ty)?;
        lead = b", ";
    }
    Ok(())
}

#[cycle(put_type)]
fn put_type(text: &mut Vec<u8>, names: &Names, ty: &SurfaceTy) -> Result<(), OutOfMemory>
    ensures { OnOk result (text.new.items ≡ text.old.items ++ type_text names.now (type_tree ty.now)) }
{
    match ty {
        SurfaceTy::Arrow(domain, codomain, _) => {
            put_type(text, names, domain)?;
            put(text, b"-> ")?;
            put_type(text, names, codomain)
        }
        SurfaceTy::Meet(members, _) => put_types(text, names, b"& ", members),
        SurfaceTy::Field(fields, part, _) => {
            put_fields(text, names, fields)?;
            put_type(text, names, part)
        }
        SurfaceTy::Ns(_) => put(text, b"ns "),
        SurfaceTy::Atom(atom, _) => put(text, word_of_atom(*atom)),
        SurfaceTy::Ident(name, _) => put_name(text, names, *name),
        SurfaceTy::Group(inside, _) => {
            put(text, b"( ")?;
            put_type(text, names, inside)?;
            put(text, b") ")
        }
    }
}

// Types with a separator between two.
#[cycle(put_type)]
fn put_types(
    text: &mut Vec<u8>,
    names: &Names,
    separator: &[u8],
    types: &SurfaceTyList,
) -> Result<(), OutOfMemory>
    ensures { OnOk result (text.new.items ≡ text.old.items ++ types_text names.now [] separator.now (type_trees types.now)) }
{
    let mut lead: &[u8] = b"";
    for ty in types.as_slice() {
        put(text, lead)?;
        put_type(text, names, ty)?;
        lead = separator;
    }
    Ok(())
}

fn put_fields(text: &mut Vec<u8>, names: &Names, fields: &NameList) -> Result<(), OutOfMemory>
    ensures { OnOk result (text.new.items ≡ text.old.items ++ fields_text names.now fields.now) }
{
    for field in fields.as_slice() {
        put_name(text, names, *field)?;
        put(text, b": ")?;
    }
    Ok(())
}

fn put_dots(text: &mut Vec<u8>, names: &Names, fields: &NameList) -> Result<(), OutOfMemory>
    ensures { OnOk result (text.new.items ≡ text.old.items ++ dots_text names.now fields.now) }
{
    for field in fields.as_slice() {
        put(text, b". ")?;
        put_name(text, names, *field)?;
    }
    Ok(())
}

fn put_prefixes(text: &mut Vec<u8>, operators: &PrefixList) -> Result<(), OutOfMemory>
    ensures { OnOk result (text.new.items ≡ text.old.items ++ prefixes_text operators.now) }
{
    for operator in operators.as_slice() {
        put(text, prefix_word(operator.op))?;
    }
    Ok(())
}

fn put_name(text: &mut Vec<u8>, names: &Names, name: Name) -> Result<(), OutOfMemory>
    ensures { OnOk result (text.new.items ≡ text.old.items ++ ident_text names.now name) }
{
    if let Some(bytes) = names.text(name) {
        put(text, bytes)?;
    }
    put(text, b" ")
}

fn put_number(text: &mut Vec<u8>, value: i64) -> Result<(), OutOfMemory>
    ensures { OnOk result (text.new.items ≡ text.old.items ++ (signed_decimal value ++ codes " ")) }
{
    put(text, itoa::Buffer::new().format(value).as_bytes())?;
    put(text, b" ")
}

fn put_elements(text: &mut Vec<u8>, bytes: &[u8]) -> Result<(), OutOfMemory>
    ensures text { OnOk result (text.new.items ≡ text.old.items ++ elements_text bytes.now) }
    ensures ranges { OnOk result (AreBytes bytes.now) }
{
    for byte in bytes {
        put_element(text, *byte)?;
    }
    Ok(())
}

// A byte as `\x` and two hexadecimal digits, which stands for it in characters and in strings.
fn put_element(text: &mut Vec<u8>, byte: u8) -> Result<(), OutOfMemory>
    ensures { OnOk result (text.new.items ≡ text.old.items ++ element_text byte) }
{
    put(
        text,
        &[b'\\', b'x', hex_digit(byte / 16), hex_digit(byte % 16)],
    )
}

fn hex_digit(digit: u8) -> u8
    requires { digit < 16 }
    ensures { result ≡ hex_digit_of digit }
{
    if digit < 10 { 48 + digit } else { 87 + digit }
}

fn put(text: &mut Vec<u8>, bytes: &[u8]) -> Result<(), OutOfMemory>
    ensures { OnOk result (text.new.items ≡ text.old.items ++ bytes.now) }
{
    text.extend_from_slice(bytes)?;
    Ok(())
}

/// The operator with a blank behind it.
pub fn operator_word(op: BinOp) -> &'static [u8]
    ensures { result.now ≡ operator_text op }
{
    match op {
        BinOp::Or => b"or ",
        BinOp::And => b"and ",
        BinOp::Eq => b"= ",
        BinOp::Ne => b"<> ",
        BinOp::Lt => b"< ",
        BinOp::Le => b"<= ",
        BinOp::Gt => b"> ",
        BinOp::Ge => b">= ",
        BinOp::Add => b"+ ",
        BinOp::Sub => b"- ",
        BinOp::Mul => b"* ",
        BinOp::Div => b"div ",
        BinOp::Rem => b"rem ",
    }
}

/// The operator with a blank behind it.
pub fn prefix_word(op: UnOp) -> &'static [u8]
    ensures { result.now ≡ prefix_text op }
{
    match op {
        UnOp::Neg => b"- ",
        UnOp::Not => b"not ",
        UnOp::Ord => b"ord ",
        UnOp::Chr => b"chr ",
    }
}

fn word_of_atom(atom: Atom) -> &'static [u8]
    ensures { result.now ≡ atom_text atom }
{
    match atom {
        Atom::Int => b"int ",
        Atom::Bool => b"bool ",
        Atom::Char => b"char ",
        Atom::Comm => b"comm ",
        Atom::Compl => b"compl ",
        Atom::IntAcc => b"intacc ",
        Atom::BoolAcc => b"boolacc ",
        Atom::CharAcc => b"characc ",
    }
}

fn word_of_truth(truth: bool) -> &'static [u8]
    ensures { result.now ≡ truth_text truth }
{
    if truth { b"true " } else { b"false " }
}
