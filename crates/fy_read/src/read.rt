//! Reading a derivation from its text.

ghost use Rattle.std.specs.Prelude.{◌≡◌, Bool, List, suc, ◌+◌, ◌-◌, ◌<◌, ◌≤◌, false, true, IsTrue, [], ◌∷◌, ◌++◌, length, Some, None, IfOk, IfErr, OnOk};
ghost use Rattle.fy_read.specs.FieldNames.{NumbersFields, HasAddedFrom};
ghost use Rattle.fy_read.specs.Naming.{names_ended, names_with, IsOrStays};
ghost use Rattle.fy_types.specs.Words.{is_digit, is_letter, is_name_byte};
ghost use Rattle.fy_base.specs.Outside.{Bytes};
ghost use Rattle.fy_read.specs.Opened.{nodes_of, extra, AreWaiting};
ghost use Rattle.fy_read.specs.Readers.{parens, reached, spot_of, IsUnfinished, MayBegin, takes_word, AreFit, IsSound, IsLed, IsEnded, IsMisfit};
ghost use Rattle.fy_read.specs.OpenLevels.{levels_of};
ghost use Rattle.fy_read.specs.ReadSoFar.{HoldsSomehow, IsRead, Reads, ReadsOn, ReadsWord};
ghost use Rattle.fy_read.specs.Passing.{IsPlain, Refuses, RefusesOn, RefusesWord, EndsDeep};
ghost use Rattle.fy_derive.specs.Reading.{plain_derivation};
ghost use Rattle.fy_read.specs.Refusals.{IsReadFault, KeepsThroughout};
ghost use Rattle.fy_derive.specs.Limits.{KeepsLimits};
ghost use Rattle.fy_read.specs.Spelling.{IsTextOf};
ghost use Rattle.fy_read.specs.Steps.{at, after_node, begun_by, ended, finish, first_digit, lettered, next_digit, node_text, nothing, signed, spot, start, step};
ghost use Rattle.fy_read.specs.Stopping.{error_at};

use crate::counts::Counted;
use crate::error::ReadError;
use crate::levels::Levels;
use crate::nodes::{Nodes, Open};
use crate::stop::Stop;
use crate::words::{
    NodeWord, begins_node_word, is_blank, is_digit, is_letter, is_name_byte, is_word, node_word,
    type_word,
};
use fy_derive::{Derivation, DerivationList};
use fy_types::Names;
use std::alloc::Global;

// The piece that has to come next.
#[derive(Clone, Copy, PartialEq, Eq, Debug)]
enum Awaited {
    /// The word of a node, unless the derivation is whole.
    Node,
    /// `[`
    Bracket,
    Count(Counted),
    /// A field of a type, a word, or `(`.
    Part,
    /// `:`
    Colon,
    /// `&`, `->`, or an end.
    Joint,
}

// The piece that has begun.
#[derive(Clone, Copy, PartialEq, Eq, Debug)]
enum Begun {
    Nothing,
    /// A word, whose letters are kept.
    Word,
    /// Digits, with their value.
    Number(u32),
    /// The `-` of `->`.
    Dash,
}

// A text that is read byte by byte.
#[derive(Debug, Drop)]
struct Reader {
    awaited: Awaited,
    begun: Begun,
    letters: Vec<u8>,
    // Whether a word or a number ends here.
    is_loose: bool,
    nodes: Nodes,
    levels: Levels,
}

/// The derivation that the text is one of, with the fields' names numbered by the list, which gets those
/// that are new at its end, in order of first use. After a refusal, too, it has got nothing but
/// identifiers of the text, at its end. Types are written as in Reynolds, "Design of the Programming
/// Language Forsythe", CMU-CS-96-146, 1996.
pub fn read_derivation(
    alloc: Global,
    names: &mut Names,
    text: &[u8],
) -> Result<Derivation, ReadError>
    requires few_names { length names.old ≤ 4000000000 }
    requires short { length text.now ≤ 16777216 }
    ensures ok { IfOk result (λ d. IsTextOf names.new (plain_derivation d) text.now) }
    ensures named { IfOk result (λ d. NumbersFields names.old names.new (plain_derivation d) text.now) }
    ensures within { IfOk result (λ d. KeepsLimits (plain_derivation d)) }
    ensures keeps { OnOk result (KeepsThroughout text.now) }
    ensures err { IfErr result (IsReadFault text.now) }
    ensures names { HasAddedFrom text.now names.old names.new }
    ensures few { length names.new ≤ length names.old + length text.now }
{
    match whole(alloc, names, text) {
        Ok(d) => Ok(d),
        Err(fault) => Err(fault.stop.at(fault.offset)),
    }
}

// Where, and why, reading a text stops.
#[derive(Clone, Copy, PartialEq, Eq, Debug)]
struct Fault {
    stop: Stop,
    offset: usize,
}

// The derivation that the text is one of, or where, and why, reading it stops.
fn whole(alloc: Global, names: &mut Names, text: &[u8]) -> Result<Derivation, Fault>
    requires few_names { length names.old ≤ 4000000000 }
    requires short { length text.now ≤ 16777216 }
    ensures ok { IfOk result (λ d. IsTextOf names.new (plain_derivation d) text.now) }
    ensures named { IfOk result (λ d. NumbersFields names.old names.new (plain_derivation d) text.now) }
    ensures within { IfOk result (λ d. KeepsLimits (plain_derivation d)) }
    ensures keeps { OnOk result (KeepsThroughout text.now) }
    ensures err { IfErr result (λ f. IsReadFault text.now (error_at f.stop f.offset)) }
    ensures names { HasAddedFrom text.now names.old names.new }
    ensures few { length names.new ≤ length names.old + length text.now }
{
    let mut reader = Reader::new(alloc);
    for (offset, byte) in text.iter().enumerate() {
        if reader.is_too_deep_before(*byte) {
            return Err(Fault {
                stop: Stop::TooDeep,
                offset,
            });
        }
        match reader.step(alloc, names, *byte) {
            Ok(()) => {}
            Err(stop) => return Err(Fault { stop, offset }),
        }
    }
    if reader.is_too_deep() {
        return Err(Fault {
            stop: Stop::TooDeep,
            offset: text.len(),
        });
    }
    match reader.into_whole(alloc, names) {
        Ok(d) => Ok(d),
        Err(stop) => Err(Fault {
            stop,
            offset: text.len(),
        }),
    }
}

impl Reader {
    fn new(alloc: Global) -> Reader
        ensures spot { spot_of result ≡ start }
        ensures sound { IsSound result }
        ensures read { (names : List Bytes) → IsRead names [] result }
    {
        Reader {
            awaited: Awaited::Node,
            begun: Begun::Nothing,
            letters: Vec::new(alloc),
            is_loose: false,
            nodes: Nodes::new(alloc),
            levels: Levels::new(alloc),
        }
    }

    // Takes a byte.
    fn step(&mut self, alloc: Global, names: &mut Names, byte: u8) -> Result<(), Stop>
        requires room { length names.old < 4294967295 }
        requires sound { IsSound self.old }
        requires shallow { is_name_byte byte ≡ false → ¬ EndsDeep self.old }
        ensures led { OnOk result (IsLed (step (spot_of self.old) byte) self.new) }
        ensures misfit { IfErr result (IsMisfit (step (spot_of self.old) byte)) }
        ensures read { OnOk result (Reads names.old names.new (byte ∷ []) self.old self.new) }
        ensures limits { IfErr result (Refuses names.old (byte ∷ []) self.old) }
        ensures named { OnOk result (names.new ≡ names_with (spot_of self.old) byte names.old) }
        ensures names { IsOrStays names.old (names_with (spot_of self.old) byte names.old) names.new }
    {
        match self.begun {
            Begun::Nothing => self.begin_piece(alloc, byte),
            Begun::Word => self.step_word(alloc, names, byte),
            Begun::Number(value) => self.step_number(alloc, value, byte),
            Begun::Dash => self.arrow(alloc, byte),
        }
    }

    // Takes a byte behind the letters of a word.
    fn step_word(&mut self, alloc: Global, names: &mut Names, byte: u8) -> Result<(), Stop>
        requires room { length names.old < 4294967295 }
        requires sound { IsSound self.old }
        requires shallow { is_name_byte byte ≡ false → ¬ EndsDeep self.old }
        requires begun { self.old.begun ≡ Begun.Word }
        ensures led { OnOk result (IsLed (step (spot_of self.old) byte) self.new) }
        ensures misfit { IfErr result (IsMisfit (step (spot_of self.old) byte)) }
        ensures read { OnOk result (Reads names.old names.new (byte ∷ []) self.old self.new) }
        ensures limits { IfErr result (Refuses names.old (byte ∷ []) self.old) }
        ensures named { OnOk result (names.new ≡ names_with (spot_of self.old) byte names.old) }
        ensures names { IsOrStays names.old (names_with (spot_of self.old) byte names.old) names.new }
    {
        if is_name_byte(byte) {
            return self.letter(alloc, byte);
        }
        self.end_word(alloc, names)?;
        self.begin_piece(alloc, byte)
    }

    // Takes a byte behind the digits of a number.
    fn step_number(&mut self, alloc: Global, value: u32, byte: u8) -> Result<(), Stop>
        requires sound { IsSound self.old }
        requires begun { self.old.begun ≡ Begun.Number value }
        ensures led { OnOk result (IsLed (step (spot_of self.old) byte) self.new) }
        ensures misfit { IfErr result (IsMisfit (step (spot_of self.old) byte)) }
        ensures read { OnOk result ((names : List Bytes) → Reads names names (byte ∷ []) self.old self.new) }
        ensures limits { IfErr result (λ e. (names : List Bytes) → Refuses names (byte ∷ []) self.old e) }
    {
        if is_digit(byte) {
            return self.digit(value, byte);
        }
        self.end_number(alloc, value)?;
        self.begin_piece(alloc, byte)
    }

    // Whether the name of a field ends before the byte whose part would nest too deep.
    fn is_too_deep_before(&self, byte: u8) -> bool
        requires sound { IsSound self.now }
        ensures deep { result ≡ true → (is_name_byte byte ≡ false) × EndsDeep self.now }
        ensures room { result ≡ false → is_name_byte byte ≡ false → ¬ EndsDeep self.now }
    {
        let Awaited::Part = self.awaited else {
            return false;
        };
        if is_name_byte(byte) {
            return false;
        }
        self.is_too_deep()
    }

    // The same at the end of the text.
    fn is_too_deep(&self) -> bool
        requires sound { IsSound self.now }
        ensures deep { result ≡ true → EndsDeep self.now }
        ensures room { result ≡ false → ¬ EndsDeep self.now }
    {
        let Begun::Word = self.begun else {
            return false;
        };
        let Awaited::Part = self.awaited else {
            return false;
        };
        self.levels.is_field_deep() && !is_word(&self.letters)
    }

    // The derivation, at the end of its text.
    fn into_whole(self, alloc: Global, names: &mut Names) -> Result<Derivation, Stop>
        requires room { length names.old < 4294967295 }
        requires sound { IsSound self }
        requires shallow { ¬ EndsDeep self }
        ensures ok { OnOk result (ended (spot_of self) ≡ Some finish) }
        ensures read { IfOk result (λ d. (text : Bytes) → IsRead names.old text self → IsTextOf names.new (plain_derivation d) text) }
        ensures within { IfOk result (λ d. (text : Bytes) → IsRead names.old text self → KeepsLimits (plain_derivation d)) }
        ensures plain { IfErr result IsPlain }
        ensures err { IfErr result (λ e. e ≡ Stop.Misfit → ¬ (ended (spot_of self) ≡ Some finish)) }
        ensures named { OnOk result (names.new ≡ names_ended (spot_of self) names.old) }
        ensures names { IsOrStays names.old (names_ended (spot_of self) names.old) names.new }
    {
        let mut reader = self;
        reader.end(alloc, names)?;
        let Awaited::Node = reader.awaited else {
            return Err(Stop::Misfit);
        };
        let Some(d) = reader.nodes.into_whole() else {
            return Err(Stop::Misfit);
        };
        Ok(d)
    }

    // Ends the piece that has begun, at the end of the text.
    fn end(&mut self, alloc: Global, names: &mut Names) -> Result<(), Stop>
        requires room { length names.old < 4294967295 }
        requires sound { IsSound self.old }
        requires shallow { ¬ EndsDeep self.old }
        ensures ended { OnOk result (ended (spot_of self.old) ≡ Some (reached self.new)) }
        ensures misfit { IfErr result (IsMisfit (ended (spot_of self.old))) }
        ensures read { OnOk result ((text : Bytes) → IsRead names.old text self.old → HoldsSomehow names.new text self.new) }
        ensures plain { IfErr result IsPlain }
        ensures named { OnOk result (names.new ≡ names_ended (spot_of self.old) names.old) }
        ensures names { IsOrStays names.old (names_ended (spot_of self.old) names.old) names.new }
    {
        match self.begun {
            Begun::Nothing => Ok(()),
            Begun::Word => self.end_word(alloc, names),
            Begun::Number(value) => self.end_number(alloc, value),
            Begun::Dash => Err(Stop::Misfit),
        }
    }

    // Takes a byte that goes on with a word, or begins it.
    fn letter(&mut self, alloc: Global, byte: u8) -> Result<(), Stop>
        requires waiting { AreWaiting (nodes_of self.old.nodes).waiting }
        requires unfinished { IsUnfinished self.old.awaited (nodes_of self.old.nodes) }
        requires begun { MayBegin self.old.awaited (nodes_of self.old.nodes) (self.old.letters.items ++ byte ∷ []) }
        requires levels { AreFit self.old.awaited (levels_of self.old.levels) }
        requires word { self.old.begun ≡ Begun.Word }
        ensures led { OnOk result (IsLed (lettered (reached self.old) (self.old.letters.items ++ byte ∷ [])) self.new) }
        ensures misfit { IfErr result (IsMisfit (lettered (reached self.old) (self.old.letters.items ++ byte ∷ []))) }
        ensures read { OnOk result ((names : List Bytes) → Reads names names (byte ∷ []) self.old self.new) }
        ensures limits { IfErr result (λ e. (names : List Bytes) → Refuses names (byte ∷ []) self.old e) }
    {
        self.letters.push(byte)?;
        if let Awaited::Part = self.awaited {
            return Ok(());
        }
        if let Some(word) = node_word(&self.letters) {
            return self.node(alloc, word);
        }
        if !begins_node_word(&self.letters) {
            return Err(Stop::Misfit);
        }
        Ok(())
    }

    // Takes a digit of a number that has begun.
    fn digit(&mut self, value: u32, byte: u8) -> Result<(), Stop>
        requires sound { IsSound self.old }
        requires digit { IsTrue (is_digit byte) }
        requires begun { self.old.begun ≡ Begun.Number value }
        ensures led { OnOk result (IsLed (next_digit (reached self.old) value (byte - 48)) self.new) }
        ensures misfit { IfErr result (IsMisfit (next_digit (reached self.old) value (byte - 48))) }
        ensures read { OnOk result ((names : List Bytes) → Reads names names (byte ∷ []) self.old self.new) }
        ensures plain { IfErr result IsPlain }
    {
        let Awaited::Count(counted) = self.awaited else {
            return Err(Stop::Misfit);
        };
        let Some(value) = counted.with_digit(value, byte - b'0') else {
            return Err(Stop::Misfit);
        };
        self.begun = Begun::Number(value);
        Ok(())
    }

    // Takes what follows `-`.
    fn arrow(&mut self, alloc: Global, byte: u8) -> Result<(), Stop>
        requires sound { IsSound self.old }
        requires begun { self.old.begun ≡ Begun.Dash }
        ensures led { OnOk result (IsLed (step (spot_of self.old) byte) self.new) }
        ensures misfit { IfErr result (IsMisfit (step (spot_of self.old) byte)) }
        ensures read { OnOk result ((names : List Bytes) → Reads names names (byte ∷ []) self.old self.new) }
        ensures limits { IfErr result (λ e. (names : List Bytes) → Refuses names (byte ∷ []) self.old e) }
    {
        if byte != b'>' {
            return Err(Stop::Misfit);
        }
        self.begun = Begun::Nothing;
        self.awaited = Awaited::Part;
        self.levels.arrow(alloc)
    }

    // Ends a word of a type: the name of a field, or a type.
    fn end_word(&mut self, alloc: Global, names: &mut Names) -> Result<(), Stop>
        requires room { length names.old < 4294967295 }
        requires sound { IsSound self.old }
        requires shallow { ¬ EndsDeep self.old }
        requires begun { self.old.begun ≡ Begun.Word }
        ensures ended { OnOk result (IsEnded (ended (spot_of self.old)) self.new) }
        ensures misfit { IfErr result (IsMisfit (ended (spot_of self.old))) }
        ensures read { OnOk result (Reads names.old names.new [] self.old self.new) }
        ensures plain { IfErr result IsPlain }
        ensures named { OnOk result (names.new ≡ names_ended (spot_of self.old) names.old) }
        ensures names { IsOrStays names.old (names_ended (spot_of self.old) names.old) names.new }
    {
        let Awaited::Part = self.awaited else {
            return Err(Stop::Misfit);
        };
        self.begun = Begun::Nothing;
        self.is_loose = true;
        if let Some(part) = type_word(&self.letters) {
            self.awaited = Awaited::Joint;
            return self.levels.word(alloc, part.to_type());
        }
        if is_word(&self.letters) {
            return Err(Stop::Misfit);
        }
        self.awaited = Awaited::Colon;
        self.levels.field(names.number(&self.letters)?)
    }

    // Ends a number.
    fn end_number(&mut self, alloc: Global, value: u32) -> Result<(), Stop>
        requires sound { IsSound self.old }
        requires begun { self.old.begun ≡ Begun.Number value }
        ensures ended { OnOk result (IsEnded (ended (spot_of self.old)) self.new) }
        ensures misfit { IfErr result (IsMisfit (ended (spot_of self.old))) }
        ensures read { OnOk result ((names : List Bytes) → Reads names names [] self.old self.new) }
        ensures plain { IfErr result IsPlain }
    {
        let Awaited::Count(counted) = self.awaited else {
            return Err(Stop::Misfit);
        };
        if !counted.takes(value) {
            return Err(Stop::Misfit);
        }
        self.begun = Begun::Nothing;
        self.is_loose = true;
        self.awaited = Awaited::Node;
        match counted {
            Counted::Alternatives => self.nodes.open(Open::Alt(value)),
            Counted::Members => {
                let list = DerivationList::new(alloc);
                self.nodes.open(Open::Meet(value as usize, list))
            }
            Counted::Premises => {
                let list = DerivationList::new(alloc);
                if value == 0 {
                    return self.nodes.give(alloc, Derivation::Rule(list));
                }
                self.nodes.open(Open::Rule(value as usize, list))
            }
        }
    }

    // Takes a byte with which a piece begins, or a blank.
    fn begin_piece(&mut self, alloc: Global, byte: u8) -> Result<(), Stop>
        requires sound { IsSound self.old }
        requires begun { self.old.begun ≡ Begun.Nothing }
        ensures led { OnOk result (IsLed (begun_by (reached self.old) self.old.is_loose byte) self.new) }
        ensures misfit { IfErr result (IsMisfit (begun_by (reached self.old) self.old.is_loose byte)) }
        ensures read { OnOk result ((names : List Bytes) → Reads names names (byte ∷ []) self.old self.new) }
        ensures limits { IfErr result (λ e. (names : List Bytes) → Refuses names (byte ∷ []) self.old e) }
    {
        let behind = self.is_loose;
        self.is_loose = false;
        if is_blank(byte) {
            return Ok(());
        }
        if is_letter(byte) {
            if behind {
                return Err(Stop::Misfit);
            }
            return self.begin_word(alloc, byte);
        }
        if is_digit(byte) {
            if behind {
                return Err(Stop::Misfit);
            }
            return self.begin_number(byte);
        }
        self.sign(alloc, byte)
    }

    // Takes the first letter of a word.
    fn begin_word(&mut self, alloc: Global, byte: u8) -> Result<(), Stop>
        requires sound { IsSound self.old }
        requires begun { self.old.begun ≡ Begun.Nothing }
        requires letter { IsTrue (is_letter byte) }
        ensures led { OnOk result (IsLed (lettered (reached self.old) (byte ∷ [])) self.new) }
        ensures misfit { IfErr result (IsMisfit (lettered (reached self.old) (byte ∷ []))) }
        ensures read { OnOk result (ReadsOn false (byte ∷ []) self.old self.new) }
        ensures limits { IfErr result (RefusesOn false (byte ∷ []) self.old) }
    {
        if !self.takes_word() {
            return Err(Stop::Misfit);
        }
        self.letters.clear();
        self.begun = Begun::Word;
        self.letter(alloc, byte)
    }

    // Whether a word may come next.
    fn takes_word(&self) -> bool
        ensures { result ≡ takes_word self.now.awaited (nodes_of self.now.nodes) }
    {
        match self.awaited {
            Awaited::Node => !self.nodes.is_whole(),
            Awaited::Part => true,
            _ => false,
        }
    }

    // Takes the first digit of a number.
    fn begin_number(&mut self, byte: u8) -> Result<(), Stop>
        requires sound { IsSound self.old }
        requires begun { self.old.begun ≡ Begun.Nothing }
        requires digit { IsTrue (is_digit byte) }
        ensures led { OnOk result (IsLed (first_digit (reached self.old) (byte - 48)) self.new) }
        ensures misfit { IfErr result (IsMisfit (first_digit (reached self.old) (byte - 48))) }
        ensures read { OnOk result (ReadsOn false (byte ∷ []) self.old self.new) }
        ensures plain { IfErr result IsPlain }
    {
        let Awaited::Count(counted) = self.awaited else {
            return Err(Stop::Misfit);
        };
        let Some(value) = counted.begun(byte - b'0') else {
            return Err(Stop::Misfit);
        };
        self.begun = Begun::Number(value);
        Ok(())
    }

    // Takes a sign.
    fn sign(&mut self, alloc: Global, byte: u8) -> Result<(), Stop>
        requires sound { IsSound self.old }
        requires begun { self.old.begun ≡ Begun.Nothing }
        requires loose { self.old.is_loose ≡ false }
        ensures led { OnOk result (IsLed (signed (reached self.old) byte) self.new) }
        ensures misfit { IfErr result (IsMisfit (signed (reached self.old) byte)) }
        ensures read { OnOk result ((loose : Bool) → ReadsOn loose (byte ∷ []) self.old self.new) }
        ensures limits { IfErr result (λ e. (loose : Bool) → RefusesOn loose (byte ∷ []) self.old e) }
    {
        match self.awaited {
            Awaited::Node | Awaited::Count(_) => Err(Stop::Misfit),
            Awaited::Bracket => self.bracket(alloc, byte),
            Awaited::Part => self.paren(alloc, byte),
            Awaited::Colon => self.colon(byte),
            Awaited::Joint => self.joint(alloc, byte),
        }
    }

    // Takes the bracket before a type.
    fn bracket(&mut self, alloc: Global, byte: u8) -> Result<(), Stop>
        requires sound { IsSound self.old }
        requires begun { self.old.begun ≡ Begun.Nothing }
        requires loose { self.old.is_loose ≡ false }
        requires awaited { self.old.awaited ≡ Awaited.Bracket }
        ensures led { OnOk result (IsLed (signed (reached self.old) byte) self.new) }
        ensures misfit { IfErr result (IsMisfit (signed (reached self.old) byte)) }
        ensures read { OnOk result ((loose : Bool) → ReadsOn loose (byte ∷ []) self.old self.new) }
        ensures plain { IfErr result IsPlain }
    {
        if byte != b'[' {
            return Err(Stop::Misfit);
        }
        self.levels = Levels::new(alloc);
        self.awaited = Awaited::Part;
        Ok(())
    }

    // Takes a parenthesis that opens.
    fn paren(&mut self, alloc: Global, byte: u8) -> Result<(), Stop>
        requires sound { IsSound self.old }
        requires begun { self.old.begun ≡ Begun.Nothing }
        requires loose { self.old.is_loose ≡ false }
        requires awaited { self.old.awaited ≡ Awaited.Part }
        ensures led { OnOk result (IsLed (signed (reached self.old) byte) self.new) }
        ensures misfit { IfErr result (IsMisfit (signed (reached self.old) byte)) }
        ensures read { OnOk result ((loose : Bool) → ReadsOn loose (byte ∷ []) self.old self.new) }
        ensures limits { IfErr result (λ e. (loose : Bool) → RefusesOn loose (byte ∷ []) self.old e) }
    {
        if byte != b'(' {
            return Err(Stop::Misfit);
        }
        self.levels.open(alloc)
    }

    // Takes the colon behind a field's name.
    fn colon(&mut self, byte: u8) -> Result<(), Stop>
        requires sound { IsSound self.old }
        requires begun { self.old.begun ≡ Begun.Nothing }
        requires loose { self.old.is_loose ≡ false }
        requires awaited { self.old.awaited ≡ Awaited.Colon }
        ensures led { OnOk result (IsLed (signed (reached self.old) byte) self.new) }
        ensures misfit { IfErr result (IsMisfit (signed (reached self.old) byte)) }
        ensures read { OnOk result ((loose : Bool) → ReadsOn loose (byte ∷ []) self.old self.new) }
        ensures plain { IfErr result IsPlain }
    {
        if byte != b':' {
            return Err(Stop::Misfit);
        }
        self.awaited = Awaited::Part;
        Ok(())
    }

    // Takes a sign behind a part of a type.
    fn joint(&mut self, alloc: Global, byte: u8) -> Result<(), Stop>
        requires sound { IsSound self.old }
        requires begun { self.old.begun ≡ Begun.Nothing }
        requires loose { self.old.is_loose ≡ false }
        requires awaited { self.old.awaited ≡ Awaited.Joint }
        ensures led { OnOk result (IsLed (signed (reached self.old) byte) self.new) }
        ensures misfit { IfErr result (IsMisfit (signed (reached self.old) byte)) }
        ensures read { OnOk result ((loose : Bool) → ReadsOn loose (byte ∷ []) self.old self.new) }
        ensures limits { IfErr result (λ e. (loose : Bool) → RefusesOn loose (byte ∷ []) self.old e) }
    {
        if byte == b'&' {
            return self.ampersand();
        }
        if byte == b')' {
            return self.close(alloc);
        }
        if byte == b']' {
            return self.end_type(alloc);
        }
        if byte != b'-' {
            return Err(Stop::Misfit);
        }
        self.begun = Begun::Dash;
        Ok(())
    }

    // Goes on with a member of a meet.
    fn ampersand(&mut self) -> Result<(), Stop>
        requires sound { IsSound self.old }
        requires begun { self.old.begun ≡ Begun.Nothing }
        requires loose { self.old.is_loose ≡ false }
        requires awaited { self.old.awaited ≡ Awaited.Joint }
        ensures led { OnOk result (IsLed (signed (reached self.old) 38) self.new) }
        ensures misfit { IfErr result (IsMisfit (signed (reached self.old) 38)) }
        ensures read { OnOk result ((loose : Bool) → ReadsOn loose (38 ∷ []) self.old self.new) }
        ensures limits { IfErr result (λ e. (loose : Bool) → RefusesOn loose (38 ∷ []) self.old e) }
    {
        self.awaited = Awaited::Part;
        self.levels.ampersand()
    }

    // Closes a parenthesis.
    fn close(&mut self, alloc: Global) -> Result<(), Stop>
        requires sound { IsSound self.old }
        requires begun { self.old.begun ≡ Begun.Nothing }
        requires loose { self.old.is_loose ≡ false }
        requires awaited { self.old.awaited ≡ Awaited.Joint }
        ensures led { OnOk result (IsLed (signed (reached self.old) 41) self.new) }
        ensures misfit { IfErr result (IsMisfit (signed (reached self.old) 41)) }
        ensures read { OnOk result ((loose : Bool) → ReadsOn loose (41 ∷ []) self.old self.new) }
        ensures plain { IfErr result IsPlain }
    {
        if !self.levels.is_open() {
            return Err(Stop::Misfit);
        }
        self.levels.close(alloc)
    }

    // Ends a type: its subsumption waits for a derivation.
    fn end_type(&mut self, alloc: Global) -> Result<(), Stop>
        requires sound { IsSound self.old }
        requires begun { self.old.begun ≡ Begun.Nothing }
        requires loose { self.old.is_loose ≡ false }
        requires awaited { self.old.awaited ≡ Awaited.Joint }
        ensures led { OnOk result (IsLed (signed (reached self.old) 93) self.new) }
        ensures misfit { IfErr result (IsMisfit (signed (reached self.old) 93)) }
        ensures read { OnOk result ((loose : Bool) → ReadsOn loose (93 ∷ []) self.old self.new) }
        ensures plain { IfErr result IsPlain }
    {
        if self.levels.is_open() {
            return Err(Stop::Misfit);
        }
        let levels = std::mem::replace(&mut self.levels, Levels::new(alloc));
        self.awaited = Awaited::Node;
        self.nodes.open(Open::Sub(levels.into_type(alloc)?))
    }

    // Takes the word of a node.
    fn node(&mut self, alloc: Global, word: NodeWord) -> Result<(), Stop>
        requires waiting { AreWaiting (nodes_of self.old.nodes).waiting }
        requires node { self.old.awaited ≡ Awaited.Node }
        requires unfinished { (nodes_of self.old.nodes).whole ≡ None }
        ensures led { OnOk result (IsLed (Some (spot (after_node (extra (nodes_of self.old.nodes).waiting) word) (nothing true))) self.new) }
        ensures fits { IfErr result (λ e. e ≡ Stop.Misfit → ⊥) }
        ensures read { OnOk result (ReadsWord (node_text word) self.old self.new) }
        ensures limits { IfErr result (RefusesWord (node_text word) self.old) }
    {
        self.begun = Begun::Nothing;
        self.is_loose = true;
        self.nodes.count()?;
        match word {
            NodeWord::Ns => return self.nodes.give(alloc, Derivation::Ns),
            NodeWord::Left => return self.nodes.open(Open::Left),
            NodeWord::Right => return self.nodes.open(Open::Right),
            NodeWord::Sub => self.awaited = Awaited::Bracket,
            NodeWord::Meet => self.awaited = Awaited::Count(Counted::Members),
            NodeWord::Alt => self.awaited = Awaited::Count(Counted::Alternatives),
            NodeWord::Rule => self.awaited = Awaited::Count(Counted::Premises),
        }
        Ok(())
    }
}
