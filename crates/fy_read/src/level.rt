//! One level of a type that is read: what stands between a parenthesis, or a bracket, and its end.

ghost use Rattle.std.specs.Prelude.{◌≡◌, ◌+◌, ◌<◌, ◌≤◌, [], IfErr, IfOk, OnOk, length, map};
ghost use Rattle.fy_read.specs.OpenTypes.{no_level, in_fields, in_arrows, meet_all, whole_type, with_field, with_part, with_domain, inside, greatest_nesting, meet_nesting, arrows_nesting, level_nesting};
ghost use Rattle.fy_types.specs.Nested.{type_nesting};
ghost use Rattle.fy_derive.specs.Limits.{most_type_nesting};
ghost use Rattle.fy_types.specs.Reading.{plain_type, types_in};

use crate::stop::Stop;
use fy_types::{Name, Ty, TyList};
use std::alloc::Global;
use std::rc::Rc;

/// What stands between a parenthesis, or a bracket, and its end, as far as it is read.
#[derive(Debug, Drop)]
pub struct Level {
    // What stands before each `->`.
    domains: Vec<Ty>,
    // The members of the meet behind the last `->`.
    members: Vec<Ty>,
    // The fields before the part that comes next.
    fields: Vec<Name>,
    // The nesting of the arrows, as far as their domains make it.
    arrows: usize,
    // The greatest nesting of a member.
    nesting: usize,
    ghost arrows_nest: { arrows ≡ arrows_nesting 0 (map plain_type domains.items) },
    ghost members_nest: { nesting ≡ greatest_nesting (map plain_type members.items) },
}

impl Level {
    ghost use Rattle.fy_read.specs.Levels.{plain_level};

    /// The beginning of a level.
    pub fn new(alloc: Global) -> Level
        ensures { plain_level result ≡ no_level }
    {
        Level {
            domains: Vec::new(alloc),
            members: Vec::new(alloc),
            fields: Vec::new(alloc),
            arrows: 0,
            nesting: 0,
        }
    }

    /// The nodes of the level around the part that comes next.
    pub fn inside(&self) -> usize
        requires { inside (plain_level self.now) ≤ most_type_nesting }
        ensures { result ≡ inside (plain_level self.now) }
    {
        let meet = if self.members.is_empty() { 0 } else { 1 };
        self.domains.len() + meet + self.fields.len()
    }

    /// The nesting of an arrow from the meet of the members, below the domains.
    pub fn arrow_nesting(&self) -> usize
        requires { length (plain_level self.now).domains + meet_nesting (plain_level self.now).members ≤ most_type_nesting }
        ensures { result ≡ length (plain_level self.now).domains + 1 + meet_nesting (plain_level self.now).members }
    {
        self.domains.len() + 1 + self.meet_nesting()
    }

    /// The nesting of a meet of the members with one more, whatever it is.
    pub fn longer_nesting(&self) -> usize
        requires { length (plain_level self.now).domains + greatest_nesting (plain_level self.now).members ≤ most_type_nesting }
        ensures { result ≡ length (plain_level self.now).domains + 1 + greatest_nesting (plain_level self.now).members }
    {
        self.domains.len() + 1 + self.nesting
    }

    // The nesting of the meet of the members.
    fn meet_nesting(&self) -> usize
        requires { meet_nesting (plain_level self.now).members ≤ most_type_nesting }
        ensures { result ≡ meet_nesting (plain_level self.now).members }
    {
        if self.members.len() > 1 {
            self.nesting + 1
        } else {
            self.nesting
        }
    }

    /// The nesting of the whole, if it ends here.
    pub fn whole_nesting(&self) -> usize
        requires { length (plain_level self.now).domains + meet_nesting (plain_level self.now).members ≤ most_type_nesting }
        ensures { result ≡ level_nesting (plain_level self.now) }
    {
        self.arrows.max(self.domains.len() + self.meet_nesting())
    }

    /// Begins a field of the part that comes next.
    pub fn begin_field(&mut self, name: Name) -> Result<(), Stop>
        ensures ok { OnOk result (plain_level self.new ≡ with_field (plain_level self.old) name) }
        ensures err { IfErr result (λ e. e ≡ Stop.OutOfMemory) }
    {
        self.fields.push(name)?;
        Ok(())
    }

    /// Adds a part of that nesting, behind its fields.
    pub fn add(&mut self, alloc: Global, part: Ty, nesting: usize) -> Result<(), Stop>
        requires measured { nesting ≡ type_nesting (plain_type part) }
        requires small { length (plain_level self.old).fields + nesting ≤ most_type_nesting }
        ensures ok { OnOk result (plain_level self.new ≡ with_part (plain_level self.old) (plain_type part)) }
        ensures err { IfErr result (λ e. e ≡ Stop.OutOfMemory) }
    {
        let nesting = nesting + self.fields.len();
        let fields = std::mem::replace(&mut self.fields, Vec::new(alloc));
        let part = with_fields(alloc, fields, part)?;
        self.members.push(part)?;
        self.nesting = self.nesting.max(nesting);
        Ok(())
    }

    /// Takes the members as the domain of an arrow.
    pub fn close_domain(&mut self, alloc: Global) -> Result<(), Stop>
        requires some { 0 < length (plain_level self.old).members }
        requires no_fields { (plain_level self.old).fields ≡ [] }
        requires small { length (plain_level self.old).domains + meet_nesting (plain_level self.old).members ≤ most_type_nesting }
        ensures ok { OnOk result (plain_level self.new ≡ with_domain (plain_level self.old)) }
        ensures err { IfErr result (λ e. e ≡ Stop.OutOfMemory) }
    {
        let nesting = self.arrow_nesting();
        let members = std::mem::replace(&mut self.members, Vec::new(alloc));
        self.nesting = 0;
        let domain = meet_of(alloc, members)?;
        self.domains.push(domain)?;
        self.arrows = self.arrows.max(nesting);
        Ok(())
    }

    /// The whole type.
    pub fn into_type(self, alloc: Global) -> Result<Ty, Stop>
        ensures ok { IfOk result (λ t. plain_type t ≡ whole_type (plain_level self)) }
        ensures err { IfErr result (λ e. e ≡ Stop.OutOfMemory) }
    {
        let whole = meet_of(alloc, self.members)?;
        with_domains(alloc, self.domains, whole)
    }
}

// A part behind its fields.
fn with_fields(alloc: Global, fields: Vec<Name>, part: Ty) -> Result<Ty, Stop>
    ensures ok { IfOk result (λ t. plain_type t ≡ in_fields fields.items (plain_type part)) }
    ensures err { IfErr result (λ e. e ≡ Stop.OutOfMemory) }
{
    let mut whole = part;
    let mut left = fields;
    while let Some(name) = left.pop() {
        whole = Ty::Field(name, Rc::new(alloc, whole)?);
    }
    Ok(whole)
}

// A type behind the domains before it.
fn with_domains(alloc: Global, domains: Vec<Ty>, last: Ty) -> Result<Ty, Stop>
    ensures ok { IfOk result (λ t. plain_type t ≡ in_arrows (map plain_type domains.items) (plain_type last)) }
    ensures err { IfErr result (λ e. e ≡ Stop.OutOfMemory) }
{
    let mut whole = last;
    let mut left = domains;
    while let Some(domain) = left.pop() {
        whole = Ty::Arrow(Rc::new(alloc, domain)?, Rc::new(alloc, whole)?);
    }
    Ok(whole)
}

// The meet of the types, and of one that type.
fn meet_of(alloc: Global, types: Vec<Ty>) -> Result<Ty, Stop>
    ensures ok { IfOk result (λ t. plain_type t ≡ meet_all (map plain_type types.items)) }
    ensures err { IfErr result (λ e. e ≡ Stop.OutOfMemory) }
{
    let mut types = types;
    if types.len() == 1 {
        if let Some(only) = types.pop() {
            return Ok(only);
        }
    }
    Ok(Ty::Meet(list_of(alloc, types)?))
}

// The list of the types.
fn list_of(alloc: Global, types: Vec<Ty>) -> Result<TyList, Stop>
    ensures ok { IfOk result (λ l. types_in l ≡ types.items) }
    ensures err { IfErr result (λ e. e ≡ Stop.OutOfMemory) }
{
    let mut list = TyList::new(alloc);
    for ty in types {
        list.push(ty)?;
    }
    Ok(list)
}
