//! The nodes of a derivation that is read, as far as they are begun.

ghost use Rattle.std.specs.Prelude.{◌≡◌, ◌+◌, ◌<◌, ◌≤◌, [], ◌∷◌, IfOk, IfErr, OnOk, Some, None, length};
ghost use Rattle.std.specs.Option.{option_map, is_some};
ghost use Rattle.fy_derive.specs.Derivations.{most_nodes, most_nesting};
ghost use Rattle.fy_read.specs.Opened.{plain_open, plain_given, filled, nodes_of, given, with_node, PassesCount};
ghost use Rattle.fy_derive.specs.Reading.{plain_derivation};

use crate::stop::Stop;
use fy_derive::{Derivation, DerivationList};
use fy_types::Ty;
use std::alloc::Global;

const MOST_NODES: u32 = 262144;

const MOST_NESTING: usize = 2048;

/// A node that waits for derivations.
#[derive(Debug, Drop)]
pub enum Open {
    Sub(Ty),
    Alt(u32),
    Left,
    Right,
    /// A meet of so many.
    Meet(usize, DerivationList),
    /// A rule with so many premises.
    Rule(usize, DerivationList),
}

// A node that has got a derivation.
#[derive(Debug, Drop)]
enum Given {
    Whole(Derivation),
    Waiting(Open),
}

impl Open {
    // The node with the derivation that it waits for first.
    fn with(self, alloc: Global, d: Derivation) -> Result<Given, Stop>
        ensures ok { IfOk result (λ g. plain_given g ≡ filled (plain_open self) (plain_derivation d)) }
        ensures err { IfErr result (λ e. e ≡ Stop.OutOfMemory) }
    {
        match self {
            Open::Sub(ty) => Ok(Given::Whole(Derivation::Sub(ty, Box::new(alloc, d)?))),
            Open::Alt(index) => Ok(Given::Whole(Derivation::Alt(index, Box::new(alloc, d)?))),
            Open::Left => Ok(Given::Whole(Derivation::Left(Box::new(alloc, d)?))),
            Open::Right => Ok(Given::Whole(Derivation::Right(Box::new(alloc, d)?))),
            Open::Meet(wanted, mut list) => {
                list.push(d)?;
                if list.len() < wanted {
                    return Ok(Given::Waiting(Open::Meet(wanted, list)));
                }
                Ok(Given::Whole(Derivation::Meet(list)))
            }
            Open::Rule(wanted, mut list) => {
                list.push(d)?;
                if list.len() < wanted {
                    return Ok(Given::Waiting(Open::Rule(wanted, list)));
                }
                Ok(Given::Whole(Derivation::Rule(list)))
            }
        }
    }
}

/// The nodes so far: those that wait for derivations, the outermost first, and the whole once it is there.
#[derive(Debug, Drop)]
pub struct Nodes {
    waiting: Vec<Open>,
    count: u32,
    whole: Option<Derivation>,
}

impl Nodes {
    /// No nodes.
    pub fn new(alloc: Global) -> Nodes
        ensures nodes { nodes_of result ≡ record { waiting = []; whole = None } }
        ensures count { result.count ≡ 0 }
    {
        Nodes {
            waiting: Vec::new(alloc),
            count: 0,
            whole: None,
        }
    }

    /// Whether the derivation is whole.
    pub fn is_whole(&self) -> bool
        ensures { result ≡ is_some (nodes_of self.now).whole }
    {
        self.whole.is_some()
    }

    /// The derivation, where it is whole.
    pub fn into_whole(self) -> Option<Derivation>
        ensures { option_map plain_derivation result ≡ (nodes_of self).whole }
    {
        self.whole
    }

    /// Counts a node whose word has ended.
    pub fn count(&mut self) -> Result<(), Stop>
        ensures ok { OnOk result ((self.old.count < most_nodes) × (length (nodes_of self.old).waiting < most_nesting)) }
        ensures counted { OnOk result (self.new.count ≡ self.old.count + 1) }
        ensures nodes { nodes_of self.new ≡ nodes_of self.old }
        ensures err { IfErr result (λ e. PassesCount self.old.count (length (nodes_of self.old).waiting) e) }
    {
        if self.count >= MOST_NODES {
            return Err(Stop::TooLarge);
        }
        self.count += 1;
        if self.waiting.len() >= MOST_NESTING {
            return Err(Stop::TooDeep);
        }
        Ok(())
    }

    /// Puts a node that waits for derivations below the others.
    pub fn open(&mut self, node: Open) -> Result<(), Stop>
        ensures ok { OnOk result (nodes_of self.new ≡ with_node (plain_open node) (nodes_of self.old)) }
        ensures count { self.new.count ≡ self.old.count }
        ensures err { IfErr result (λ e. e ≡ Stop.OutOfMemory) }
    {
        self.waiting.push(node)?;
        Ok(())
    }

    /// Gives a derivation to the node that waits for it, and each whole one that comes of it to the next.
    pub fn give(&mut self, alloc: Global, d: Derivation) -> Result<(), Stop>
        requires { (nodes_of self.old).whole ≡ None }
        ensures ok { OnOk result (nodes_of self.new ≡ given (nodes_of self.old).waiting (plain_derivation d)) }
        ensures count { OnOk result (self.new.count ≡ self.old.count) }
        ensures err { IfErr result (λ e. e ≡ Stop.OutOfMemory) }
    {
        let mut d = d;
        while let Some(node) = self.waiting.pop() {
            match node.with(alloc, d)? {
                Given::Whole(larger) => d = larger,
                Given::Waiting(node) => {
                    self.waiting.push(node)?;
                    return Ok(());
                }
            }
        }
        self.whole = Some(d);
        Ok(())
    }
}
