//! Derivations, as trees.

ghost use Rattle.std.specs.Prelude.{◌≡◌, [], ◌∷◌, ◌++◌, OnOk, OnErr, map};
ghost use Rattle.fy_derive.specs.Derivations.{count};
ghost use Rattle.fy_derive.specs.Reading.{derivations_in, plain_derivation, plain_derivations, derivations_from};

use fy_base::OutOfMemory;
use fy_types::Ty;
use std::alloc::Global;

/// A derivation by the typing rules: one node a rule, above the derivations of its premises. The rules
/// are those of Reynolds, "Design of the Programming Language Forsythe", CMU-CS-96-146 (1996), for core
/// phrases.
#[derive(Debug)]
#[cycle(derivation)]
pub enum Derivation {
    /// Every phrase has the type `ns`.
    Ns,
    /// Subsumption to the type.
    Sub(Ty, Box<Derivation>),
    /// The meet of what two or more derivations conclude for the phrase.
    Meet(DerivationList),
    /// The alternative of an abstraction, from 0.
    Alt(u32, Box<Derivation>),
    /// The left operand of a merge.
    Left(Box<Derivation>),
    /// The right operand of a merge.
    Right(Box<Derivation>),
    /// The rule of any other form, with its premises in order.
    Rule(DerivationList),
}

// By hand, so that letting a derivation go is a call and no match with all its rules, which would be proved at each exit that owns one.
impl Drop for Derivation {
    #[cycle(derivation)]
    fn drop(self) {
        match self {
            Derivation::Ns => {}
            Derivation::Sub(_, _) => {}
            Derivation::Meet(_) => {}
            Derivation::Alt(_, _) => {}
            Derivation::Left(_) => {}
            Derivation::Right(_) => {}
            Derivation::Rule(_) => {}
        }
    }
}

/// A list of derivations.
#[derive(Debug, Drop)]
#[cycle(derivation)]
pub struct DerivationList {
    items: Vec<Derivation>,
}

#[tactic(auto, using(crate::proofs::ReadLemmas::readings))]
impl DerivationList {
    /// A list of nothing. It takes no memory.
    pub fn new(alloc: Global) -> DerivationList
        ensures { derivations_in result ≡ [] }
    {
        DerivationList {
            items: Vec::new(alloc),
        }
    }

    /// Adds a derivation last. After a refusal the list is as it was.
    pub fn push(&mut self, item: Derivation) -> Result<(), OutOfMemory>
        ensures ok { OnOk result (derivations_in self.new ≡ derivations_in self.old ++ item ∷ []) }
        ensures err { OnErr result (derivations_in self.new ≡ derivations_in self.old) }
    {
        self.items.push(item)?;
        Ok(())
    }

    /// The number of members.
    pub fn len(&self) -> usize
        ensures { result ≡ count (plain_derivations self.now) }
    {
        self.items.len()
    }

    /// The members.
    pub fn as_slice(&self) -> &[Derivation]
        ensures members { result.now ≡ derivations_in self.now }
        ensures reading { plain_derivations self.now ≡ derivations_from (map plain_derivation result.now) }
    {
        self.items.as_slice()
    }
}
