//! Names: texts with numbers.

ghost use Rattle.std.specs.Prelude.{◌≡◌, ◌<◌, [], map, length, IfOk, OnOk, OnErr, slice_get};
ghost use Rattle.std.specs.Option.{option_copied};
ghost use Rattle.fy_types.specs.Names.{AreNames, first_names, number_of, texts_of, with_name, with_names};

use fy_base::OutOfMemory;
use indexmap::IndexSet;
use std::alloc::Global;
use std::marker::Model;

/// The number of a name: its place in a list of names.
pub type Name = u32;

const FIRST_NAMES: [&[u8]; 13] = [
    b"len",
    b"putint",
    b"putchar",
    b"putbool",
    b"read",
    b"intvar",
    b"boolvar",
    b"charvar",
    b"intseq",
    b"boolseq",
    b"charseq",
    b"newintseq",
    b"intvarseq",
];

/// A list of distinct texts that begins with the predefined names. Contracts see it as that list.
#[derive(Debug, Drop)]
pub struct Names {
    texts: IndexSet<Vec<u8>>,
}

impl Model for Names {
    ghost use Rattle.std.specs.Prelude.{List};
    ghost use Rattle.fy_base.specs.Outside.{Bytes};
    ghost use Rattle.fy_types.specs.Names.{AreNames, texts_of};

    ghost Value = { List Bytes };

    ghost view = { λ names. texts_of names.texts.keys };

    ghost invariant = { λ names. AreNames (texts_of names.texts.keys) };
}

impl Names {
    /// The list of the predefined names, which have the numbers 0 to 12: `len`, `putint`, `putchar`, `putbool`, `read`,
    /// `intvar`, `boolvar`, `charvar`, `intseq`, `boolseq`, `charseq`, `newintseq`, `intvarseq`.
    pub fn new(alloc: Global) -> Result<Names, OutOfMemory>
        ensures { IfOk result (λ names. names ≡ first_names) }
    {
        let texts = set_of(alloc, &FIRST_NAMES)?;
        Ok(Names { texts })
    }

    /// The place of the text in the list, which gets it as its last member where it is new. After want of memory the list is as it was.
    pub fn number(&mut self, text: &[u8]) -> Result<Name, OutOfMemory>
        requires { length self.old < 4294967295 }
        ensures number { IfOk result (λ name. name ≡ number_of self.old text.now) }
        ensures names { OnOk result (self.new ≡ with_name self.old text.now) }
        ensures err { OnErr result (self.new ≡ self.old) }
        ensures valid { AreNames self.new }
    {
        if let Some(place) = self.texts.get_index_of(text) {
            return Ok(place as u32);
        }
        let place = self.texts.len();
        add(&mut self.texts, text)?;
        Ok(place as u32)
    }

    /// The text that has the number, or `None` exactly where the number isn't below the list's length. It takes no memory.
    pub fn text(&self, name: Name) -> Option<&[u8]>
        ensures text { option_copied result ≡ slice_get self.now name }
        ensures valid { AreNames self.now }
    {
        let text = self.texts.get_index(name as usize)?;
        Some(text.as_slice())
    }
}

// Adds a text last, unless the set has it. After a refusal the set is as it was.
fn add(texts: &mut IndexSet<Vec<u8>>, text: &[u8]) -> Result<(), OutOfMemory>
    ensures ok { OnOk result (texts_of texts.new.keys ≡ with_name (texts_of texts.old.keys) text.now) }
    ensures err { OnErr result (texts.new.keys ≡ texts.old.keys) }
{
    let alloc = *texts.allocator();
    texts.insert(text.to_vec(alloc)?)?;
    Ok(())
}

// A set of these texts, in order.
fn set_of(alloc: Global, items: &[&[u8]]) -> Result<IndexSet<Vec<u8>>, OutOfMemory>
    ensures { IfOk result (λ texts. texts_of texts.keys ≡ with_names [] (map (λ item. item.now) items.now)) }
{
    let mut texts = IndexSet::new(alloc);
    for item in items {
        add(&mut texts, item)?;
    }
    Ok(texts)
}
