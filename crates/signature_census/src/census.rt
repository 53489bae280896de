//! Groups tables into isomorphism classes by their signatures.

ghost use Rattle.std.specs.Prelude.{◌≡◌, ◌<◌, ◌+◌, ◌^◌, ℕ, List, [], length, IfOk, IfErr, OnOk, OnErr};
ghost use Rattle.out_of_memory.specs.Failures.{IfFault};
ghost use Rattle.table_definitions.specs.Places.{IsConnected, IsLeastUnreached};
ghost use Rattle.signature_definitions.specs.Spelling.{IsSignature};
ghost use Rattle.signature_definitions.specs.Census.{signature_in, IsClassed};
ghost use Rattle.signature_census.specs.Texts.{texts_of};

use canonical_labelling::{WalkFault, signature};
use gluing_table::Table;
use indexmap::IndexSet;
use out_of_memory::NoMemory;
use std::alloc::Global;
use std::marker::Model;

/// The signatures of the tables added so far, each once, in the order of their first occurrence. Contracts see this
/// list. Invariant: there are fewer than 2^32.
#[derive(Drop)]
pub struct Census {
    alloc: Global,
    signatures: IndexSet<Vec<u8>>,
}

impl Model for Census {
    ghost use Rattle.std.specs.Prelude.{ℕ, List, length, ◌<◌, ◌^◌};
    ghost use Rattle.signature_census.specs.Texts.{texts_of};

    ghost Value = { List (List ℕ) };

    ghost view = { λ c. texts_of c.signatures.keys };

    ghost invariant = { λ c. length c.signatures.keys < 2 ^ 32 };
}

/// The index of `text` in `texts`, to which it is appended if it does not occur there.
fn place(texts: &mut IndexSet<Vec<u8>>, text: Vec<u8>) -> Result<usize, NoMemory>
    ensures placed { IfOk result (λ class.
        IsClassed (texts_of texts.old.keys) text.items class (texts_of texts.new.keys)) }
    ensures kept { OnErr result (texts.new.keys ≡ texts.old.keys) }
{
    let (class, _) = texts.insert_full(text)?;
    Ok(class)
}

impl Census {
    /// An empty census.
    pub fn new(alloc: Global) -> Census
        ensures { result ≡ [] }
    {
        Census {
            alloc,
            signatures: IndexSet::new(alloc),
        }
    }

    /// The number of classes.
    pub fn len(&self) -> u32
        ensures { result ≡ length self.now }
    {
        self.signatures.len() as u32
    }

    /// The signature of class `class`.
    pub fn signature_of(&self, class: u32) -> &[u8]
        requires { class < length self.now }
        ensures { result.now ≡ signature_in self.now class }
    {
        let text = &self.signatures.as_slice()[class as usize];
        text.as_slice()
    }

    /// Adds `table` and returns its class: the index of its signature, which is appended if it is new. Fails with
    /// `NotConnected`, which names the least tetrahedron not reached from tetrahedron 0, if `table` is disconnected;
    /// after any error the census is unchanged.
    pub fn add(&mut self, table: &Table) -> Result<u32, WalkFault>
        requires { length self.old + 1 < 2 ^ 32 }
        ensures class { IfOk result (λ class.
            (text : List ℕ) × IsSignature table.now text × IsClassed self.old text class self.new) }
        ensures in_range { IfOk result (λ class. class < length self.new) }
        ensures signature { IfOk result (λ class. IsSignature table.now (signature_in self.new class)) }
        ensures connected { OnOk result (IsConnected table.now) }
        ensures fault { IfErr result (λ e. IfFault e (λ f. IsLeastUnreached table.now f.tet)) }
        ensures kept { OnErr result (self.new ≡ self.old) }
    {
        let text = signature(self.alloc, table)?;
        let class = place(&mut self.signatures, text)?;
        Ok(class as u32)
    }
}
