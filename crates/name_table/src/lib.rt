//! The names that the records of a log declare, each with what it is declared as, in order of declaration.
//!
//! Signals, variables and beacons share one space of names. A contract sees the list of the pairs; a look-up takes the same time
//! however many there are.
#![tactic(auto)]

ghost use Rattle.std.specs.Prelude.{◌≡◌, None, [], ◌∷◌, ◌++◌, OnErr, OnOk, bytes_eq};
ghost use Rattle.std.specs.Map.{lookup};

use indexmap::IndexMap;
use mission_items::Decl;
use std::alloc::Global;
use std::marker::Model;
use tube_io::NoMemory;

/// Names with what they are declared as. A contract sees the list of the pairs, in order of declaration.
#[derive(Drop)]
pub struct NameTable {
    names: IndexMap<Vec<u8>, Decl>,
}

impl Model for NameTable {
    ghost use Rattle.std.specs.Prelude.{ℕ, List, map};
    ghost use Rattle.mission_items.specs.declared.decl.Decl.{Decl};
    ghost use Rattle.name_table.specs.Pairs.{plain};

    ghost Value = { List (List ℕ × Decl) };

    ghost view = { λ t. map plain t.names.entries };
}

impl NameTable {
    /// No names.
    pub fn new(alloc: Global) -> NameTable
        ensures { result ≡ [] }
    {
        NameTable {
            names: IndexMap::new(alloc),
        }
    }

    /// What a name is declared as, if it is declared.
    pub fn find(&self, name: &[u8]) -> Option<Decl>
        ensures { result ≡ lookup (bytes_eq name.now) self.now }
    {
        self.names.get(name).copied()
    }

    /// Declares a name that is not declared yet. Where memory is refused the names stay as they are.
    pub fn declare(&mut self, alloc: Global, name: &[u8], declared: Decl) -> Result<(), NoMemory>
        requires { lookup (bytes_eq name.now) self.old ≡ None }
        ensures added { OnOk result (self.new ≡ self.old ++ (name.now, declared) ∷ []) }
        ensures refused { OnErr result (self.new ≡ self.old) }
    {
        let key = Vec::from_slice(alloc, name)?;
        self.names.insert(key, declared)?;
        Ok(())
    }
}

#[cfg(test)]
mod tests;
