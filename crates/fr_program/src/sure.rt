ghost use Rattle.std.specs.Prelude.{◌≡◌, ◌≢◌, ℕ, List, [], Some, None, OnOk, OnErr};
ghost use Rattle.std.specs.Option.{option_map};
ghost use Rattle.fr_program.specs.Program.{texts};

use crate::asked_names::AskedNames;
use crate::memory_shelf::copy_file;
use fr_base::{LoadFault, PutFault, Shelf, Sink};
use std::alloc::{AllocError, Global};
use std::collections::BTreeMap;

/// A shelf in memory that never answers `Failed`: names with their bytes, and every other name is an empty
/// file. Its counts of faults are the constant 0. It keeps the names that it was asked for, while there is memory for
/// them.
pub struct SureShelf {
    alloc: Global,
    files: BTreeMap<String, Vec<u8>>,
    asked: AskedNames,
}

// One call: a derived drop is opened in each function that drops a value, and proved there.
impl Drop for SureShelf {
    fn drop(self) {
        let SureShelf {
            alloc: _,
            files: _,
            asked: _,
        } = self;
    }
}

impl SureShelf {
    ghost use Rattle.fr_program.specs.SureShelf.{kept_in, sure_state};

    /// A shelf on which every file is empty, and of which none was asked for. It takes no memory.
    pub fn new(alloc: Global) -> SureShelf
        ensures empty { (name : List ℕ) → kept_in result name ≡ [] }
        ensures unasked { (sure_state result).asked ≡ Some [] }
    {
        SureShelf {
            alloc,
            files: BTreeMap::new(alloc),
            asked: AskedNames::new(alloc),
        }
    }

    /// Puts the bytes under the name, in the place of those that it had. `AllocError` where memory ran out;
    /// then nothing changed.
    pub fn hold(&mut self, name: &str, bytes: &[u8]) -> Result<(), AllocError>
        ensures held { OnOk result (kept_in self.new name.now ≡ bytes.now) }
        ensures others { OnOk result ((other : List ℕ) → other ≢ name.now →
            kept_in self.new other ≡ kept_in self.old other) }
        ensures unchanged { OnErr result ((other : List ℕ) → kept_in self.new other ≡ kept_in self.old other) }
        ensures asked { (sure_state self.new).asked ≡ (sure_state self.old).asked }
    {
        let bytes = Vec::from_slice(self.alloc, bytes)?;
        let key = String::from_str(self.alloc, name)?;
        self.files.insert(key, bytes)?;
        Ok(())
    }

    /// The names that it was asked for, in their order, each as often as it was. None where memory ran out for one of
    /// them.
    pub fn asked(&self) -> Option<&[String]>
        ensures { option_map (λ names. texts names.now) result ≡ (sure_state self.now).asked }
    {
        self.asked.names()
    }
}

impl Shelf for SureShelf {
    ghost use Rattle.fr_program.specs.SureShelf.{sure_state};

    ghost state = { sure_state };

    fn load(&mut self, name: &str, into: &mut Vec<u8>) -> Result<(), LoadFault> {
        self.asked.add(self.alloc, name);
        match self.files.get(name) {
            Some(bytes) => copy_file(bytes, into),
            None => Ok(()),
        }
    }
}

/// A sink that drops every piece and never fails. It tells no bytes and no puts, and its count is the constant 0.
#[derive(Drop)]
pub struct SureSink {}

impl SureSink {
    /// A sink. It takes no memory.
    pub fn new() -> SureSink {
        SureSink {}
    }
}

impl Sink for SureSink {
    ghost state = { λ _. record { written = None; faults = 0; puts = None } };

    fn put(&mut self, _piece: &[u8]) -> Result<(), PutFault> {
        Ok(())
    }
}
