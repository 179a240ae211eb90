ghost use Rattle.std.specs.Prelude.{◌≡◌, ◌≢◌, ◌≤◌, ◌↔◌, false, ◌++◌, ◌∷◌, ℕ, [], List, Some, None, OnOk, OnErr, IfErr, IsErrOf, IsTrue, length};
ghost use Rattle.std.specs.Option.{option_map};
ghost use Rattle.fr_base.specs.Device.{IsLoaded, IsOneLoadLater, SeesTooLong, StopsLoad, raised};
ghost use Rattle.fr_program.specs.Program.{texts};

use crate::asked_names::AskedNames;
use fr_base::{LoadFault, MAX_FILE, Shelf};
use std::alloc::{AllocError, Global};
use std::collections::BTreeMap;

/// A shelf in memory: names with their bytes, and a count of faults for each name. All names that it
/// does not hold have one count in common, at which a newly held name begins. Chosen loads can be made
/// to fail. Counters stay at their last value. It keeps the names that it was asked for, while there is memory for them.
pub struct MemoryShelf {
    alloc: Global,
    files: BTreeMap<String, HeldFile>,
    missing: u64,
    loads: u64,
    asked: AskedNames,
    failing: Vec<u64>,
}

// One call: a derived drop is opened in each function that drops a value, and proved there.
impl Drop for MemoryShelf {
    fn drop(self) {
        let MemoryShelf {
            alloc: _,
            files: _,
            missing: _,
            loads: _,
            asked: _,
            failing: _,
        } = self;
    }
}

// The bytes under a name, and how often a load of it failed.
#[derive(Drop)]
struct HeldFile {
    bytes: Vec<u8>,
    faults: u64,
}

impl MemoryShelf {
    ghost use Rattle.fr_program.specs.MemoryShelf.{asked_in, held_in, failing_loads, refuses, CountsFault, IsNewShelf, KeepsCounts, OnlyCounts};

    /// A shelf that holds no name. It takes no memory.
    pub fn new(alloc: Global) -> MemoryShelf
        ensures { IsNewShelf result }
    {
        MemoryShelf {
            alloc,
            files: BTreeMap::new(alloc),
            missing: 0,
            loads: 0,
            asked: AskedNames::new(alloc),
            failing: Vec::new(alloc),
        }
    }

    /// Puts the bytes under the name, in the place of those that it had. `AllocError` where memory ran out;
    /// then nothing changed.
    pub fn hold(&mut self, name: &str, bytes: &[u8]) -> Result<(), AllocError>
        ensures held { OnOk result (held_in self.new name.now ≡ Some bytes.now) }
        ensures others { OnOk result ((other : List ℕ) → other ≢ name.now →
            held_in self.new other ≡ held_in self.old other) }
        ensures unchanged { OnErr result ((other : List ℕ) → held_in self.new other ≡ held_in self.old other) }
        ensures counts { KeepsCounts self.old self.new }
        ensures failing { failing_loads self.new ≡ failing_loads self.old }
    {
        let bytes = Vec::from_slice(self.alloc, bytes)?;
        match self.files.get_mut(name) {
            Some(file) => file.bytes = bytes,
            None => {
                let key = String::from_str(self.alloc, name)?;
                let faults = self.missing;
                self.files.insert(key, HeldFile { bytes, faults })?;
            }
        }
        Ok(())
    }

    /// Lists the load of this number, counted from 1, among those that are to fail. `AllocError` where
    /// memory ran out; then nothing changed.
    pub fn fail_at(&mut self, call: u64) -> Result<(), AllocError>
        ensures listed { OnOk result (failing_loads self.new ≡ failing_loads self.old ++ call ∷ []) }
        ensures unchanged { OnErr result (failing_loads self.new ≡ failing_loads self.old) }
        ensures held { (name : List ℕ) → held_in self.new name ≡ held_in self.old name }
        ensures counts { KeepsCounts self.old self.new }
    {
        self.failing.push(call)?;
        Ok(())
    }

    /// The names that it was asked for, in their order, each as often as it was. None where memory ran out for one of
    /// them.
    pub fn asked(&self) -> Option<&[String]>
        ensures { option_map (λ names. texts names.now) result ≡ asked_in self.now }
    {
        self.asked.names()
    }

    // Whether the next load of the name fails.
    fn is_refused(&self, name: &str) -> bool
        ensures { result ≡ refuses self.now name.now }
    {
        let number = self.loads.saturating_add(1);
        self.failing.contains(&number) || !self.files.contains_key(name)
    }

    // Counts a fault of the name.
    fn count(&mut self, name: &str)
        ensures counts { CountsFault self.old self.new name.now }
        ensures only { OnlyCounts self.old self.new }
    {
        match self.files.get_mut(name) {
            Some(file) => raise(&mut file.faults),
            None => raise(&mut self.missing),
        }
    }
}

impl Shelf for MemoryShelf {
    ghost use Rattle.fr_program.specs.MemoryShelf.{faults_in, failing_loads, loads_of, refuses, shelved_in, CountsFault};

    ghost state = { shelved_in };

    fn load(&mut self, name: &str, into: &mut Vec<u8>) -> Result<(), LoadFault>
        requires { into.old.items ≡ [] }

        // what every shelf promises
        ensures loaded { OnOk result (IsLoaded (shelved_in self.old) name.now into.new.items) }
        ensures stops { IfErr result (StopsLoad (shelved_in self.old) (shelved_in self.new) name.now) }
        ensures emptied { OnErr result (into.new.items ≡ []) }
        ensures later { IsOneLoadLater (shelved_in self.old) (shelved_in self.new) name.now }

        // A load fails exactly where its number is listed or the name is not held, and is counted then.
        ensures refuses { IsTrue (refuses self.old name.now) ↔ IsErrOf result LoadFault.Failed }
        ensures counted { IsTrue (refuses self.old name.now) → CountsFault self.old self.new name.now }
        ensures quiet { (refuses self.old name.now ≡ false) → (other : List ℕ) →
            faults_in self.new other ≡ faults_in self.old other }
        ensures numbered { loads_of self.new ≡ raised (loads_of self.old) }
        ensures failing { failing_loads self.new ≡ failing_loads self.old }
    {
        let refused = self.is_refused(name);
        self.loads = self.loads.saturating_add(1);
        self.asked.add(self.alloc, name);
        if refused {
            self.count(name);
            return Err(LoadFault::Failed);
        }
        match self.files.get(name) {
            Some(file) => copy_file(&file.bytes, into),
            None => unreachable!(),
        }
    }
}

// Counts one more.
fn raise(count: &mut u64)
    ensures counted { count.new ≡ raised count.old }
    ensures never_falls { count.old ≤ count.new }
{
    *count = count.saturating_add(1);
}

// Copies the bytes of a file, which are not to be more than a file may have.
pub(crate) fn copy_file(bytes: &[u8], into: &mut Vec<u8>) -> Result<(), LoadFault>
    requires { into.old.items ≡ [] }
    ensures copied { OnOk result (into.new.items ≡ bytes.now) }
    ensures fits { OnOk result (length bytes.now ≤ MAX_FILE) }
    ensures emptied { OnErr result (into.new.items ≡ []) }
    ensures never_failed { IsErrOf result LoadFault.Failed → ⊥ }
    ensures too_long { IfErr result (SeesTooLong (Some bytes.now)) }
{
    if bytes.len() > MAX_FILE {
        return Err(LoadFault::TooLong {
            seen: bytes.len() as u64,
        });
    }
    match into.extend_from_slice(bytes) {
        Ok(()) => Ok(()),
        Err(_) => Err(LoadFault::NoMemory),
    }
}
