ghost use Rattle.std.specs.Prelude.{◌≡◌, ◌↔◌, [], false, OnOk, OnErr, IfErr, IsErrOf};
ghost use Rattle.std.specs.Option.{option_map};
ghost use Rattle.fr_base.specs.Device.{IsLoaded, IsOneLoadLater, StopsLoad, raised};
ghost use Rattle.flexray_c.specs.Lent.{GivesLent, is_lent, lent_in, lent_shelf, lent_state, lent_under, missing_faults};

use fr_base::{LoadFault, MAX_FILE, Shelf};

/// A shelf over bytes of a caller: three files, called `first`, `second` and `third`. Of these no fault is ever counted. No
/// other name has a file: all these have one count, which rises at each load and stays at its last value. It does not tell
/// which names were asked for.
#[derive(Drop)]
pub struct LentFiles<'a> {
    first: &'a [u8],
    second: &'a [u8],
    third: &'a [u8],
    missing: u64,
}

impl<'a> LentFiles<'a> {
    /// A shelf over these files, of which none was loaded. It takes no memory.
    pub fn new(first: &'a [u8], second: &'a [u8], third: &'a [u8]) -> LentFiles<'a>
        ensures { lent_state result ≡ lent_shelf first.now second.now third.now 0 }
    {
        LentFiles {
            first,
            second,
            third,
            missing: 0,
        }
    }

    // The file under a name.
    fn under(&self, name: &str) -> Option<&'a [u8]>
        ensures { option_map (λ bytes. bytes.now) result ≡
            lent_under self.now.first.now self.now.second.now self.now.third.now name.now }
    {
        match name {
            "first" => Some(self.first),
            "second" => Some(self.second),
            "third" => Some(self.third),
            _ => None,
        }
    }
}

impl Shelf for LentFiles<'_> {
    ghost state = { lent_state };

    fn load(&mut self, name: &str, into: &mut Vec<u8>) -> Result<(), LoadFault>
        requires { into.old.items ≡ [] }

        // what every shelf promises
        ensures loaded { OnOk result (IsLoaded (lent_state self.old) name.now into.new.items) }
        ensures stops { IfErr result (StopsLoad (lent_state self.old) (lent_state self.new) name.now) }
        ensures emptied { OnErr result (into.new.items ≡ []) }
        ensures later { IsOneLoadLater (lent_state self.old) (lent_state self.new) name.now }

        // What is given of the file under the name, and when nothing is.
        ensures gives { GivesLent (lent_in self.old name.now) result into.new.items }

        // A load fails exactly where the name is none of the three. It is counted once then, and nothing else is.
        ensures failed { IsErrOf result LoadFault.Failed ↔ (is_lent name.now ≡ false) }
        ensures counted { IsErrOf result LoadFault.Failed → missing_faults self.new ≡ raised (missing_faults self.old) }
        ensures quiet { (IsErrOf result LoadFault.Failed → ⊥) → missing_faults self.new ≡ missing_faults self.old }
    {
        let Some(bytes) = self.under(name) else {
            self.missing = self.missing.saturating_add(1);
            return Err(LoadFault::Failed);
        };
        if bytes.len() > MAX_FILE {
            return Err(LoadFault::TooLong {
                seen: bytes.len() as u64,
            });
        }
        match into.extend_from_slice(bytes) {
            Ok(()) => Ok(()),
            Err(_) => Err(LoadFault::NoMemory),
        }
    }
}
