ghost use Rattle.std.specs.Prelude.{◌≡◌, ◌++◌, ◌∷◌, [], Some, OnOk};
ghost use Rattle.std.specs.Option.{option_map};
ghost use Rattle.fr_base.specs.Device.{Asks};
ghost use Rattle.fr_program.specs.Program.{texts};

use std::alloc::{AllocError, Global};

// The names that were asked for, in their order. Where memory runs out for one, none is told from then on.
#[derive(Drop)]
pub struct AskedNames {
    names: Vec<String>,
    told: bool,
}

impl AskedNames {
    ghost use Rattle.fr_program.specs.AskedNames.{names_told};

    // None yet. It takes no memory.
    pub fn new(alloc: Global) -> AskedNames
        ensures { names_told result ≡ Some [] }
    {
        AskedNames {
            names: Vec::new(alloc),
            told: true,
        }
    }

    // The names, where they are told.
    pub fn names(&self) -> Option<&[String]>
        ensures { option_map (λ names. texts names.now) result ≡ names_told self.now }
    {
        if self.told { Some(&self.names) } else { None }
    }

    // One name more was asked for.
    pub fn add(&mut self, alloc: Global, name: &str)
        ensures { Asks (names_told self.old) (names_told self.new) (name.now ∷ []) }
    {
        if self.told {
            self.told = push(alloc, &mut self.names, name).is_ok();
        }
    }
}

// Puts a name behind the others. `AllocError` where memory ran out.
fn push(alloc: Global, names: &mut Vec<String>, name: &str) -> Result<(), AllocError>
    ensures { OnOk result (texts names.new.items ≡ texts names.old.items ++ name.now ∷ []) }
{
    let name = String::from_str(alloc, name)?;
    names.push(name)?;
    Ok(())
}
