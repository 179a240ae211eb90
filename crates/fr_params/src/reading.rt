ghost use Rattle.std.specs.Prelude.{◌≡◌, ◌<◌, ◌++◌, ℕ, pos, Some, IfOk, IfErr, OnOk, slice_index_or};
ghost use Rattle.fr_text.specs.Records.{records_of};
ghost use Rattle.fr_text.specs.Refusal.{NoneRefused};
ghost use Rattle.fr_text.specs.Kind.{Reads};
ghost use Rattle.fr_params.specs.Reasons.{param_reason_after};
ghost use Rattle.fr_cluster.specs.Values.{figure};
ghost use Rattle.fr_cluster.specs.Numbers.{AreInRange, amount_in, number_in};
ghost use Rattle.fr_cluster.specs.Constraints.{AllHold, key_slots};
ghost use Rattle.fr_params.specs.Draft.{AreNumbers, IsDraftOf, entry};
ghost use Rattle.fr_params.specs.Lists.{as_list, listed};
ghost use Rattle.fr_cluster.specs.Sane.{AreSaneLists, IsSane};
ghost use Rattle.fr_params.specs.Files.{IsMissingIn, RefusesParams, params_file};
ghost use Rattle.fr_cluster.specs.declared.names.ParamName.{ParamName as Name};
ghost use Rattle.fr_params.specs.declared.names.Version.TheVariants.{One};
ghost use Rattle.fr_params.specs.Versions.{name_at, row_name};

use crate::draft::Draft;
use crate::fault::ParamFault;
use crate::making::{ClusterFault, params_of};
use crate::names::{NAMES_OF_TWO, Version, place_of};
use fr_cluster::{NodeSpec, ParamName, Params, SlotSpec};
use fr_text::{RowFault, read_all};
use std::alloc::{AllocError, Global};

/// Reads a parameter file. A file whose first record is `version,2,,,` is of version 2, any other of version 1:
/// the table of version 1 has one delay compensation for both channels, that of version 2 one for each. It
/// accepts exactly the files of which no record is refused, that have a row for each name of the table of their
/// version, and whose numbers, nodes and slots meet the eight constraints; the answer is what the file stands
/// for. In that of a file of version 1 both delay compensations are its one.
///
/// Its refusal is the first in this order: `Row`, the first record that is refused, by its number from 1,
/// with the least reason that holds; `Missing`, the first name of the table of the file's version that has no
/// row; `Constraint`, the least number of a constraint that fails. `NoMemory` comes where memory ran out.
pub fn read(alloc: Global, bytes: &[u8]) -> Result<Params, ParamFault>
    ensures reads { Reads params_file bytes.now result }
    ensures sane { IfOk result IsSane }
{
    let draft = read_rows(alloc, bytes)?;
    let numbers = match all_numbers(draft.version_told(), &draft.tables.values) {
        Ok(numbers) => numbers,
        Err(name) => return Err(ParamFault::Missing(name)),
    };
    let Ok(nodes) = listed_nodes(alloc, &draft.tables.nodes) else {
        return Err(ParamFault::NoMemory);
    };
    let Ok(slots) = listed_slots(alloc, &draft.tables.slots) else {
        return Err(ParamFault::NoMemory);
    };
    match params_of(alloc, &numbers, nodes, slots) {
        Ok(params) => Ok(params),
        Err(ClusterFault::Constraint(number)) => Err(ParamFault::Constraint(number)),
        Err(ClusterFault::NoMemory) => Err(ParamFault::NoMemory),
    }
}

fn read_rows(alloc: Global, bytes: &[u8]) -> Result<Draft, ParamFault>
    ensures holds { IfOk result (λ draft. IsDraftOf draft bytes.now) }
    ensures refused { IfErr result (λ fault. RefusesParams bytes.now fault) }
{
    let mut draft = Draft::new();
    match read_all(alloc, bytes, &mut draft) {
        Ok(()) => Ok(draft),
        Err(RowFault::Row { number, reason }) => Err(ParamFault::Row { number, reason }),
        Err(RowFault::NoMemory) => Err(ParamFault::NoMemory),
    }
}

// The numbers of the table of version 2, each of the row that has it, or the first name of the file's version
// that has no row.
fn all_numbers(version: Version, values: &[Option<i64>; 21]) -> Result<[i64; 20], ParamName>
    ensures all { IfOk result (AreNumbers version values.now) }
    ensures missing { IfErr result (λ name. IsMissingIn version values.now name) }
{
    let mut numbers = [0; 20];
    for place in 0..20 {
        let name = row_name(version, NAMES_OF_TWO[place]);
        match values[place_of(name)] {
            Some(value) => numbers[place] = value,
            None => return Err(name),
        }
    }
    Ok(numbers)
}

// The name whose row has the number of a name of version 2.
fn row_name(version: Version, name: ParamName) -> ParamName
    ensures { result ≡ row_name version name }
{
    match version {
        Version::One => row_name_in_one(name),
        Version::Two => name,
    }
}

fn row_name_in_one(name: ParamName) -> ParamName
    ensures { result ≡ row_name One name }
{
    match name {
        ParamName::pDelayCompensationA => ParamName::pDelayCompensation,
        ParamName::pDelayCompensationB => ParamName::pDelayCompensation,
        other => other,
    }
}

fn listed_nodes(alloc: Global, nodes: &[Option<NodeSpec>; 65]) -> Result<Vec<NodeSpec>, AllocError>
    ensures { IfOk result (λ list. list.items ≡ listed 64 (entry nodes.now)) }
{
    let mut items = Vec::new(alloc);
    for earlier in 0..64 {
        push_entry(&mut items, &nodes[earlier + 1])?;
    }
    Ok(items)
}

fn listed_slots(
    alloc: Global,
    slots: &[Option<SlotSpec>; 1024],
) -> Result<Vec<SlotSpec>, AllocError>
    ensures { IfOk result (λ list. list.items ≡ listed 1023 (entry slots.now)) }
{
    let mut items = Vec::new(alloc);
    for earlier in 0..1023 {
        push_entry(&mut items, &slots[earlier + 1])?;
    }
    Ok(items)
}

fn push_entry<T: Copy>(items: &mut Vec<T>, entry: &Option<T>) -> Result<(), AllocError>
    ensures { OnOk result (items.new.items ≡ items.old.items ++ as_list entry.now) }
{
    match entry {
        Some(item) => {
            items.push(*item)?;
            Ok(())
        }
        None => Ok(()),
    }
}
