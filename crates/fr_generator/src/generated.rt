ghost use Rattle.std.specs.Prelude.{IfOk};
ghost use Rattle.fr_generator.specs.Generated.{IsGenerated, IsMadeCount};

use crate::cluster::cluster;
use crate::drift::drift_of;
use crate::script::script_of;
use fr_cluster::Params;
use fr_drift::Drift;
use fr_script::Script;
use rand_pcg::Lcg64Xsh32;
use std::alloc::{AllocError, Global};

/// A cluster that was made from a seed.
#[derive(Drop)]
pub struct Generated {
    /// Its parameters, the same for all seeds.
    pub params: Params,
    /// Its drawn clocks and delays.
    pub drift: Drift,
    /// What its arbitrary nodes say.
    pub script: Script,
}

/// The cluster of a seed, over 1 to 10,000 double cycles: eight nodes, of which 7 and 8 are arbitrary. Its
/// clocks, its delays and what the arbitrary nodes say are drawn by the words of the seed. An error comes
/// only where memory ran out.
pub fn generate(alloc: Global, seed: u32, doubles: u32) -> Result<Generated, AllocError>
    requires { IsMadeCount doubles }
    ensures { IfOk result (IsGenerated seed doubles) }
{
    let mut words = Lcg64Xsh32::new(u64::from(seed), 0);
    let Ok(params) = cluster(alloc) else {
        return Err(AllocError);
    };
    let Ok(drift) = drift_of(alloc, &params, &mut words, doubles) else {
        return Err(AllocError);
    };
    let Ok(script) = script_of(alloc, &params, &mut words, doubles) else {
        return Err(AllocError);
    };
    Ok(Generated {
        params,
        drift,
        script,
    })
}
