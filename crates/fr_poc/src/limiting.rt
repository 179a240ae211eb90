ghost use Rattle.std.specs.Prelude.{◌≡◌};
ghost use Rattle.fr_cluster.specs.Sane.{IsSane};
ghost use Rattle.fr_poc.specs.Control.{ArePocLimits};
ghost use Rattle.fr_poc.specs.Limits.{limits_of};

use crate::control::PocLimits;
use fr_cluster::{ParamName, Params};

/// The limits of operation control that parameters give.
pub fn poc_limits(params: &Params) -> PocLimits
    ensures value { result ≡ limits_of params.now }
    ensures proper { ArePocLimits result }
    ensures sane { IsSane params.now }
{
    PocLimits {
        passive: params.value(ParamName::gMaxWithoutClockCorrectionPassive) as u8,
        fatal: params.natural(ParamName::gMaxWithoutClockCorrectionFatal) as u8,
        halt_allowed: params.natural(ParamName::pAllowHaltDueToClock) == 1,
        to_active: params.natural(ParamName::pAllowPassiveToActive) as u8,
    }
}
