ghost use Rattle.std.specs.Prelude.{◌≡◌, Some};
ghost use Rattle.std.specs.Option.{IsSome};
ghost use Rattle.tr_stage.specs.Machine.{cause_at};

use crate::Cause;
use sb_model::Stage;

// Why a packet is dropped in a stage that may drop.
pub(crate) fn cause_at(stage: Stage) -> Cause
    requires { IsSome (cause_at stage) }
    ensures { cause_at stage ≡ Some result }
{
    match stage {
        Stage::LsInCheckPortSec | Stage::LsOutCheckPortSec => Cause::PortSec,
        Stage::LsInAclEval | Stage::LsOutAclEval => Cause::Acl,
        Stage::LsInL2Unknown => Cause::Unknown,
        Stage::LrInAdmission => Cause::Admission,
        Stage::LrInIpInput => Cause::IpInput,
        Stage::LrInIpRouting => Cause::NoRoute,
        Stage::LrOutDelivery => Cause::Delivery,
        _ => unreachable!(),
    }
}
