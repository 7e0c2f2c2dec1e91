ghost use Rattle.std.specs.Prelude.{◌≡◌, ◌<◌, ◌^◌, length, IfOk, IfErr};
ghost use Rattle.act_parse.specs.Fronts.{IsOnlyList, IsFaultOf};

use crate::action::actions;
use crate::fault::ActionFault;
use crate::stop::Stop;
use act_core::Action;
use nv_base::Items;
use std::alloc::Global;

/// Reads an action list: exactly the texts that `put_actions` of act_core writes for well-formed lists. The place of the
/// fault is the length of the longest front that the text of some well-formed list has in common with this text; after
/// `Memory` nothing is said of the text.
pub fn parse_actions(alloc: Global, text: &[u8]) -> Result<Items<Action>, ActionFault>
    requires { length text.now < 2 ^ 32 }
    ensures list { IfOk result (λ actions. IsOnlyList text.now actions) }
    ensures fault { IfErr result (λ fault. IsFaultOf text.now fault) }
{
    match actions(alloc, text) {
        Ok((actions, _)) => Ok(actions),
        Err(Stop::Stuck(left)) => Err(ActionFault::Syntax(text.len().saturating_sub(left) as u32)),
        Err(Stop::Memory) => Err(ActionFault::Memory),
    }
}
