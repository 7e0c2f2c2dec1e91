//! Stages of connections and of load balancers, which do nothing where a switch tracks no connections.
ghost use Rattle.sb_model.specs.declared.stage.Stage.TheVariants as stages;
ghost use Rattle.ls_laws.specs.Steps.{PassesUntracked};

/// Each packet goes on at the next stage, where the switch tracks no connections.
pub fn stages_without_connections_pass()
    ensures ls_in_pre_acl { PassesUntracked stages.LsInPreAcl stages.LsInPreStateful }
    ensures ls_in_pre_stateful { PassesUntracked stages.LsInPreStateful stages.LsInAclEval }
    ensures ls_in_lb { PassesUntracked stages.LsInLb stages.LsInStateful }
    ensures ls_in_stateful { PassesUntracked stages.LsInStateful stages.LsInArpRsp }
    ensures ls_out_pre_acl { PassesUntracked stages.LsOutPreAcl stages.LsOutPreStateful }
    ensures ls_out_pre_stateful { PassesUntracked stages.LsOutPreStateful stages.LsOutAclEval }
    ensures ls_out_stateful { PassesUntracked stages.LsOutStateful stages.LsOutCheckPortSec }
{}
