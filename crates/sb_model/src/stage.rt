//! The stages of the pipelines, and the one table of what is known of each.
ghost use Rattle.std.specs.Prelude.{◌≡◌, Some, IsTrue};
ghost use Rattle.sb_model.specs.Stage.{stage_table, stage_name, table_number, pipeline_of, stage_place, all_stages, is_same_kind, is_same_pipeline, is_at, stage_at, first_stage, next_stage, is_last, last_stage, last_table};
ghost use Rattle.sb_model.specs.inner.Beside.{is_beside, if_beside};
ghost use Rattle.sb_model.specs.inner.Facts.{facts_of};

/// What a datapath is.
#[derive(Clone, Copy, PartialEq, Eq)]
pub enum DatapathKind {
    /// A logical switch.
    Switch,
    /// A logical router.
    Router,
}

/// The two passes of a packet through a datapath: from the port that it came in by, and to the port
/// that it goes out by.
#[derive(Clone, Copy, PartialEq, Eq)]
pub enum Pipeline {
    Ingress,
    Egress,
}

/// The tables of the pipelines, in the order in which rows of one datapath are listed.
/// `Ls` is a logical switch, `Lr` a logical router.
#[derive(Clone, Copy, PartialEq, Eq, PartialOrd, Ord)]
pub enum Stage {
    LsInCheckPortSec,
    LsInPreAcl,
    LsInPreStateful,
    LsInAclEval,
    LsInLb,
    LsInStateful,
    LsInArpRsp,
    LsInL2Lkup,
    LsInL2Unknown,
    LsOutPreAcl,
    LsOutPreStateful,
    LsOutAclEval,
    LsOutStateful,
    LsOutCheckPortSec,
    LrInAdmission,
    LrInLearnNeighbor,
    LrInIpInput,
    LrInUnsnat,
    LrInDefrag,
    LrInDnat,
    LrInIpRouting,
    LrInArpResolve,
    LrInArpRequest,
    LrOutUndnat,
    LrOutSnat,
    LrOutDelivery,
}

// What is known of a stage, beside its name.
#[derive(Clone, Copy)]
struct Facts {
    kind: DatapathKind,
    pipeline: Pipeline,
    table: u8,
}

macro_rules! facts {
    ($kind:ident, $pipeline:ident, $table:literal) => {
        Facts {
            kind: DatapathKind::$kind,
            pipeline: Pipeline::$pipeline,
            table: $table,
        }
    };
}

// What is known of the stages, in the order of their places.
static FACTS: [Facts; 26] = [
    facts!(Switch, Ingress, 0),
    facts!(Switch, Ingress, 1),
    facts!(Switch, Ingress, 2),
    facts!(Switch, Ingress, 3),
    facts!(Switch, Ingress, 4),
    facts!(Switch, Ingress, 5),
    facts!(Switch, Ingress, 6),
    facts!(Switch, Ingress, 7),
    facts!(Switch, Ingress, 8),
    facts!(Switch, Egress, 0),
    facts!(Switch, Egress, 1),
    facts!(Switch, Egress, 2),
    facts!(Switch, Egress, 3),
    facts!(Switch, Egress, 4),
    facts!(Router, Ingress, 0),
    facts!(Router, Ingress, 1),
    facts!(Router, Ingress, 2),
    facts!(Router, Ingress, 3),
    facts!(Router, Ingress, 4),
    facts!(Router, Ingress, 5),
    facts!(Router, Ingress, 6),
    facts!(Router, Ingress, 7),
    facts!(Router, Ingress, 8),
    facts!(Router, Egress, 0),
    facts!(Router, Egress, 1),
    facts!(Router, Egress, 2),
];

// All the stages, in the order of their places.
static STAGES: [Stage; 26] = [
    Stage::LsInCheckPortSec,
    Stage::LsInPreAcl,
    Stage::LsInPreStateful,
    Stage::LsInAclEval,
    Stage::LsInLb,
    Stage::LsInStateful,
    Stage::LsInArpRsp,
    Stage::LsInL2Lkup,
    Stage::LsInL2Unknown,
    Stage::LsOutPreAcl,
    Stage::LsOutPreStateful,
    Stage::LsOutAclEval,
    Stage::LsOutStateful,
    Stage::LsOutCheckPortSec,
    Stage::LrInAdmission,
    Stage::LrInLearnNeighbor,
    Stage::LrInIpInput,
    Stage::LrInUnsnat,
    Stage::LrInDefrag,
    Stage::LrInDnat,
    Stage::LrInIpRouting,
    Stage::LrInArpResolve,
    Stage::LrInArpRequest,
    Stage::LrOutUndnat,
    Stage::LrOutSnat,
    Stage::LrOutDelivery,
];

impl DatapathKind {
    // The last stage of egress.
    #[tactic(auto, unfolding(crate::specs::Stage::next_stage, crate::specs::Stage::stage_at, crate::specs::Stage::all_stages))]
    fn last_stage(self) -> Stage
        ensures stage { result ≡ last_stage self }
        ensures last { IsTrue (is_last result) }
    {
        match self {
            DatapathKind::Switch => Stage::LsOutCheckPortSec,
            DatapathKind::Router => Stage::LrOutDelivery,
        }
    }

    /// The number of the last table of egress, by which packets go out that are made (not from OVN).
    #[tactic(auto, unfolding(crate::specs::Stage::table_number))]
    pub fn last_table(self) -> u8
        ensures { result ≡ last_table self }
    {
        self.last_stage().table()
    }
}

impl Stage {
    /// All the stages, in the order in which rows of one datapath are listed.
    #[tactic(auto, unfolding(crate::specs::Stage::all_stages))]
    pub fn all() -> &'static [Stage; 26]
        ensures { result.now ≡ all_stages }
    {
        &STAGES
    }

    // What is known of the stage, beside its name.
    fn facts(self) -> Facts
        ensures { result ≡ facts_of self }
    {
        FACTS[usize::from(self.place())]
    }

    /// The kind of the datapaths that have the stage.
    pub fn kind(self) -> DatapathKind
        ensures { result ≡ (stage_table self).kind }
    {
        self.facts().kind
    }

    /// The name, as a listing of flows gives it (after ovn-sbctl(8), `lflow-list`; which stages there are is not from
    /// OVN).
    #[tactic(auto, unfolding(crate::specs::Stage::stage_name))]
    pub fn name(self) -> &'static str
        ensures { result.now ≡ stage_name self }
    {
        match self {
            Stage::LsInCheckPortSec => "ls_in_check_port_sec",
            Stage::LsInPreAcl => "ls_in_pre_acl",
            Stage::LsInPreStateful => "ls_in_pre_stateful",
            Stage::LsInAclEval => "ls_in_acl_eval",
            Stage::LsInLb => "ls_in_lb",
            Stage::LsInStateful => "ls_in_stateful",
            Stage::LsInArpRsp => "ls_in_arp_rsp",
            Stage::LsInL2Lkup => "ls_in_l2_lkup",
            Stage::LsInL2Unknown => "ls_in_l2_unknown",
            Stage::LsOutPreAcl => "ls_out_pre_acl",
            Stage::LsOutPreStateful => "ls_out_pre_stateful",
            Stage::LsOutAclEval => "ls_out_acl_eval",
            Stage::LsOutStateful => "ls_out_stateful",
            Stage::LsOutCheckPortSec => "ls_out_check_port_sec",
            Stage::LrInAdmission => "lr_in_admission",
            Stage::LrInLearnNeighbor => "lr_in_learn_neighbor",
            Stage::LrInIpInput => "lr_in_ip_input",
            Stage::LrInUnsnat => "lr_in_unsnat",
            Stage::LrInDefrag => "lr_in_defrag",
            Stage::LrInDnat => "lr_in_dnat",
            Stage::LrInIpRouting => "lr_in_ip_routing",
            Stage::LrInArpResolve => "lr_in_arp_resolve",
            Stage::LrInArpRequest => "lr_in_arp_request",
            Stage::LrOutUndnat => "lr_out_undnat",
            Stage::LrOutSnat => "lr_out_snat",
            Stage::LrOutDelivery => "lr_out_delivery",
        }
    }

    /// The number of the table within its pipeline, from 0.
    #[tactic(auto, unfolding(crate::specs::Stage::table_number))]
    pub fn table(self) -> u8
        ensures { result ≡ table_number self }
    {
        self.facts().table
    }

    /// The pipeline that the stage is a table of.
    #[tactic(auto, unfolding(crate::specs::Stage::pipeline_of))]
    pub fn pipeline(self) -> Pipeline
        ensures { result ≡ pipeline_of self }
    {
        self.facts().pipeline
    }

    /// The place of the stage among all, from 0, which orders the rows of a datapath.
    #[tactic(auto, unfolding(crate::specs::Stage::stage_place))]
    pub fn place(self) -> u8
        ensures { result ≡ stage_place self }
    {
        self as u8
    }

    fn is_of_kind(self, kind: DatapathKind) -> bool
        ensures { result ≡ is_same_kind (stage_table self).kind kind }
    {
        self.kind() == kind
    }

    #[tactic(auto, unfolding(crate::specs::Stage::pipeline_of))]
    fn is_of_pipeline(self, pipeline: Pipeline) -> bool
        ensures { result ≡ is_same_pipeline (stage_table self).pipeline pipeline }
    {
        self.pipeline() == pipeline
    }

    // Whether it is the stage of this table of a pipeline.
    fn is_at(self, kind: DatapathKind, pipeline: Pipeline, table: u8) -> bool
        ensures { result ≡ is_at kind pipeline table self }
    {
        self.is_of_kind(kind) && self.is_of_pipeline(pipeline) && self.facts().table == table
    }

    /// The stage of this table of a pipeline, if there is one.
    pub fn at(kind: DatapathKind, pipeline: Pipeline, table: u8) -> Option<Stage>
        ensures { result ≡ stage_at kind pipeline table }
    {
        Stage::all()
            .iter()
            .find(|stage| stage.is_at(kind, pipeline, table))
            .copied()
    }

    /// The stage that a packet begins in, in this pipeline of this kind of datapath.
    #[tactic(auto, unfolding(crate::specs::Stage::first_stage, crate::specs::Stage::stage_at, crate::specs::Stage::all_stages))]
    pub fn first(kind: DatapathKind, pipeline: Pipeline) -> Stage
        ensures { first_stage kind pipeline ≡ Some result }
    {
        match kind {
            DatapathKind::Switch => match pipeline {
                Pipeline::Ingress => Stage::LsInCheckPortSec,
                Pipeline::Egress => Stage::LsOutPreAcl,
            },
            DatapathKind::Router => match pipeline {
                Pipeline::Ingress => Stage::LrInAdmission,
                Pipeline::Egress => Stage::LrOutUndnat,
            },
        }
    }

    // Whether another stage is of the same pipeline.
    #[tactic(auto, unfolding(crate::specs::Stage::pipeline_of))]
    fn is_beside(self, other: Stage) -> bool
        ensures { result ≡ is_beside self other }
    {
        self.is_of_kind(other.kind()) && self.is_of_pipeline(other.pipeline())
    }

    /// The stage of the next table of the pipeline, if the stage is not the last.
    pub fn next(self) -> Option<Stage>
        ensures { result ≡ next_stage self }
    {
        let stages = Stage::all();
        let place = usize::from(self.place()) + 1;
        if place < stages.len() {
            self.if_beside(stages[place])
        } else {
            None
        }
    }

    // The other stage, if it is of the same pipeline.
    fn if_beside(self, other: Stage) -> Option<Stage>
        ensures { result ≡ if_beside self (Some other) }
    {
        if self.is_beside(other) {
            Some(other)
        } else {
            None
        }
    }
}
