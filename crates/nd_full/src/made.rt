//! The rows of units, as makers give them.
ghost use Rattle.std.specs.Prelude.{◌≡◌, [], ◌++◌, OnOk};
ghost use Rattle.net_rows.specs.Acls.{port_acl_rules, switch_acl_rules};
ghost use Rattle.net_rows.specs.LoadBalancers.{switch_lb_rules};
ghost use Rattle.net_rows.specs.Lookup.{switch_l2_rules, port_l2_rules};
ghost use Rattle.net_rows.specs.PortSecurity.{switch_sec_rules, port_sec_rules};
ghost use Rattle.net_rows.specs.Unit.{unit_of, unit_of_datapath, unit_rows};
ghost use Rattle.nd_full.specs.inner.Made.{acl_unit, switch_units, vip_unit};

use inc_table::Maker;
use ls_acl::{AclOn, PortAcl, SwitchAcl};
use ls_l2::{PortL2, SwitchL2};
use ls_lb::{SwitchLb, VipSwitch};
use ls_sec::{PortSec, SwitchSec};
use nb_records::{Acl, Lb, Vip};
use nd_inputs::acl_on_input;
use nd_maker::UnitMaker;
use net_rows::{PortAclInput, PortL2Input, PortSecInput, SwitchAclInput, SwitchL2Input, vip_input};
use nv_base::{ObjId, OutOfMemory};
use sb_rows::NewRows;
use std::alloc::Global;
use std::marker::Model;

/// The rows so far, and the makers of more. A clause sees it as the list of the rows.
#[derive(Drop)]
pub(crate) struct MadeRows {
    rows: NewRows,
    switch_sec: UnitMaker<SwitchSec>,
    switch_acl: UnitMaker<SwitchAcl>,
    switch_lb: UnitMaker<SwitchLb>,
    switch_l2: UnitMaker<SwitchL2>,
    port_sec: UnitMaker<PortSec>,
    port_acl: UnitMaker<PortAcl>,
    port_l2: UnitMaker<PortL2>,
    acl_on: UnitMaker<AclOn>,
    vip_switch: UnitMaker<VipSwitch>,
}

impl Model for MadeRows {
    ghost use Rattle.std.specs.Prelude.{List};
    ghost use Rattle.sb_model.specs.declared.row.Row.{Row};
    ghost use Rattle.sb_model.specs.contracts.row.Row as row_of;
    ghost use Rattle.std.specs.Coded.{codes};

    ghost Value = { List Row };

    ghost coded = { Prim.hlevel (codes, row_of.the_row.coded) };

    ghost view = { λ m. m.rows };
}

impl MadeRows {
    /// No rows.
    pub(crate) fn new(alloc: Global) -> Self
        ensures { result ≡ [] }
    {
        MadeRows {
            rows: NewRows::new(alloc),
            switch_sec: UnitMaker::new(SwitchSec),
            switch_acl: UnitMaker::new(SwitchAcl),
            switch_lb: UnitMaker::new(SwitchLb),
            switch_l2: UnitMaker::new(SwitchL2),
            port_sec: UnitMaker::new(PortSec),
            port_acl: UnitMaker::new(PortAcl),
            port_l2: UnitMaker::new(PortL2),
            acl_on: UnitMaker::new(AclOn),
            vip_switch: UnitMaker::new(VipSwitch),
        }
    }

    /// The rows.
    pub(crate) fn into_rows(self) -> NewRows
        ensures { result ≡ self }
    {
        self.rows
    }

    /// The rows of the units of a switch come after the others.
    pub(crate) fn add_switch(
        &mut self,
        alloc: Global,
        switch: ObjId,
        acl: &SwitchAclInput,
        lookup: &SwitchL2Input,
    ) -> Result<(), OutOfMemory>
        ensures { OnOk result (self.new ≡ self.old ++ switch_units switch acl.now lookup.now) }
    {
        self.add_switch_sec(alloc, switch)?;
        self.add_switch_acl(alloc, switch, acl)?;
        self.add_switch_lb(alloc, switch)?;
        self.add_switch_l2(alloc, switch, lookup)?;
        Ok(())
    }

    fn add_switch_sec(&mut self, alloc: Global, switch: ObjId) -> Result<(), OutOfMemory>
        ensures { OnOk result (self.new ≡ self.old ++ unit_rows (unit_of_datapath switch) switch_sec_rules) }
    {
        let rows = self.switch_sec.make(alloc, &switch, &())?;
        self.rows.append(rows)
    }

    fn add_switch_acl(
        &mut self,
        alloc: Global,
        switch: ObjId,
        input: &SwitchAclInput,
    ) -> Result<(), OutOfMemory>
        ensures { OnOk result (self.new ≡ self.old ++ unit_rows (unit_of_datapath switch) (switch_acl_rules input.now)) }
    {
        let rows = self.switch_acl.make(alloc, &switch, input)?;
        self.rows.append(rows)
    }

    fn add_switch_lb(&mut self, alloc: Global, switch: ObjId) -> Result<(), OutOfMemory>
        ensures { OnOk result (self.new ≡ self.old ++ unit_rows (unit_of_datapath switch) switch_lb_rules) }
    {
        let rows = self.switch_lb.make(alloc, &switch, &())?;
        self.rows.append(rows)
    }

    fn add_switch_l2(
        &mut self,
        alloc: Global,
        switch: ObjId,
        input: &SwitchL2Input,
    ) -> Result<(), OutOfMemory>
        ensures { OnOk result (self.new ≡ self.old ++ unit_rows (unit_of_datapath switch) (switch_l2_rules input.now)) }
    {
        let rows = self.switch_l2.make(alloc, &switch, input)?;
        self.rows.append(rows)
    }

    /// The rows of the port security of a port come after the others.
    pub(crate) fn add_port_sec(
        &mut self,
        alloc: Global,
        port: ObjId,
        input: &PortSecInput,
    ) -> Result<(), OutOfMemory>
        ensures { OnOk result (self.new ≡ self.old ++ unit_rows (unit_of input.now.dp port) (port_sec_rules input.now)) }
    {
        let rows = self.port_sec.make(alloc, &port, input)?;
        self.rows.append(rows)
    }

    /// The rows of a port in the stages of ACLs come after the others.
    pub(crate) fn add_port_acl(
        &mut self,
        alloc: Global,
        port: ObjId,
        input: &PortAclInput,
    ) -> Result<(), OutOfMemory>
        ensures { OnOk result (self.new ≡ self.old ++ unit_rows (unit_of input.now.dp port) (port_acl_rules input.now)) }
    {
        let rows = self.port_acl.make(alloc, &port, input)?;
        self.rows.append(rows)
    }

    /// The rows of the lookup of a port come after the others.
    pub(crate) fn add_port_l2(
        &mut self,
        alloc: Global,
        port: ObjId,
        input: &PortL2Input,
    ) -> Result<(), OutOfMemory>
        ensures { OnOk result (self.new ≡ self.old ++ unit_rows (unit_of input.now.dp port) (port_l2_rules input.now)) }
    {
        let rows = self.port_l2.make(alloc, &port, input)?;
        self.rows.append(rows)
    }

    /// The rows of an ACL on a switch come after the others.
    pub(crate) fn add_acl(
        &mut self,
        alloc: Global,
        switch: ObjId,
        tracks: bool,
        acl: &Acl,
    ) -> Result<(), OutOfMemory>
        ensures { OnOk result (self.new ≡ self.old ++ acl_unit switch tracks acl.now) }
    {
        let input = acl_on_input(alloc, acl, tracks)?;
        let rows = self.acl_on.make(alloc, &(acl.id, switch), &input)?;
        self.rows.append(rows)
    }

    /// The rows of a VIP on a switch come after the others.
    pub(crate) fn add_vip(
        &mut self,
        alloc: Global,
        switch: ObjId,
        lb: &Lb,
        vip: &Vip,
    ) -> Result<(), OutOfMemory>
        ensures { OnOk result (self.new ≡ self.old ++ vip_unit switch lb.now vip.now) }
    {
        let input = vip_input(alloc, lb, vip)?;
        let rows = self
            .vip_switch
            .make(alloc, &(lb.id, vip.at, switch), &input)?;
        self.rows.append(rows)
    }
}
