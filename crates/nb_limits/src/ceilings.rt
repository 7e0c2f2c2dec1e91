//! What is known of how much there is of the kinds that no table counts, so that they are seldom counted (not from OVN).
ghost use Rattle.std.specs.Prelude.{◌≡◌, not, nat_lt, length, IfOk};
ghost use Rattle.std.specs.Option.{option_copied};
ghost use Rattle.nb_records.specs.declared.refusal.Kind.TheVariants as kind;
ghost use Rattle.nb_model.specs.Amounts.{amount, bound};
ghost use Rattle.nb_model.specs.Effect.{effect};
ghost use Rattle.nb_model.specs.Network.{Network, empty_network};
ghost use Rattle.nb_model.specs.Sound.{IsSound};
ghost use Rattle.nb_limits.specs.Ceilings.{AreCeilings};
ghost use Rattle.nb_limits.specs.inner.KnownAfter.{reach, with_acl, on_more, with_ports, has_vip_room, own_vips, vips_after, with_lb, known_after};
ghost use Rattle.nb_limits.specs.inner.Weights.{of_owner};
ghost use Rattle.nb_limits.specs.inner.Within.{up_to};
ghost use Rattle.nb_limits.specs.Limitless.{IsSoundButLimits};

use crate::acl_limits::{Measure, acl_switches, match_text, of_owner, switch_count};
use crate::balancer_limits::{attached, backend_count, vip_count, vip_datapaths};
use crate::bounds::bound;
use crate::neighbour_ceilings::neighbours_after;
use crate::neighbour_limits::neighbours;
use crate::within::{raised, raised_by};
use expr_core::{Typed, put_tree};
use nb_records::{Backend, Edit, Group, Kind, Lb};
use nb_store::Records;
use nv_base::{ObjId, OutOfMemory};
use std::alloc::Global;

/// What is known of how much a network has of the kinds that no table counts (not from OVN).
#[derive(Clone, Copy)]
pub struct Ceilings {
    /// There are at most so many ACLs, each counted once for each switch that it applies to.
    pub(crate) acl_switches: Option<u64>,
    /// Their matches have at most so many bytes.
    pub(crate) match_text: Option<u64>,
    /// No load balancer has more VIPs than it may have.
    pub(crate) vips_fit: bool,
    /// No VIP has more backends than it may have.
    pub(crate) backends_fit: bool,
    /// Router ports know at most so many neighbours.
    pub(crate) neighbours: Option<u64>,
    /// There are at most so many VIPs, each counted once for each datapath that has its load balancer.
    pub(crate) vip_datapaths: Option<u64>,
}

impl Ceilings {
    /// What is known of the network without objects (not from OVN).
    pub fn of_nothing() -> Self
        ensures { AreCeilings empty_network result }
    {
        Ceilings {
            acl_switches: Some(0),
            match_text: Some(0),
            vips_fit: true,
            backends_fit: true,
            neighbours: Some(0),
            vip_datapaths: Some(0),
        }
    }

    /// Nothing is known, which is so of each network (not from OVN).
    pub fn unknown() -> Self
        ensures { (net : Network) → AreCeilings net result }
    {
        Ceilings {
            acl_switches: None,
            match_text: None,
            vips_fit: false,
            backends_fit: false,
            neighbours: None,
            vip_datapaths: None,
        }
    }

    /// What is known of the network that an edit leaves of a sound one, whatever the limits say of it (not from OVN). `OutOfMemory`
    /// where memory runs out for an ACL's text, or for the switches that it applies to.
    pub fn after(
        self,
        alloc: Global,
        records: &Records,
        edit: &Edit,
    ) -> Result<Ceilings, OutOfMemory>
        requires sound { IsSound records.now }
        requires known { AreCeilings records.now self }
        ensures { IfOk result (λ known. AreCeilings (effect records.now edit.now) known) }
    {
        self.known_after(alloc, records, edit)
    }

    // The same, by what the edit is.
    fn known_after(
        self,
        alloc: Global,
        records: &Records,
        edit: &Edit,
    ) -> Result<Ceilings, OutOfMemory>
        requires limitless { IsSoundButLimits records.now }
        ensures { IfOk result (λ known. known ≡ known_after records.now self edit.now) }
    {
        match edit {
            Edit::AclAdd {
                owner,
                matching,
                of,
                ..
            } => self.with_acl(alloc, records, records.owner_id(*of, owner), matching),
            Edit::PgSetPorts { name, ports } => {
                let named = ports.as_slice().len() as u64;
                let most = named.min(records.switches().count());
                self.with_ports(alloc, records, records.group_named(name), most)
            }
            Edit::LbAdd { lb, backends, .. } => Ok(Ceilings {
                vips_fit: has_vip_room(records.lb_named(lb)),
                backends_fit: do_fit(backends.as_slice()),
                vip_datapaths: vips_after(records, records.lb_named(lb), self.vip_datapaths),
                ..self
            }),
            Edit::LsLbAdd { lb, .. } | Edit::LrLbAdd { lb, .. } => {
                Ok(self.with_lb(records, records.lb_id(lb)))
            }
            _ => Ok(Ceilings {
                neighbours: neighbours_after(records, edit, self.neighbours),
                ..self
            }),
        }
    }

    /// Whether there are more ACLs than there may be, each counted once for each switch that it applies to. They are counted only
    /// where nothing is known.
    pub(crate) fn is_acl_switch_over(
        &mut self,
        alloc: Global,
        records: &Records,
    ) -> Result<bool, OutOfMemory>
        requires limitless { IsSoundButLimits records.now }
        requires known { AreCeilings records.now self.old }
        ensures over { IfOk result (λ over. over ≡ nat_lt (bound kind.AclSwitch) (amount records.now kind.AclSwitch)) }
        ensures known { AreCeilings records.now self.new }
    {
        if self.acl_switches.is_some() {
            return Ok(false);
        }
        self.acl_switches = acl_switches(alloc, records)?;
        Ok(self.acl_switches.is_none())
    }

    /// Whether the matches of ACLs have more bytes than they may have, each counted once for each switch that its ACL applies to.
    pub(crate) fn is_match_text_over(
        &mut self,
        alloc: Global,
        records: &Records,
    ) -> Result<bool, OutOfMemory>
        requires limitless { IsSoundButLimits records.now }
        requires known { AreCeilings records.now self.old }
        ensures over { IfOk result (λ over. over ≡ nat_lt (bound kind.MatchText) (amount records.now kind.MatchText)) }
        ensures known { AreCeilings records.now self.new }
    {
        if self.match_text.is_some() {
            return Ok(false);
        }
        self.match_text = match_text(alloc, records)?;
        Ok(self.match_text.is_none())
    }

    /// Whether a load balancer has more VIPs than it may have. All are looked at only where nothing is known.
    pub(crate) fn is_vip_over(&mut self, records: &Records) -> bool
        requires { AreCeilings records.now self.old }
        ensures over { result ≡ nat_lt (bound kind.Vip) (amount records.now kind.Vip) }
        ensures known { AreCeilings records.now self.new }
    {
        if self.vips_fit {
            return false;
        }
        let over = vip_count(records) > u64::from(bound(Kind::Vip));
        self.vips_fit = !over;
        over
    }

    /// Whether a VIP has more backends than it may have.
    pub(crate) fn is_backend_over(&mut self, records: &Records) -> bool
        requires { AreCeilings records.now self.old }
        ensures over { result ≡ nat_lt (bound kind.Backend) (amount records.now kind.Backend) }
        ensures known { AreCeilings records.now self.new }
    {
        if self.backends_fit {
            return false;
        }
        let over = backend_count(records) > u64::from(bound(Kind::Backend));
        self.backends_fit = !over;
        over
    }

    /// Whether router ports know more neighbours than they may. They are counted only where nothing is known.
    pub(crate) fn is_neighbour_over(&mut self, records: &Records) -> bool
        requires limitless { IsSoundButLimits records.now }
        requires known { AreCeilings records.now self.old }
        ensures over { result ≡ nat_lt (bound kind.Neighbour) (amount records.now kind.Neighbour) }
        ensures known { AreCeilings records.now self.new }
    {
        if self.neighbours.is_some() {
            return false;
        }
        self.neighbours = neighbours(records, u64::from(bound(Kind::Neighbour)));
        self.neighbours.is_none()
    }

    /// Whether there are more VIPs than there may be, each counted once for each datapath that has its load balancer. They are counted
    /// only where nothing is known.
    pub(crate) fn is_vip_datapath_over(&mut self, records: &Records) -> bool
        requires limitless { IsSoundButLimits records.now }
        requires known { AreCeilings records.now self.old }
        ensures over { result ≡ nat_lt (bound kind.VipDatapath) (amount records.now kind.VipDatapath) }
        ensures known { AreCeilings records.now self.new }
    {
        if self.vip_datapaths.is_some() {
            return false;
        }
        self.vip_datapaths = vip_datapaths(records, u64::from(bound(Kind::VipDatapath)));
        self.vip_datapaths.is_none()
    }

    // What is known once the load balancer of this number, if there is one, is attached to one datapath more.
    fn with_lb(self, records: &Records, number: Option<ObjId>) -> Ceilings
        ensures { result ≡ with_lb records.now self number }
    {
        let Some(number) = number else {
            return self;
        };
        let more = own_vips(records.lbs().get(number));
        Ceilings {
            vip_datapaths: raised(self.vip_datapaths, more, 1, Kind::VipDatapath),
            ..self
        }
    }

    // What is known after one more ACL with this match, if its owner is there.
    fn with_acl(
        self,
        alloc: Global,
        records: &Records,
        owner: Option<ObjId>,
        matching: &Typed,
    ) -> Result<Ceilings, OutOfMemory>
        requires limitless { IsSoundButLimits records.now }
        ensures { IfOk result (λ known. known ≡ with_acl records.now self owner matching.now) }
    {
        let Some(owner) = owner else {
            return Ok(self);
        };
        let switches = reach(records, owner);
        let mut text = Vec::new(alloc);
        put_tree(&mut text, matching)?;
        let length = text.len() as u64;
        Ok(Ceilings {
            acl_switches: raised(self.acl_switches, 1, switches, Kind::AclSwitch),
            match_text: raised(self.match_text, length, switches, Kind::MatchText),
            ..self
        })
    }

    // What is known once this group, if it is there, has other ports, which are on at most so many switches. Where it was on as many,
    // no ACL is looked at.
    fn with_ports(
        self,
        alloc: Global,
        records: &Records,
        group: Option<&Group>,
        most: u64,
    ) -> Result<Ceilings, OutOfMemory>
        requires limitless { IsSoundButLimits records.now }
        ensures { IfOk result (λ known. known ≡ with_ports records.now self (option_copied group.entry) most) }
    {
        let Some(group) = group else {
            return Ok(self);
        };
        let had = switch_count(alloc, records, group)?;
        if had < most {
            self.on_more(alloc, records, group.id, most - had)
        } else {
            Ok(self)
        }
    }

    // What is known once each ACL of a group applies to at most so many more switches.
    fn on_more(
        self,
        alloc: Global,
        records: &Records,
        group: ObjId,
        more: u64,
    ) -> Result<Ceilings, OutOfMemory>
        requires limitless { IsSoundButLimits records.now }
        ensures { IfOk result (λ known. known ≡ on_more records.now self group more) }
    {
        let switches = owned(alloc, records, group, Measure::Count, more, Kind::AclSwitch)?;
        let text = owned(alloc, records, group, Measure::Text, more, Kind::MatchText)?;
        Ok(Ceilings {
            acl_switches: raised_by(self.acl_switches, switches, 1, Kind::AclSwitch),
            match_text: raised_by(self.match_text, text, 1, Kind::MatchText),
            ..self
        })
    }
}

// What the ACLs of this owner weigh, each so many times, where that is within the bound of the kind.
fn owned(
    alloc: Global,
    records: &Records,
    owner: ObjId,
    measure: Measure,
    times: u64,
    kind: Kind,
) -> Result<Option<u64>, OutOfMemory>
    requires limitless { IsSoundButLimits records.now }
    ensures { IfOk result (λ more. more ≡ up_to (bound kind) (of_owner measure records.now owner times)) }
{
    of_owner(
        alloc,
        records,
        owner,
        measure,
        times,
        u64::from(bound(kind)),
    )
}

// To how many switches an ACL of this owner may apply. Those of a group's ports are not counted: there are no more than ports, and
// than switches.
fn reach(records: &Records, owner: ObjId) -> u64
    ensures { result ≡ reach records.now owner }
{
    match records.groups().get(owner) {
        Some(group) => (group.ports.len() as u64).min(records.switches().count()),
        None => 1,
    }
}

// Whether the load balancer, if it is there, may have one VIP more.
fn has_vip_room(lb: Option<&Lb>) -> bool
    ensures { result ≡ has_vip_room (option_copied lb.entry) }
{
    match lb {
        Some(lb) => has_room(lb),
        None => true,
    }
}

fn has_room(lb: &Lb) -> bool
    ensures { result ≡ nat_lt (length lb.now.vips) (bound kind.Vip) }
{
    (lb.vips.as_slice().len() as u64) < u64::from(bound(Kind::Vip))
}

// How many VIPs the load balancer has, if it is there.
fn own_vips(lb: Option<&Lb>) -> u64
    ensures { result ≡ own_vips (option_copied lb.entry) }
{
    match lb {
        Some(lb) => lb.vips.as_slice().len() as u64,
        None => 0,
    }
}

// What is known of the VIPs of datapaths after a VIP more of this load balancer, once for each datapath that has it, or of a new one,
// which none has.
fn vips_after(records: &Records, lb: Option<&Lb>, known: Option<u64>) -> Option<u64>
    requires limitless { IsSoundButLimits records.now }
    ensures { result ≡ vips_after records.now (option_copied lb.entry) known }
{
    match lb {
        Some(lb) => {
            let more = attached(records, lb.id, 1, u64::from(bound(Kind::VipDatapath)));
            raised_by(known, more, 1, Kind::VipDatapath)
        }
        None => known,
    }
}

// Whether a VIP may have these backends.
fn do_fit(backends: &[Backend]) -> bool
    ensures { result ≡ not (nat_lt (bound kind.Backend) (length backends.now)) }
{
    backends.len() as u64 <= u64::from(bound(Kind::Backend))
}
