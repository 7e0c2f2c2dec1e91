ghost use Rattle.std.specs.Prelude.{◌≡◌, ◌++◌, IfOk, OnOk};
ghost use Rattle.net_rows.specs.Unit.{said_by, unit_of};
ghost use Rattle.lr_rows.specs.Routes.{priority_of_route, looked_at, static_rule, static_route_rules};

use crate::leaving::routes_over;
use lr_rows::{Exit, StaticRouteInput, is_within};
use nb_records::RouteBy;
use net_rows::{Rule, Unit, UnitKind};
use nv_base::{Field, Kept, ObjId, OutOfMemory, Prefix};
use sb_model::Stage;
use sb_rows::NewRows;
use std::alloc::Global;

/// A static route: what it is for leaves by its port for the next router, where a port is found for it (ovn-northd(8), 'IP Routing').
/// The key is the route.
#[derive(Drop)]
pub struct StaticRoute;

impl UnitKind for StaticRoute {
    type Key = ObjId;

    type Input = StaticRouteInput;

    ghost unit_for = { λ route input. unit_of input.dp route };

    ghost rules_of = { static_route_rules };

    fn unit(&self, key: &ObjId, input: &StaticRouteInput) -> Unit {
        Unit::of(input.dp, *key)
    }

    fn put(
        &self,
        alloc: Global,
        rows: &mut NewRows,
        unit: Unit,
        input: &StaticRouteInput,
    ) -> Result<(), OutOfMemory> {
        put_static_route_rules(alloc, rows, unit, input)
    }
}

#[tactic(auto, unfolding(lr_rows::specs::Routes::static_route_rules))]
fn put_static_route_rules(
    alloc: Global,
    rows: &mut NewRows,
    unit: Unit,
    input: &StaticRouteInput,
) -> Result<(), OutOfMemory>
    ensures { OnOk result (rows.new ≡ rows.old ++ said_by unit (static_route_rules input.now)) }
{
    match &input.found {
        None => Ok(()),
        Some(exit) => unit.put(rows, static_rule(alloc, input, exit)?),
    }
}

fn static_rule(alloc: Global, input: &StaticRouteInput, exit: &Exit) -> Result<Rule, OutOfMemory>
    ensures { IfOk result (λ r. r ≡ static_rule input.now exit.now) }
{
    let actions = routes_over(alloc, input.nexthop, exit.copy(alloc)?)?;
    Ok(Rule {
        stage: Stage::LrInIpRouting,
        priority: priority_of_route(input.by, input.prefix),
        matching: is_within(looked_at(input.by), input.prefix),
        actions,
    })
}

// Of routes for networks of one length one by destination comes first.
fn priority_of_route(by: RouteBy, net: Prefix) -> u16
    ensures { result ≡ priority_of_route by net }
{
    let first = 4 * u16::from(net.len);
    match by {
        RouteBy::Dst => first + 2,
        RouteBy::Src => first + 1,
    }
}

// The address that a route looks at.
fn looked_at(by: RouteBy) -> Field
    ensures { result ≡ looked_at by }
{
    match by {
        RouteBy::Dst => Field::Ip4Dst,
        RouteBy::Src => Field::Ip4Src,
    }
}
