ghost use Rattle.std.specs.Prelude.{◌≡◌, List, map, Contains};
ghost use Rattle.nb_records.specs.declared.router.Router.{Router};
ghost use Rattle.nb_records.specs.declared.switch.Switch.{Switch};
ghost use Rattle.nb_model.specs.Network.{Network};
ghost use Rattle.nb_model.specs.Sound.{IsSound};
ghost use Rattle.net_meaning.specs.Walk.{Told, events};
ghost use Rattle.sb_model.specs.declared.stage.DatapathKind.TheVariants as kinds;
ghost use Rattle.tr_stage.specs.declared.outcome.Hit.{Hit};
ghost use Rattle.tr_pipe.specs.Runnable.{IsRunnable};
ghost use Rattle.ls_laws.specs.Steps.{flows_at};
ghost use Rattle.tr_walk.specs.Events.{event_of, without_hits};
ghost use Rattle.tr_walk.specs.Reads.{FindWhatTheyRead};
ghost use Rattle.tr_walk.specs.Refined.{IsIngress, IsEgress, IsLate, IsRefined, KeepsStates};
ghost use Rattle.tr_walk.specs.Runnable.{AreRunnable, StagesTakeEach};

/// The pipelines of a switch do what the switch does with a packet that arrives, leaves, or leaves late, in each sound network, from each
/// state of numbers that fit.
pub fn pipelines_do_their_parts()
    ensures ingress { (net : Network) → IsSound net → IsIngress net }
    ensures egress { (net : Network) → IsSound net → IsEgress net }
    ensures late { (net : Network) → IsSound net → IsLate net }
{}

/// In each sound network the rows do with each packet what the network does with it, from each state of numbers that fit, and leave such a
/// state.
pub fn networks_are_refined()
    ensures refined { (net : Network) → IsSound net → IsRefined net }
    ensures states { (net : Network) → IsSound net → KeepsStates net }
{}

/// In the rows of each network each stage takes each packet: those of a switch on each of its switches, and those of a router on each of
/// its routers.
pub fn each_stage_takes_each_packet()
    ensures switches { (net : Network) (switch : Switch) → Contains net.switches switch → StagesTakeEach kinds.Switch (flows_at net switch.id) }
    ensures routers { (net : Network) (router : Router) → Contains net.routers router → StagesTakeEach kinds.Router (flows_at net router.id) }
{}

/// In the rows of each sound network each packet comes to an end on each of its switches and of its routers: they are as `run_pipeline` of
/// `tr_pipe` asks for, and as `trace` does.
pub fn rows_of_networks_are_runnable()
    ensures switches { (net : Network) → IsSound net → (switch : Switch) → Contains net.switches switch → IsRunnable (flows_at net switch.id) }
    ensures routers { (net : Network) → IsSound net → (router : Router) → Contains net.routers router → IsRunnable (flows_at net router.id) }
    ensures walks { (net : Network) → IsSound net → AreRunnable net }
{}

/// In the rows of each sound network no action reads a field that the packet does not have.
pub fn rows_find_what_they_read()
    ensures { (net : Network) → IsSound net → FindWhatTheyRead net }
{}

/// The events of a walk by rows, hits left out, are what happens in it.
pub fn hits_are_left_out()
    ensures { (told : List (Told Hit)) → without_hits (map event_of told) ≡ events told }
{}
