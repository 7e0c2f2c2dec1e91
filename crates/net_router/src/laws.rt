//! A law of the meaning.
ghost use Rattle.std.specs.Prelude.{◌≡◌, [], option_map};
ghost use Rattle.nv_base.specs.declared.object.ObjId.{ObjId};
ghost use Rattle.pkt_core.specs.Packet.{Values};
ghost use Rattle.ct_core.specs.State.{State};
ghost use Rattle.nb_records.specs.declared.router.RouterPort.{RouterPort};
ghost use Rattle.nb_records.specs.declared.switch.Port.{Port};
ghost use Rattle.nb_model.specs.Network.{Network};
ghost use Rattle.net_meaning.specs.Places.{switch_port};
ghost use Rattle.net_meaning.specs.Switches.{Did, part_of};
ghost use Rattle.net_router.specs.Meaning.{at_port};

/// In a network without router ports what is done at a port is what its switch does.
pub fn networks_without_routers_do_what_their_switches_do()
    ensures { (net : Network) → net.router_ports ≡ [] → (of_switch : Port → Values → State → Did) (of_router : RouterPort → Values → State → Did) (number : ObjId) (packet : Values) (state : State)
        → at_port net of_switch of_router number packet state ≡ part_of state (option_map (λ port. of_switch port packet state) (switch_port net number)) }
{}
