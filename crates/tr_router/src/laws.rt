ghost use Rattle.nb_model.specs.Network.{Network};
ghost use Rattle.nb_model.specs.Sound.{IsSound};
ghost use Rattle.tr_router.specs.Parts.{AreRunnable, DoArrive, DoLeave, DoLeaveLate, HasTimeLeft};

/// The pipelines of a router do what the router does with a packet that arrives, leaves, or leaves late, in each sound network.
pub fn pipelines_of_routers_do_their_parts()
    ensures arrive { (net : Network) → IsSound net → DoArrive net }
    ensures leave { (net : Network) → IsSound net → DoLeave net }
    ensures late { (net : Network) → IsSound net → DoLeaveLate net }
{}

/// In the rows of each sound network each packet comes to an end, on each of its routers.
pub fn rows_of_routers_are_runnable()
    ensures { (net : Network) → IsSound net → AreRunnable net }
{}

/// In each sound network a packet that comes to routing has two hops or more to live, so that taking one away leaves one.
pub fn time_to_live_is_left()
    ensures { (net : Network) → IsSound net → HasTimeLeft net }
{}
