//! Laws of the rows on routers.
ghost use Rattle.std.specs.List.{flat_map};
ghost use Rattle.nb_model.specs.Network.{Network};
ghost use Rattle.nb_model.specs.Sound.{IsSound};
ghost use Rattle.lr_units.specs.Build.{router_rows};
ghost use Rattle.nd_router.specs.Members.{HaveSameRows};
ghost use Rattle.nd_router.specs.Router.{rows_on};

/// The rows of the routers of a sound network are those on each of them.
pub fn rows_of_routers_are_those_on_each()
    ensures { (net : Network) → IsSound net → HaveSameRows (flat_map (λ router. rows_on net router.id) net.routers) (router_rows net) }
{}
