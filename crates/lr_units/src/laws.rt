//! Laws of the rows of the routers of a sound network.
ghost use Rattle.std.specs.Prelude.{◌≡◌, IsTrue, IsFalse};
ghost use Rattle.std.specs.List.{All, Contains};
ghost use Rattle.nb_model.specs.Belongs.{is_among};
ghost use Rattle.nb_model.specs.Network.{Network};
ghost use Rattle.nb_model.specs.Sound.{IsSound, router_ids, switch_ids};
ghost use Rattle.sb_model.specs.Stage.{stage_table};
ghost use Rattle.sb_model.specs.declared.row.Row.{Row};
ghost use Rattle.sb_model.specs.declared.stage.DatapathKind.TheVariants.{Router};
ghost use Rattle.sb_rows.specs.Row.{AreApart, HasTypedMatch};
ghost use Rattle.lr_units.specs.Build.{router_rows};

/// Each row of the routers of a sound network is on a router, and on no switch, in a stage that routers have.
pub fn rows_of_routers_are_on_routers()
    ensures router { (net : Network) → IsSound net → (row : Row) → Contains (router_rows net) row → IsTrue (is_among row.dp (router_ids net)) }
    ensures no_switch { (net : Network) → IsSound net → (row : Row) → Contains (router_rows net) row → IsFalse (is_among row.dp (switch_ids net)) }
    ensures stage { (net : Network) (row : Row) → Contains (router_rows net) row → (stage_table row.stage).kind ≡ Router }
{}

/// Each row of the routers of a sound network has a well-typed match.
pub fn rows_of_routers_are_typed()
    ensures { (net : Network) → IsSound net → All HasTypedMatch (router_rows net) }
{}

/// No two rows of the routers of a sound network agree in datapath, stage, priority, hint and match.
pub fn rows_of_routers_are_apart()
    ensures { (net : Network) → IsSound net → AreApart (router_rows net) }
{}
