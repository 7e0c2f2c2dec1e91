//! Laws of the rows of a network, with its switches and its routers: which they are, and in which order; and of the rows of a sound
//! one.
ghost use Rattle.std.specs.Prelude.{◌↔◌};
ghost use Rattle.std.specs.List.{All, Contains};
ghost use Rattle.nb_model.specs.Network.{Network};
ghost use Rattle.nb_model.specs.Sound.{IsSound};
ghost use Rattle.sb_model.specs.declared.row.Row.{Row};
ghost use Rattle.sb_rows.specs.Row.{AreApart, HasTypedMatch, IsInRowOrder};
ghost use Rattle.lr_units.specs.Network.{network_rows, rows_of_units};

/// The rows of a network are those of the units of its switches and of its routers and no others, and they are in row order.
pub fn rows_of_networks_are_those_of_the_units()
    ensures members { (net : Network) (row : Row) → (Contains (network_rows net) row) ↔ (Contains (rows_of_units net) row) }
    ensures ordered { (net : Network) → IsInRowOrder (network_rows net) }
{}

/// Each row of the units of a sound network has a well-typed match.
pub fn rows_of_sound_networks_are_typed()
    ensures { (net : Network) → IsSound net → All HasTypedMatch (rows_of_units net) }
{}

/// No two rows of the units of a sound network agree in datapath, stage, priority, hint and match.
pub fn rows_of_sound_networks_are_apart()
    ensures { (net : Network) → IsSound net → AreApart (rows_of_units net) }
{}
