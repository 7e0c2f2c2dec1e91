//! Laws of the rows of the switches of a sound network.
ghost use Rattle.std.specs.List.{All};
ghost use Rattle.nb_model.specs.Network.{Network};
ghost use Rattle.nb_model.specs.Sound.{IsSound};
ghost use Rattle.sb_rows.specs.Row.{AreApart, HasTypedMatch};
ghost use Rattle.net_rows.specs.Build.{all_rows};

/// Each row of the units of a sound network has a well-typed match.
pub fn rows_of_sound_networks_are_typed()
    ensures { (net : Network) → IsSound net → All HasTypedMatch (all_rows net) }
{}

/// No two rows of the units of a sound network agree in datapath, stage, priority, hint and match.
pub fn rows_of_sound_networks_are_apart()
    ensures { (net : Network) → IsSound net → AreApart (all_rows net) }
{}
