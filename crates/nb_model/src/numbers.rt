ghost use Rattle.std.specs.Prelude.{◌≡◌, ◌⊎◌, ◌+◌, ◌<◌, None};
ghost use Rattle.nb_records.specs.declared.edit.Edit.{Edit};
ghost use Rattle.nb_model.specs.Amounts.{over_limit};
ghost use Rattle.nb_model.specs.Effect.{effect};
ghost use Rattle.nb_model.specs.Network.{Network};
ghost use Rattle.nb_model.specs.Sound.{AreNumbered, Refer};
ghost use Rattle.nb_model.specs.Tests.{refusal};
ghost use Rattle.nv_base.specs.Object.{number_limit};

/// An edit leaves every number drawn once, each kind by rising number, as long as the next number stays below its bound.
pub fn edits_keep_numbers()
    ensures { (net : Network) (edit : Edit) → AreNumbered net → (effect net edit).next < number_limit → AreNumbered (effect net edit) }
{}

/// An edit draws the next number, or none.
pub fn edits_draw_one_number()
    ensures { (net : Network) (edit : Edit) → ((effect net edit).next ≡ net.next) ⊎ ((effect net edit).next ≡ net.next + 1) }
{}

/// An edit leaves each number that a record holds that of an object of its kind.
pub fn edits_keep_references()
    ensures { (net : Network) (edit : Edit) → Refer net → Refer (effect net edit) }
{}

/// An edit that no test refuses keeps within the limits.
pub fn edits_keep_limits()
    ensures { (net : Network) (edit : Edit) → refusal net edit ≡ None → over_limit (effect net edit) ≡ None }
{}
