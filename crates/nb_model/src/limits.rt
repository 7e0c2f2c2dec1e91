ghost use Rattle.std.specs.Prelude.{◌≡◌};
ghost use Rattle.nb_records.specs.declared.edit.Edit.{Edit};
ghost use Rattle.nb_model.specs.Amounts.{first_over, over_limit};
ghost use Rattle.nb_model.specs.Effect.{effect};
ghost use Rattle.nb_model.specs.Network.{Network};
ghost use Rattle.nb_model.specs.Rises.{may_rise};
ghost use Rattle.nb_model.specs.Sound.{IsSound};

/// An edit of a sound network breaks no limit but those of the kinds that it may raise.
pub fn edits_raise_few_kinds()
    ensures { (net : Network) (edit : Edit) → IsSound net → over_limit (effect net edit) ≡ first_over (may_rise edit) (effect net edit) }
{}
