ghost use Rattle.std.specs.Prelude.{◌≡◌, None};
ghost use Rattle.nb_records.specs.declared.edit.Edit.{Edit};
ghost use Rattle.nb_model.specs.Effect.{effect};
ghost use Rattle.nb_model.specs.Network.{Network};
ghost use Rattle.nb_model.specs.Readable.{IsReadable};
ghost use Rattle.nb_model.specs.Sound.{AreNumbered, AreNamed, AreApart, AreReadable};
ghost use Rattle.nb_model.specs.Tests.{refusal};

/// Names stay apart after an edit that no test refuses.
pub fn edits_keep_names()
    ensures { (net : Network) (edit : Edit) → AreNamed net → refusal net edit ≡ None → AreNamed (effect net edit) }
{}

/// No two records say the same after an edit that no test refuses.
pub fn edits_keep_records_apart()
    ensures { (net : Network) (edit : Edit) → AreNamed net → AreApart net → refusal net edit ≡ None → AreApart (effect net edit) }
{}

/// Records stay such as readings give, whatever the tests say.
pub fn edits_keep_records_readable()
    ensures { (net : Network) (edit : Edit) → AreNumbered net → AreReadable net → IsReadable edit → AreReadable (effect net edit) }
{}
