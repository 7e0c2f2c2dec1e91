ghost use Rattle.std.specs.Prelude.{◌≡◌, ◌<◌, None};
ghost use Rattle.nb_records.specs.declared.edit.Edit.{Edit};
ghost use Rattle.nb_model.specs.Effect.{effect};
ghost use Rattle.nb_model.specs.Network.{Network, empty_network};
ghost use Rattle.nb_model.specs.Readable.{IsReadable};
ghost use Rattle.nb_model.specs.Sound.{IsSound};
ghost use Rattle.nb_model.specs.Tests.{refusal};
ghost use Rattle.nv_base.specs.Object.{number_limit};

/// The network without objects is sound.
pub fn the_empty_network_is_sound()
    ensures { IsSound empty_network }
{}

/// An edit that no test refuses leaves a sound network sound, as long as the next number stays below its bound.
pub fn edits_leave_sound_networks()
    ensures { (net : Network) (edit : Edit) → IsSound net → IsReadable edit → (effect net edit).next < number_limit
        → refusal net edit ≡ None → IsSound (effect net edit) }
{}
