//! A law of edits that are undone.
ghost use Rattle.nb_model.specs.Network.{Network};
ghost use Rattle.nb_store.specs.Touched.{AreSameBut, touched};
ghost use Rattle.nb_store.specs.Undo.{back};
ghost use Rattle.nb_store.specs.declared.undo.Undo.{Undo};

/// Undoing an edit leaves each record that is at none of the places of its changes.
pub fn undoing_leaves_the_rest()
    ensures { (undo : Undo) (net : Network) → AreSameBut (touched undo) net (back undo net) }
{}
