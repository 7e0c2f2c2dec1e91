use nb_limits::Ceilings;
use nb_store::Undo;

/// What takes a line back that was done, with all the room that it takes. Where it is dropped, the line stays.
#[derive(Drop)]
pub struct LineUndo {
    // What undoes its edits.
    pub(crate) undos: Vec<Undo>,
    // What was known before the line of how much there is.
    pub(crate) known: Ceilings,
}
