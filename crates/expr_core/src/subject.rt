ghost use Rattle.std.specs.Prelude.{◌≡◌};
ghost use Rattle.expr_core.specs.Subject.{subject_of};

use crate::{Pred, pred_of};
use nv_base::{Field, field_of};

/// What a part's name means.
#[derive(Clone, Copy)]
pub enum Subject {
    /// A field.
    Field(Field),
    /// A predicate.
    Pred(Pred),
}

/// What the name means, if it is that of a field or of a predicate.
pub fn subject_of(name: &[u8]) -> Option<Subject>
    ensures { result ≡ subject_of name.now }
{
    match field_of(name) {
        Some(field) => Some(Subject::Field(field)),
        None => Some(Subject::Pred(pred_of(name)?)),
    }
}
