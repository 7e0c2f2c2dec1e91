/// What joins units.
#[derive(Clone, Copy)]
pub(crate) enum Operator {
    /// `&&`
    And,
    /// `||`
    Or,
}
