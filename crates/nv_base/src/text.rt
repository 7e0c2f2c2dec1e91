use thiserror::Error;

/// The text is no spelling of what it should be.
#[derive(Clone, Copy, Debug, PartialEq, Eq, Error)]
#[error("the text does not spell a value")]
pub struct BadText;
