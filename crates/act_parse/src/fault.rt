use thiserror::Error;

/// Why a text is no action list. An offset is counted in bytes from the beginning of the text.
#[derive(Clone, Copy, Debug, Error)]
pub enum ActionFault {
    /// What is before this offset begins the text of some action list, and with one byte more it begins none.
    #[error("syntax error at byte {0}")]
    Syntax(u32),
    /// Memory ran out.
    #[error("out of memory")]
    Memory,
}
