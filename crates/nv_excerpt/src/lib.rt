//! A line of a script as it is shown to a reader: where its words stand, and a part of it with a caret under a place. What is not seen,
//! or is no text, is written as `\t`, `\r` or `\x1b`. It is tested, and not proved.
#![tactic(auto)]

mod excerpt;
mod spans;

pub use excerpt::{put_excerpt, put_shown};
pub use spans::{Span, spans_of};
