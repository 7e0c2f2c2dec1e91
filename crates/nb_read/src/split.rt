//! The parts of a word.
ghost use Rattle.std.specs.Prelude.{◌≡◌, IfOk, map};
ghost use Rattle.nb_words.specs.Words.{is_separator};
ghost use Rattle.nb_read.specs.Lists.{parts};

use nv_base::OutOfMemory;
use std::alloc::Global;

/// The parts of a word between its separators, without the empty ones (ovn-nb(5), `addresses`, but for the carriage
/// return). Where memory runs out the answer is `OutOfMemory`.
pub fn parts(alloc: Global, text: &[u8]) -> Result<Vec<&[u8]>, OutOfMemory>
    ensures { IfOk result (λ found. map (λ part. part.now) found.items ≡ parts text.now) }
{
    Ok(
        text.split(|byte| is_separator(*byte))
            .filter(|part| !part.is_empty())
            .collect(alloc)?,
    )
}

fn is_separator(byte: u8) -> bool
    ensures { result ≡ is_separator byte }
{
    matches!(byte, b' ' | b'\t' | b'\r')
}
