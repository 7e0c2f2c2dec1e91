//! Constants that are spelled as they are written.
ghost use Rattle.std.specs.Prelude.{◌≡◌, nat_eq, IfOk};
ghost use Rattle.std.specs.Cmp.Lexicographic.{pointwise};
ghost use Rattle.expr_core.specs.Text.{const_text};
ghost use Rattle.expr_const.specs.Constant.{constant_of};
ghost use Rattle.act_parse.specs.inner.Token.{constant};

use expr_const::longest;
use expr_core::{Const, put_const};
use nv_base::OutOfMemory;
use std::alloc::Global;

/// Whether the constant is written so.
fn is_written(alloc: Global, constant: Const, text: &[u8]) -> Result<bool, OutOfMemory>
    ensures { IfOk result (λ is. is ≡ pointwise nat_eq text.now (const_text constant)) }
{
    let mut written = Vec::new(alloc);
    put_const(&mut written, constant)?;
    Ok(text == written.as_slice())
}

/// The constant that the whole text spells.
fn constant_of(text: &[u8]) -> Option<Const>
    ensures { result ≡ constant_of text.now }
{
    let (constant, len) = longest(text)?;
    if len == text.len() {
        Some(constant)
    } else {
        None
    }
}

/// The constant that is written so.
pub(crate) fn constant(alloc: Global, text: &[u8]) -> Result<Option<Const>, OutOfMemory>
    ensures { IfOk result (λ found. found ≡ constant text.now) }
{
    match constant_of(text) {
        Some(constant) => {
            if is_written(alloc, constant, text)? {
                Ok(Some(constant))
            } else {
                Ok(None)
            }
        }
        None => Ok(None),
    }
}
