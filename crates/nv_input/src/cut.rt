ghost use Rattle.std.specs.Prelude.{IfNone, IfSome};
ghost use Rattle.memchr.specs.Find.{IsFirstByte, is_byte};
ghost use Rattle.nv_input.specs.inner.StateAfter.{EndsNoLine, CutsLine};

use memchr::memchr;

/// Cuts the bytes at their first newline, which is in neither part (not from OVN). None exactly where they have none.
pub fn cut_line(bytes: &[u8]) -> Option<(&[u8], &[u8])>
    ensures cut { IfSome result (λ parts. CutsLine bytes.now parts.0.now parts.1.now) }
    ensures none { IfNone result (EndsNoLine bytes.now) }
{
    match first_newline(bytes) {
        None => None,
        Some(at) => {
            let (line, rest) = bytes.split_at(at);
            Some((line, rest.split_at(1).1))
        }
    }
}

// The place of the first newline. One at the front, the end of an empty line, is found without a search.
#[tactic(auto, using(crate::proofs::Cuts::at_front))]
fn first_newline(bytes: &[u8]) -> Option<usize>
    ensures { IsFirstByte (is_byte 10) bytes.now result }
{
    if !bytes.is_empty() && bytes[0] == b'\n' {
        return Some(0);
    }
    memchr(b'\n', bytes)
}
