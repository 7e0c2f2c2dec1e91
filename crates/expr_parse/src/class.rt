ghost use Rattle.std.specs.Prelude.{◌≡◌};
ghost use Rattle.expr_parse.specs.Class.{begins_name};
ghost use Rattle.expr_parse.specs.inner.Class.{class_of};

/// What the first byte of a token says of its kind.
#[derive(Clone, Copy)]
pub(crate) enum Class {
    /// A letter or `_`: a name, or a MAC.
    Letter,
    /// A digit: a constant.
    Digit,
    /// `"`: a text.
    Quote,
    /// `$`: the name of an address set.
    Dollar,
    /// `@`: the name of a port group.
    At,
    /// Any other: a sign.
    Other,
}

/// Whether a name may begin with this byte.
pub(crate) fn begins_name(byte: u8) -> bool
    ensures { result ≡ begins_name byte }
{
    matches!(byte, b'a'..=b'z' | b'A'..=b'Z' | b'_')
}

/// The class of a byte.
pub(crate) fn class_of(byte: u8) -> Class
    ensures { result ≡ class_of byte }
{
    if begins_name(byte) {
        return Class::Letter;
    }
    match byte {
        b'0'..=b'9' => Class::Digit,
        b'"' => Class::Quote,
        b'$' => Class::Dollar,
        b'@' => Class::At,
        _ => Class::Other,
    }
}
