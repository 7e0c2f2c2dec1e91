ghost use Rattle.std.specs.Prelude.{◌≡◌};
ghost use Rattle.expr_core.specs.Constant.{constant};

use expr_core::{Const, Form, Rel};

/// A number of a token, and how it is spelled.
#[derive(Clone, Copy)]
pub(crate) struct Spelled {
    /// How it is spelled.
    pub(crate) form: Form,
    /// The number.
    pub(crate) value: u128,
}

impl Spelled {
    /// That of a constant.
    pub(crate) fn of(number: Const) -> Self
        ensures { constant result.form result.value ≡ number }
    {
        Spelled {
            form: number.form(),
            value: number.value(),
        }
    }

    /// The constant.
    pub(crate) fn constant(self) -> Const
        ensures { result ≡ constant self.form self.value }
    {
        Const::new(self.form, self.value)
    }
}

/// A token of a text, from which it borrows the bytes of a name.
#[derive(Clone, Copy)]
pub(crate) enum Token<'a> {
    /// A name.
    Name(&'a [u8]),
    /// A number, a MAC or an address.
    Number(Spelled),
    /// The text between double quotes: the name of a port or of a multicast group.
    Text(&'a [u8]),
    /// A name after `$`.
    AddrSet(&'a [u8]),
    /// A name after `@`.
    Group(&'a [u8]),
    /// `==`, `!=`, `<`, `<=`, `>` or `>=`.
    Rel(Rel),
    /// `&&`
    And,
    /// `||`
    Or,
    /// `!`
    Not,
    /// `(`
    Open,
    /// `)`
    Close,
    /// `{`
    OpenBrace,
    /// `}`
    CloseBrace,
    /// `[`
    OpenBracket,
    /// `]`
    CloseBracket,
    /// `,`
    Comma,
    /// `/`
    Slash,
    /// `..`
    Dots,
}

/// A token, and where it begins.
#[derive(Clone, Copy)]
pub(crate) struct TokenAt<'a> {
    /// Where it begins, in bytes from the beginning of the text.
    pub(crate) offset: u32,
    /// The token.
    pub(crate) token: Token<'a>,
}

/// The token that a text begins with.
#[derive(Clone, Copy)]
pub(crate) struct FrontToken<'a> {
    /// The token.
    pub(crate) token: Token<'a>,
    /// How many bytes spell it.
    pub(crate) len: usize,
}
