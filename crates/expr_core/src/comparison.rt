ghost use Rattle.std.specs.Prelude.{◌≡◌};
ghost use Rattle.expr_core.specs.Opposite.{opposite};

use crate::Const;
use nv_base::{Items, Name};

/// How a part is compared (ovn-sb(5), 'Logical_Flow TABLE', relational operators).
#[derive(Clone, Copy, PartialEq, Eq)]
pub enum Rel {
    /// `==`
    Eq,
    /// `!=`
    Ne,
    /// `<`
    Lt,
    /// `<=`
    Le,
    /// `>`
    Gt,
    /// `>=`
    Ge,
}

impl Rel {
    /// The relation that holds where this one does not.
    pub fn opposite(self) -> Rel
        ensures { result ≡ opposite self }
    {
        match self {
            Rel::Eq => Rel::Ne,
            Rel::Ne => Rel::Eq,
            Rel::Lt => Rel::Ge,
            Rel::Le => Rel::Gt,
            Rel::Gt => Rel::Le,
            Rel::Ge => Rel::Lt,
        }
    }
}

/// What a part is compared with.
#[derive(PartialEq, Eq, Drop)]
pub enum Item {
    /// One number.
    One(Const),
    /// A number before `/`, and after it the length of a prefix or the bits that count.
    Masked(Const, Const),
    /// The name of a port or of a multicast group, in double quotes.
    Text(Name),
    /// The address set of this name, after `$`.
    AddrSet(Name),
    /// The port group of this name, after `@`.
    Group(Name),
}

/// The right side of a comparison.
#[derive(PartialEq, Eq, Drop)]
pub enum Right {
    /// One item.
    Item(Item),
    /// One item or more, in braces.
    Set(Items<Item>),
}
