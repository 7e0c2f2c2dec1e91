//! The trees of the match language: matches as they were read, and matches that met a check.
#![tactic(auto)]

mod atom;
mod comparison;
mod constant;
mod env;
mod equal;
mod expr;
mod kept;
mod laws;
mod part;
mod predicate;
mod role;
mod subject;
mod test;
mod text;
mod tree;
mod typed;
mod width;

pub use atom::TreeAtom;
pub use comparison::{Item, Rel, Right};
pub use constant::{Const, Form};
pub use env::Env;
pub use expr::Atom;
pub use laws::checked_matches_are_written_by_name;
pub use part::{Bits, Part};
pub use predicate::{Pred, pred_of};
pub use role::Role;
pub use subject::{Subject, subject_of};
pub use test::{Test, prerequisite_tests};
pub use text::{put_bits, put_const, put_tree};
pub use tree::{Expr, Node, Tree, Typed};
pub use typed::TypedAtom;
pub use width::has_bits;
