//! Laws of the text of matches.
ghost use Rattle.std.specs.Prelude.{◌≡◌};
ghost use Rattle.expr_core.specs.Formula.{Formula};
ghost use Rattle.expr_core.specs.Named.{named};
ghost use Rattle.expr_core.specs.Text.{expr_text, typed_text};
ghost use Rattle.expr_core.specs.declared.typed.TypedAtom.{TypedAtom};

/// A checked match is written as it would be read, by the names of its fields and predicates.
pub fn checked_matches_are_written_by_name()
    ensures { (t : Formula TypedAtom) → typed_text t ≡ expr_text (named t) }
{}
