//! Laws of the check: which match it answers.
ghost use Rattle.std.specs.Prelude.{◌≡◌, [], Ok};
ghost use Rattle.expr_core.specs.Formula.{Formula};
ghost use Rattle.expr_core.specs.Named.{named, without_offsets};
ghost use Rattle.expr_core.specs.WellTyped.{IsTyped};
ghost use Rattle.expr_core.specs.declared.expr.Atom.{Atom};
ghost use Rattle.expr_core.specs.declared.role.Role.{Role};
ghost use Rattle.expr_core.specs.declared.typed.TypedAtom.{TypedAtom};
ghost use Rattle.expr_core.specs.Text.{typed_text};
ghost use Rattle.expr_parse.specs.Grammar.{reading};
ghost use Rattle.expr_parse.specs.Grammar.Reading.{Read};
ghost use Rattle.expr_check.specs.Check.{checked};
ghost use Rattle.expr_check.specs.Printed.{IsPrintable};

/// What the check answers is well-typed, and by its names it is the match that was checked.
pub fn a_checked_match_is_well_typed()
    ensures { (role : Role) (e : Formula Atom) (t : Formula TypedAtom) → checked role e ≡ Ok t → (named t ≡ without_offsets e) × IsTyped role t }
{}

/// A match that by its names is a well-typed one is checked as that one.
#[tactic(auto, using(crate::proofs::Passed::is_checked))]
pub fn a_well_typed_match_is_checked()
    ensures { (role : Role) (e : Formula Atom) (t : Formula TypedAtom) → named t ≡ without_offsets e → IsTyped role t → checked role e ≡ Ok t }
{}

/// A match is read and checked from its text as itself.
pub fn a_printed_match_is_checked_as_itself()
    ensures { (role : Role) (t : Formula TypedAtom) → IsPrintable role t → (e : Formula Atom) × (reading (typed_text t) ≡ Read e []) × (checked role e ≡ Ok t) }
{}

/// Two matches that are written alike are one match.
#[tactic(auto, using(crate::proofs::Passed::apart))]
pub fn printed_matches_tell_matches_apart()
    ensures { (role : Role) (s t : Formula TypedAtom) → IsPrintable role s → IsPrintable role t → typed_text s ≡ typed_text t → s ≡ t }
{}
