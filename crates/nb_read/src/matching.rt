//! Matches, each in its role.
ghost use Rattle.std.specs.Prelude.{◌≡◌, ◌<◌, ◌^◌, Ok, IfOk, IfErr, length};
ghost use Rattle.expr_core.specs.WellTyped.{IsTyped};
ghost use Rattle.expr_check.specs.Check.{checked};
ghost use Rattle.expr_parse.specs.Grammar.{reading};
ghost use Rattle.nb_words.specs.Fault.{IsFaultOf};
ghost use Rattle.nb_read.specs.Readings.{role_of, checked_match, parsed_match, acl_match};
ghost use Rattle.nb_read.specs.inner.Faults.{syntax_fault, rule_fault};

use expr_check::{Role, TypeFault, check};
use expr_core::{Expr, Typed};
use expr_parse::{MatchFault, parse_match};
use nb_records::{MatchRule, Refusal, Way};
use nb_words::LineFault;
use std::alloc::Global;

// The role of the match of an ACL.
fn role_of(way: Way) -> Role
    ensures { result ≡ role_of way }
{
    match way {
        Way::From => Role::AclFrom,
        Way::To => Role::AclTo,
    }
}

// The refusal of a text that is no match.
fn syntax_fault(fault: MatchFault) -> LineFault
    ensures { result ≡ syntax_fault fault }
{
    match fault {
        MatchFault::Syntax(place) | MatchFault::Mixed(place) | MatchFault::TooDeep(place) => {
            LineFault::Refused(Refusal::MatchSyntax(place))
        }
        MatchFault::Memory => LineFault::Memory,
    }
}

// The refusal of a match that breaks a rule of its role.
fn rule_fault(fault: TypeFault) -> LineFault
    ensures { result ≡ rule_fault fault }
{
    let (rule, place) = match fault {
        TypeFault::UnknownField(place) => (MatchRule::UnknownField, place),
        TypeFault::NotAllowedHere(place) => (MatchRule::NotAllowedHere, place),
        TypeFault::WrongWidth(place) => (MatchRule::WrongWidth, place),
        TypeFault::WrongForm(place) => (MatchRule::WrongForm, place),
        TypeFault::Memory => return LineFault::Memory,
    };
    LineFault::Refused(Refusal::MatchType(rule, place))
}

// The match in this role, well-typed.
#[tactic(auto, using(crate::proofs::Typed::is_typed))]
fn checked_match(alloc: Global, role: Role, parsed: &Expr) -> Result<Typed, LineFault>
    ensures read { IfOk result (λ t. checked_match (checked role parsed.now) ≡ Ok t) }
    ensures typed { IfOk result (λ t. IsTyped role t) }
    ensures refused { IfErr result (λ fault. IsFaultOf (checked_match (checked role parsed.now)) fault) }
{
    match check(alloc, parsed, role) {
        Ok(typed) => Ok(typed),
        Err(fault) => Err(rule_fault(fault)),
    }
}

/// The match that the text says in this role, well-typed, or `MatchSyntax` and `MatchType` with the place in the text, as of
/// `parse_match` and `check`. Where memory runs out the answer is `Memory`.
pub fn typed_match(alloc: Global, role: Role, text: &[u8]) -> Result<Typed, LineFault>
    requires { length text.now < 2 ^ 32 }
    ensures read { IfOk result (λ t. parsed_match role (reading text.now) ≡ Ok t) }
    ensures typed { IfOk result (λ t. IsTyped role t) }
    ensures refused { IfErr result (λ fault. IsFaultOf (parsed_match role (reading text.now)) fault) }
{
    match parse_match(alloc, text) {
        Ok(parsed) => checked_match(alloc, role, &parsed),
        Err(fault) => Err(syntax_fault(fault)),
    }
}

/// The match of an ACL (ovn-nb(5), `match`), or a refusal as of `typed_match`.
#[tactic(auto, unfolding(crate::specs::Readings::acl_match))]
pub fn acl_match(alloc: Global, way: Way, text: &[u8]) -> Result<Typed, LineFault>
    requires { length text.now < 2 ^ 32 }
    ensures read { IfOk result (λ t. acl_match way text.now ≡ Ok t) }
    ensures refused { IfErr result (λ fault. IsFaultOf (acl_match way text.now) fault) }
{
    typed_match(alloc, role_of(way), text)
}
