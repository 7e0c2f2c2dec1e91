//! The laws of the reader: what is read is what the rules of the grammar allow, and what is written is read again.
ghost use Rattle.std.specs.Prelude.{◌≡◌, ◌≤◌, ◌<◌, ℕ, List, [], length};
ghost use Rattle.expr_core.specs.Formula.{Formula};
ghost use Rattle.expr_core.specs.declared.expr.Atom.{Atom};
ghost use Rattle.expr_parse.specs.Grammar.{level_limit, reading};
ghost use Rattle.expr_parse.specs.Grammar.Reading.{Read, Fails};
ghost use Rattle.expr_parse.specs.Faults.{fault_offset, up_to, BeginsWith};
ghost use Rattle.expr_parse.specs.Tokens.{tokens_of};
ghost use Rattle.expr_parse.specs.declared.fault.MatchFault.{MatchFault};
ghost use Rattle.expr_parse.specs.GrammarRules.{IsText};
ghost use Rattle.expr_parse.specs.Written.{IsLexed, IsReadAgain, IsLeaf};
ghost use Rattle.expr_core.specs.WellFormed.{IsWellFormed, levels_of};
ghost use Rattle.expr_core.specs.Text.{expr_writing};

/// What is read of a text is a match by the rules of the grammar.
pub fn what_is_read_is_a_match()
    ensures { (text : List ℕ) (f : Formula Atom) → reading text ≡ Read f [] → IsText text f }
{}

/// What is a match by the rules of the grammar is read. So a text is one match at most.
#[tactic(auto, using(crate::proofs::ReadsMatch::match_is_read))]
pub fn a_match_is_read()
    ensures { (text : List ℕ) (f : Formula Atom) → IsText text f → reading text ≡ Read f [] }
{}

/// What is read is well-formed, and its canonical text opens at most 64 levels.
pub fn what_is_read_is_well_formed()
    ensures { (text : List ℕ) (f : Formula Atom) → reading text ≡ Read f [] → IsWellFormed IsLeaf f × (levels_of expr_writing f ≤ level_limit) }
{}

/// The tokens of a well-formed match's canonical text are the match's, and reach the end of the text.
#[tactic(auto, using(crate::proofs::LexedTrees::tree_lexed))]
pub fn written_matches_have_their_tokens()
    ensures { (f : Formula Atom) → IsWellFormed IsLeaf f → IsLexed f }
{}

/// The canonical text of a well-formed match, where it opens at most 64 levels, is read as the match, without offsets.
#[tactic(auto, using(crate::proofs::ReadAgain::read_again))]
pub fn written_matches_are_read()
    ensures { (f : Formula Atom) → IsWellFormed IsLeaf f → levels_of expr_writing f ≤ level_limit → IsReadAgain f }
{}

/// A fault at a token is that of every text whose tokens begin with the same ones, up to and with the one at the fault's offset.
/// So no such text is a match.
#[tactic(auto, using(crate::proofs::Faults::fault_stays))]
pub fn faults_stay()
    ensures { (text : List ℕ) (fault : MatchFault) → reading text ≡ Fails fault → fault_offset fault < (tokens_of text).1 → (other : List ℕ) → BeginsWith other (up_to (fault_offset fault) (tokens_of text).0) → reading other ≡ Fails fault }
{}

/// Where the tokens of a text reach its end and their reading is a fault, no text with exactly these tokens is a match.
#[tactic(auto, using(crate::proofs::Faults::no_match))]
pub fn faulty_tokens_are_no_match()
    ensures { (text other : List ℕ) (fault : MatchFault) (f : Formula Atom) → reading text ≡ Fails fault → (tokens_of text).1 ≡ length text → (tokens_of other).0 ≡ (tokens_of text).0 → ¬ (reading other ≡ Read f []) }
{}
