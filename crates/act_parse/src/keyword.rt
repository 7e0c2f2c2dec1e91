//! The words that begin actions.
ghost use Rattle.std.specs.Prelude.{◌≡◌};
ghost use Rattle.std.specs.List.{list_any};
ghost use Rattle.nv_base.specs.Field.{field_name, all_fields};
ghost use Rattle.act_parse.specs.inner.Token.{is_at};
ghost use Rattle.act_parse.specs.inner.Keyword as keyword;
ghost use Rattle.act_parse.specs.inner.Wanted as want;

use crate::lexer::is_at;
use act_core::{Action, Step};
use nv_base::{Field, Items};

/// A word that begins an action without a block.
#[derive(Clone, Copy)]
pub(crate) enum Keyword {
    /// `next`.
    Next,
    /// `output`.
    Output,
    /// `drop`.
    Drop,
    /// `ct_next`.
    CtNext,
    /// `ct_lb`.
    CtLb,
    /// `ct_commit`.
    CtCommit,
    /// `ct_snat`.
    CtSnat,
    /// `ct_dnat`.
    CtDnat,
    /// `put_arp`.
    PutArp,
    /// `get_arp`.
    GetArp,
}

const KEYWORDS: [Keyword; 10] = [
    Keyword::Next,
    Keyword::Output,
    Keyword::Drop,
    Keyword::CtNext,
    Keyword::CtLb,
    Keyword::CtCommit,
    Keyword::CtSnat,
    Keyword::CtDnat,
    Keyword::PutArp,
    Keyword::GetArp,
];

impl Keyword {
    fn name(self) -> &'static str
        ensures { result.now ≡ keyword.keyword_name self }
    {
        match self {
            Keyword::Next => "next",
            Keyword::Output => "output",
            Keyword::Drop => "drop",
            Keyword::CtNext => "ct_next",
            Keyword::CtLb => "ct_lb",
            Keyword::CtCommit => "ct_commit",
            Keyword::CtSnat => "ct_snat",
            Keyword::CtDnat => "ct_dnat",
            Keyword::PutArp => "put_arp",
            Keyword::GetArp => "get_arp",
        }
    }

    fn is_named(self, word: &[u8]) -> bool
        ensures { result ≡ keyword.is_keyword self word.now }
    {
        self.name().as_bytes() == word
    }
}

/// The keyword that the word is.
#[tactic(auto, unfolding(crate::specs::inner::Keyword::keywords))]
pub(crate) fn keyword_of(word: &[u8]) -> Option<Keyword>
    ensures { result ≡ keyword.keyword_of word.now }
{
    KEYWORDS
        .iter()
        .copied()
        .find(|keyword| keyword.is_named(word))
}

/// The kinds of blocks.
#[derive(Clone, Copy)]
pub(crate) enum Block {
    /// `arp`.
    Arp,
    /// `icmp4`.
    Icmp4,
    /// `tcp_reset`.
    TcpReset,
    /// `reject`.
    Reject,
}

const BLOCKS: [Block; 4] = [Block::Arp, Block::Icmp4, Block::TcpReset, Block::Reject];

impl Block {
    fn name(self) -> &'static str
        ensures { result.now ≡ keyword.block_name self }
    {
        match self {
            Block::Arp => "arp",
            Block::Icmp4 => "icmp4",
            Block::TcpReset => "tcp_reset",
            Block::Reject => "reject",
        }
    }

    fn is_named(self, word: &[u8]) -> bool
        ensures { result ≡ keyword.is_block_name self word.now }
    {
        self.name().as_bytes() == word
    }

    /// The block of this kind, of these steps.
    pub(crate) fn of(self, steps: Items<Step>) -> Action
        ensures { result ≡ keyword.block_action self steps }
    {
        match self {
            Block::Arp => Action::Arp(steps),
            Block::Icmp4 => Action::Icmp4(steps),
            Block::TcpReset => Action::TcpReset(steps),
            Block::Reject => Action::Reject(steps),
        }
    }
}

/// The kind of block that the word begins.
#[tactic(auto, unfolding(crate::specs::inner::Keyword::blocks))]
pub(crate) fn block_of(word: &[u8]) -> Option<Block>
    ensures { result ≡ keyword.block_of word.now }
{
    BLOCKS.iter().copied().find(|block| block.is_named(word))
}

/// Whether the name of a keyword begins with these bytes.
#[tactic(auto, unfolding(crate::specs::inner::Keyword::keywords))]
fn begins_keyword(front: &[u8]) -> bool
    ensures { result ≡ list_any (λ k. is_at front.now (keyword.keyword_name k)) keyword.keywords }
{
    KEYWORDS
        .iter()
        .any(|keyword| is_at(front, keyword.name().as_bytes()))
}

/// Whether the name of a field begins with these bytes.
fn begins_field(front: &[u8]) -> bool
    ensures { result ≡ list_any (λ f. is_at front.now (field_name f)) all_fields }
{
    Field::all()
        .iter()
        .any(|field| is_at(front, field.name().as_bytes()))
}

/// Whether a word that begins an action without a block begins with these bytes.
pub(crate) fn begins_step(front: &[u8]) -> bool
    ensures { result ≡ want.begins_step front.now }
{
    begins_keyword(front) || begins_field(front)
}

/// Whether a word that begins a block begins with these bytes.
#[tactic(auto, unfolding(crate::specs::inner::Keyword::blocks))]
pub(crate) fn begins_block(front: &[u8]) -> bool
    ensures { result ≡ want.begins_block front.now }
{
    BLOCKS
        .iter()
        .any(|block| is_at(front, block.name().as_bytes()))
}
