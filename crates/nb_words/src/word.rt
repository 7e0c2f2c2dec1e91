//! Words: the parts of a line between separators, with quotes.
ghost use Rattle.std.specs.Prelude.{◌≡◌, IfOk, None, MatchOption};
ghost use Rattle.nb_words.specs.Words.{is_separator, is_quote, words_of};
ghost use Rattle.nb_words.specs.inner.Front.{IsFront, begun};

use nv_base::{Items, OutOfMemory};
use std::alloc::Global;

/// A word of a line.
#[derive(Drop)]
pub struct Word {
    /// Its bytes, without the quotes.
    pub text: Items<u8>,
    /// Whether no part of it is in quotes.
    pub is_bare: bool,
}

// A word, and what is after it.
#[derive(Drop)]
struct Front<'l> {
    word: Word,
    rest: &'l [u8],
}

/// The words of a line: None exactly where a quote is open at its end. A word is made of bytes as they stand and of parts
/// in single or double quotes (as a shell reads the words of ovn-nbctl(8), without its escapes). Where memory runs out
/// the answer is `OutOfMemory`.
pub fn words_of(alloc: Global, line: &[u8]) -> Result<Option<Items<Word>>, OutOfMemory>
    ensures { IfOk result (λ words. words ≡ words_of line.now) }
{
    let mut words = Items::new(alloc);
    let mut left = line;
    while let Some((first, after)) = left.split_first() {
        left = after;
        if !is_separator(*first) {
            match first_word(alloc, *first, after)? {
                Some(front) => {
                    words.push(front.word)?;
                    left = front.rest;
                }
                None => return Ok(None),
            }
        }
    }
    Ok(Some(words))
}

// The word that begins with this byte, and what is after it. None where a quote is open at the end.
fn first_word(alloc: Global, byte: u8, more: &[u8]) -> Result<Option<Front<'_>>, OutOfMemory>
    ensures { IfOk result (λ front. MatchOption front (begun byte more.now ≡ None)
        (λ f. IsFront (begun byte more.now) more.now f.word f.rest.now)) }
{
    let mut text = Items::new(alloc);
    let mut quote = None;
    if is_quote(byte) {
        quote = Some(byte);
    } else {
        text.push(byte)?;
    }
    let mut is_bare = quote.is_none();
    let mut left = more;
    while let Some((first, after)) = left.split_first() {
        match quote {
            Some(open) => {
                if *first == open {
                    quote = None;
                } else {
                    text.push(*first)?;
                }
            }
            None => {
                if is_separator(*first) {
                    break;
                }
                if is_quote(*first) {
                    quote = Some(*first);
                    is_bare = false;
                } else {
                    text.push(*first)?;
                }
            }
        }
        left = after;
    }
    if quote.is_some() {
        return Ok(None);
    }
    Ok(Some(Front {
        word: Word { text, is_bare },
        rest: left,
    }))
}

/// Whether the byte separates words.
pub(crate) fn is_separator(byte: u8) -> bool
    ensures { result ≡ is_separator byte }
{
    matches!(byte, b' ' | b'\t' | b'\r')
}

fn is_quote(byte: u8) -> bool
    ensures { result ≡ is_quote byte }
{
    matches!(byte, b'\'' | b'"')
}
