//! What a reply tells of a refusal.
use crate::sentences::{Code, SENTENCES, Sentence};

/// The refusal of a reply.
#[derive(Clone, Copy)]
pub(crate) struct Told<'r> {
    /// What is said of its code.
    pub sentence: &'static Sentence,
    /// The reply after `refused `, without its newline.
    pub text: &'r [u8],
}

/// The word at this place of a text, from 0, where there is one.
pub(crate) fn word_at(text: &[u8], place: usize) -> Option<&[u8]> {
    text.split(|byte| *byte == b' ').nth(place)
}

/// What a reply tells, where its line is refused.
pub(crate) fn told_by(reply: &[u8]) -> Option<Told> {
    let text = reply.strip_prefix(b"refused ")?;
    let text = text.strip_suffix(b"\n").unwrap_or(text);
    let code = word_at(text, 0)?;
    let sentence = SENTENCES
        .iter()
        .find(|sentence| sentence.form.as_bytes().starts_with(code))?;
    Some(Told { sentence, text })
}

/// The number that a text spells.
pub(crate) fn number_of(text: &[u8]) -> Option<usize> {
    let text = std::str::from_utf8(text).ok()?;
    text.parse::<usize>().ok()
}

impl<'r> Told<'r> {
    /// Its code.
    pub(crate) fn code(&self) -> Code {
        self.sentence.code
    }

    /// The word of the reply at this place, from 0: the code and its name are the first two.
    pub(crate) fn word(&self, place: usize) -> &'r [u8] {
        word_at(self.text, place).unwrap_or(b"")
    }

    /// The first number that it tells: of a word, of an object, or a place in a match.
    pub(crate) fn number(&self) -> usize {
        let place = match self.code() {
            Code::MatchType => 3,
            _ => 2,
        };
        number_of(self.word(place)).unwrap_or(0)
    }
}
