//! A command's words, by their places.
ghost use Rattle.std.specs.Prelude.{◌≡◌, ◌<◌, ◌≤◌, ◌+◌, ◌^◌, true, length, drop};
ghost use Rattle.std.specs.List.{list_all};
ghost use Rattle.nb_words.specs.Commands.{is_short};
ghost use Rattle.nb_edit.specs.Call.{call, number, text, is_there, stands, may_exist, if_exists};
ghost use Rattle.nb_edit.specs.Edits.{policy, owner_kind};

use nb_records::{OwnerKind, RouteBy};
use nb_words::Word;
use std::marker::Model;

/// A command: its options, the words after its name, and the number of the first of these in the line.
#[derive(Drop)]
pub(crate) struct Call<'c> {
    options: &'c [Word],
    first: u32,
    words: &'c [Word],
}

impl<'c> Model for Call<'c> {
    ghost use Rattle.std.specs.Prelude.{◌≡◌, ◌<◌, ◌+◌, ◌^◌, true, length};
    ghost use Rattle.std.specs.List.{list_all};
    ghost use Rattle.nb_words.specs.Commands.{is_short};
    ghost use Rattle.nb_edit.specs.Call as said;

    ghost Value = { said.Call };

    ghost view = { λ c. record { options = c.options.now; first = c.first; words = c.words.now } };

    ghost invariant = { λ c. (c.first + length c.words.now < 2 ^ 32) × (list_all is_short c.words.now ≡ true) };
}

impl<'c> Call<'c> {
    /// The command of these options and words.
    pub(crate) fn new(options: &'c [Word], first: u32, words: &'c [Word]) -> Self
        requires numbered { first + length words.now < 2 ^ 32 }
        requires short { list_all is_short words.now ≡ true }
        ensures { result ≡ call options.now first words.now }
    {
        Call {
            options,
            first,
            words,
        }
    }

    /// Its options.
    pub(crate) fn options(&self) -> &[Word]
        ensures { result.now ≡ self.now.options }
    {
        self.options
    }

    /// The words after its name.
    pub(crate) fn words(&self) -> &[Word]
        ensures { result.now ≡ self.now.words }
    {
        self.words
    }

    /// The number in the line of the word at this place, from 0.
    pub(crate) fn number(&self, place: usize) -> u32
        requires { place ≤ length self.now.words }
        ensures { result ≡ number self.now place }
    {
        self.first + place as u32
    }

    /// The bytes of the word at this place.
    #[tactic(auto, using(crate::proofs::Short::is_short_at))]
    pub(crate) fn text(&self, place: usize) -> &[u8]
        ensures bytes { result.now ≡ text self.now place }
        ensures short { length result.now < 2 ^ 32 }
    {
        match self.words.get(place) {
            Some(word) => word.text.as_slice(),
            None => &[],
        }
    }

    /// Whether a word is at this place.
    pub(crate) fn is_there(&self, place: usize) -> bool
        ensures { result ≡ is_there self.now place }
    {
        place < self.words.len()
    }

    /// The words from this place on.
    pub(crate) fn from(&self, place: usize) -> &[Word]
        requires { place ≤ length self.now.words }
        ensures words { result.now ≡ drop place self.now.words }
        ensures numbered { self.now.first + place + length result.now < 2 ^ 32 }
    {
        &self.words[place..]
    }

    // Whether the option stands.
    fn stands(&self, option: &[u8]) -> bool
        ensures { result ≡ stands self.now option.now }
    {
        self.options
            .iter()
            .any(|word| word.text.as_slice() == option)
    }

    /// Whether `--may-exist` stands.
    pub(crate) fn may_exist(&self) -> bool
        ensures { result ≡ may_exist self.now }
    {
        self.stands(b"--may-exist")
    }

    /// Whether `--if-exists` stands.
    pub(crate) fn if_exists(&self) -> bool
        ensures { result ≡ if_exists self.now }
    {
        self.stands(b"--if-exists")
    }

    /// `--policy`: the address of a packet that a route looks at.
    pub(crate) fn policy(&self) -> Option<RouteBy>
        ensures { result ≡ policy self.now }
    {
        if self.stands(b"--policy=dst-ip") {
            Some(RouteBy::Dst)
        } else if self.stands(b"--policy=src-ip") {
            Some(RouteBy::Src)
        } else {
            None
        }
    }

    /// `--type`: the kind of the owner of an ACL.
    pub(crate) fn owner_kind(&self) -> Option<OwnerKind>
        ensures { result ≡ owner_kind self.now }
    {
        if self.stands(b"--type=switch") {
            Some(OwnerKind::Switch)
        } else if self.stands(b"--type=port-group") {
            Some(OwnerKind::Group)
        } else {
            None
        }
    }
}
