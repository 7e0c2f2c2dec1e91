//! The tags that hold a name, where the name is borrowed.
ghost use Rattle.std.specs.Prelude.{◌≡◌};

use crate::Tag;
use nv_base::Name;
use nv_map::Probe;
use std::cmp::Ordering;

/// The tag `Named` of a name of these bytes.
#[derive(Drop)]
pub struct Named<'a>(pub &'a [u8]);

/// The tag `Names` of a name that is borrowed.
#[derive(Drop)]
pub struct Names<'a>(pub &'a Name);

/// The tag `Has` of an IPv4 address of this value. Where the value has more than 32 bits, it is no port's.
#[derive(Drop)]
pub struct HasValue(pub u128);

impl<'a> Probe<Tag> for Named<'a> {
    ghost use Rattle.nb_records.specs.Tags.{tag_cmp};
    ghost use Rattle.nb_records.specs.declared.tag.Tag.TheVariants as tag;
    ghost use Rattle.nb_records.specs.contracts.tag.TagOrd.TheImpl.Laws.{total-law};
    ghost use Rattle.nv_map.specs.inner.Keys.{keys_part};

    ghost order = { λ named. tag_cmp (tag.Named named.0.now) };

    ghost parts = { λ named. keys_part total-law (tag.Named named.0.now) };

    fn compare(&self, key: &Tag) -> Ordering {
        match key {
            Tag::Named(name) => self.0.cmp(name.as_slice()),
            Tag::Of(_)
            | Tag::Names(_)
            | Tag::Lists(_)
            | Tag::Says(..)
            | Tag::Has(_)
            | Tag::HasMany => Ordering::Less,
        }
    }
}

impl<'a> Probe<Tag> for Names<'a> {
    ghost use Rattle.nb_records.specs.Tags.{tag_cmp};
    ghost use Rattle.nb_records.specs.declared.tag.Tag.TheVariants as tag;
    ghost use Rattle.nb_records.specs.contracts.tag.TagOrd.TheImpl.Laws.{total-law};
    ghost use Rattle.nv_map.specs.inner.Keys.{keys_part};

    ghost order = { λ names. tag_cmp (tag.Names names.0.now) };

    ghost parts = { λ names. keys_part total-law (tag.Names names.0.now) };

    fn compare(&self, key: &Tag) -> Ordering {
        match key {
            Tag::Named(_) | Tag::Of(_) => Ordering::Greater,
            Tag::Names(name) => self.0.cmp(name),
            Tag::Lists(_) | Tag::Says(..) | Tag::Has(_) | Tag::HasMany => Ordering::Less,
        }
    }
}

impl Probe<Tag> for HasValue {
    ghost use Rattle.nb_records.specs.Tags.{tag_cmp};
    ghost use Rattle.nb_records.specs.declared.tag.Tag.TheVariants as tag;
    ghost use Rattle.nb_records.specs.contracts.tag.TagOrd.TheImpl.Laws.{total-law};
    ghost use Rattle.nv_map.specs.inner.Keys.{keys_part};

    ghost order = { λ has. tag_cmp (tag.Has (record { 0 = has.0 })) };

    ghost parts = { λ has. keys_part total-law (tag.Has (record { 0 = has.0 })) };

    fn compare(&self, key: &Tag) -> Ordering {
        match key {
            Tag::Named(_) | Tag::Of(_) | Tag::Names(_) | Tag::Lists(_) | Tag::Says(..) => {
                Ordering::Greater
            }
            Tag::Has(ip) => self.0.cmp(&u128::from(ip.0)),
            Tag::HasMany => Ordering::Less,
        }
    }
}
