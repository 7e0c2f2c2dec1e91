//! The base of all the crates: out of memory, names, numbers of objects, lists as plain data,
//! and the addresses and numbers that lines, matches and flows are written with.
#![tactic(auto)]

mod bytes;
mod field;
mod ip4;
mod items;
mod kept;
mod laws;
mod mac;
mod memory;
mod name;
mod number;
mod object;
mod prefix;
mod text;

pub use field::{FIELD_COUNT, Field, Prerequisite, Printed, field_of, put_field};
pub use ip4::{Ip4, put_ip4, read_ip4};
pub use items::Items;
pub use kept::Kept;
pub use laws::{
    field_names_are_read, fields_are_at_their_numbers, hexadecimals_are_read,
    written_addresses_are_read, written_decimals_are_read, written_hexadecimals_are_read,
    written_macs_are_read, written_prefixes_are_read,
};
pub use mac::{Mac, mac_text, put_mac, read_mac};
pub use memory::OutOfMemory;
pub use name::{FLOOD_GROUP, Name, UNKNOWN_GROUP, is_object_name, is_quotable};
pub use number::{put_dec, put_hex, read_number};
pub use object::{FLOOD_NUMBER, NUMBER_LIMIT, ObjId, UNKNOWN_NUMBER};
pub use prefix::{Prefix, put_prefix, read_prefix};
pub use text::BadText;
