//! Laws of the texts: what is written is read again.
ghost use Rattle.std.specs.Prelude.{◌≡◌, ◌<◌, ◌≤◌, ◌^◌, ◌++◌, ◌-◌, ℕ, List, length, map, codes, decimal};
ghost use Rattle.std.specs.List.{slice_get, range_with_len};
ghost use Rattle.std.specs.Str.Parse.{AllDigits, digits_value};
ghost use Rattle.nv_base.specs.Number.{number_of, hexadecimal};
ghost use Rattle.nv_base.specs.Ip4.{address, ip4_of, ip4_text};
ghost use Rattle.nv_base.specs.Mac.{mac_of, mac_text};
ghost use Rattle.nv_base.specs.Prefix.{block, prefix_of, prefix_text};
ghost use Rattle.nv_base.specs.Field.{field_count, field_number, field_name, field_of, all_fields};
ghost use Rattle.nv_base.specs.declared.field.Field.{Field};

/// A number that is written in decimal is read again.
pub fn written_decimals_are_read()
    ensures { (n : ℕ) → n < 2 ^ 128 → number_of (decimal n) ≡ Some n }
{}

/// A number that is written in hexadecimal is read again.
pub fn written_hexadecimals_are_read()
    ensures { (n : ℕ) → n < 2 ^ 128 → number_of (hexadecimal n) ≡ Some n }
{}

/// An address that is written is read again.
pub fn written_addresses_are_read()
    ensures { (n : ℕ) → n < 2 ^ 32 → ip4_of (ip4_text (address n)) ≡ Some (address n) }
{}

/// A MAC that is written is read again.
pub fn written_macs_are_read()
    ensures { (n : ℕ) → n < 2 ^ 48 → mac_of (mac_text n) ≡ Some n }
{}

/// A prefix that is written is read again.
pub fn written_prefixes_are_read()
    ensures { (n len : ℕ) → n < 2 ^ 32 → len ≤ 32 → prefix_of (prefix_text (block (address n) len)) ≡ Some (block (address n) len) }
{}

/// Each text of `0x` and 1 to 32 hexadecimal digits is read, since its number is below 2^128.
pub fn hexadecimals_are_read()
    ensures { (ds : List ℕ) → 0 < length ds → length ds ≤ 32 → AllDigits 16 ds → number_of (codes "0x" ++ ds) ≡ Some (digits_value 16 ds) }
{}

/// A field's name is read as that field.
pub fn field_names_are_read()
    ensures { (field : Field) → field_of (field_name field) ≡ Some field }
{}

/// Each field has the place of its number in the list of all of them.
pub fn fields_are_at_their_numbers()
    ensures order { map field_number all_fields ≡ range_with_len 1 field_count }
    ensures each { (field : Field) → slice_get all_fields (field_number field - 1) ≡ Some field }
{}
