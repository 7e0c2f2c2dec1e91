//! Laws of captures: what is written is read again, and what follows changes nothing of what was read.
ghost use Rattle.std.specs.Prelude.{◌≡◌, ◌+◌, ◌<◌, ◌≤◌, ◌^◌, ◌++◌, ℕ, List, length, take, drop, Some};
ghost use Rattle.pcap_file.specs.Header.{capture_order, kept_limit, header_bytes};
ghost use Rattle.pcap_file.specs.Records.{next_record, record_bytes};
ghost use Rattle.pcap_file.specs.declared.numbers.Order.{Order};
ghost use Rattle.pcap_file.specs.declared.numbers.Order.TheVariants.{Little};
ghost use Rattle.pcap_file.specs.declared.records.Record.{Record};
ghost use Rattle.pcap_file.specs.declared.records.Next.TheVariants.{Whole, TooLong};

/// The header that is written is read as one in little-endian order.
pub fn written_headers_are_read()
    ensures { (rest : List ℕ) → capture_order (header_bytes ++ rest) ≡ Some Little }
{}

/// A record that is written is read as that record, its frame follows, and then what follows the record.
pub fn written_records_are_read()
    ensures told { (seconds microseconds : ℕ) (frame rest : List ℕ) → seconds < 2 ^ 32 → microseconds < 2 ^ 32 → length frame ≤ kept_limit → next_record Little (record_bytes seconds microseconds frame ++ rest) ≡ Whole (record { seconds = seconds; microseconds = microseconds; kept = length frame; original = length frame }) }
    ensures frame { (seconds microseconds : ℕ) (frame rest : List ℕ) → drop 16 (record_bytes seconds microseconds frame ++ rest) ≡ frame ++ rest }
{}

/// A header that is there, or not, in the first 24 bytes is that of all that begins with them.
pub fn read_headers_stay()
    ensures { (bytes more : List ℕ) → 24 ≤ length bytes → capture_order (bytes ++ more) ≡ capture_order bytes }
{}

/// A whole record, and one that keeps too much, are that whatever follows.
pub fn read_records_stay()
    ensures whole { (order : Order) (bytes more : List ℕ) (r : Record) → next_record order bytes ≡ Whole r → next_record order (bytes ++ more) ≡ Whole r }
    ensures too_long { (order : Order) (bytes more : List ℕ) → next_record order bytes ≡ TooLong → next_record order (bytes ++ more) ≡ TooLong }
{}
