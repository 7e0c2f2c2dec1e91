//! Captures of frames, in the format of libpcap: pcap-savefile(5), version 2.4 with microseconds, of Ethernet.
#![tactic(auto)]

mod header;
mod laws;
mod numbers;
mod records;

pub use header::{HEADER_LENGTH, KEPT_LIMIT, put_header, read_header};
pub use laws::{
    read_headers_stay, read_records_stay, written_headers_are_read, written_records_are_read,
};
pub use numbers::Order;
pub use records::{Next, RECORD_LENGTH, Record, next_record, put_record};
