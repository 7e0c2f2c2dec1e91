//! Names of fields in matches.
fn is_name_byte(byte: u8) -> bool {
    byte.is_ascii_alphanumeric() || byte == b'_' || byte == b'.'
}

/// The name at this place of a match.
pub(crate) fn name_at(text: &[u8], place: usize) -> &[u8] {
    let rest = text.get(place..).unwrap_or(b"");
    match rest.iter().position(|byte| !is_name_byte(*byte)) {
        Some(end) => rest.get(..end).unwrap_or(rest),
        None => rest,
    }
}

// The fields that people name otherwise.
static OTHER_NAMES: [(&str, &str); 6] = [
    ("tcp.sport", "tcp.src"),
    ("tcp.dport", "tcp.dst"),
    ("tcp.port", "tcp.dst"),
    ("udp.sport", "udp.src"),
    ("udp.dport", "udp.dst"),
    ("udp.port", "udp.dst"),
];

/// The field that is meant by a name that people use.
pub(crate) fn meant(name: &[u8]) -> Option<&'static str> {
    let row = OTHER_NAMES
        .iter()
        .find(|(other, _)| other.as_bytes() == name)?;
    Some(row.1)
}
