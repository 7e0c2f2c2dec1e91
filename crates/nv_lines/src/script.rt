//! The bytes of a script, and its lines.
use nv_io::Source;
use nv_reply::Stop;

// At most so many bytes are read at a time.
const PIECE: usize = 4096;

// No more of an input is run than so many bytes.
const INPUT_LIMIT: usize = 268_435_456;

/// Appends the input, as the program reads it: `Stop` where the source fails, the input is longer than 268,435,456 bytes, or memory
/// runs out. What was read before is appended, and of a longer input so many bytes.
pub fn read_script<S: Source>(source: &mut S, script: &mut Vec<u8>) -> Result<(), Stop> {
    let mut piece = [0u8; PIECE];
    let mut room = INPUT_LIMIT;
    for _ in 0..=INPUT_LIMIT {
        let count = source.take(&mut piece)?;
        if count == 0 {
            return Ok(());
        }
        if count > room {
            script.extend_from_slice(&piece[..room])?;
            return Err(Stop::InputTooLong);
        }
        script.extend_from_slice(&piece[..count])?;
        room -= count;
    }
    Err(Stop::InputTooLong)
}

/// The part of a script whose lines the program runs: all of it or, where it was not read to its end, what is before its last
/// newline.
pub fn lines_to_run<'s>(script: &'s [u8], read: &Result<(), Stop>) -> &'s [u8] {
    match read {
        Ok(()) => script,
        Err(_) => match script.iter().rposition(|byte| *byte == b'\n') {
            Some(end) => script.get(..end).unwrap_or(b""),
            None => b"",
        },
    }
}
