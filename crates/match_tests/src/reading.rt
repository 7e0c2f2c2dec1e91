// That texts which are no line, and long ones, are read or have their faults.
use expr_parse::{MatchFault, parse_match};
use nv_base::OutOfMemory;
use std::alloc::Global;
use std::test::Fail;

// The fault of the text, where it has one. No text here is as long as a match may not be.
fn fault_of(alloc: Global, text: &[u8]) -> Option<MatchFault> {
    if text.len() >= 1_000_000 {
        return None;
    }
    parse_match(alloc, text).err()
}

// So many times one text, and then another.
fn repeated(alloc: Global, text: &[u8], count: usize, last: &[u8]) -> Result<Vec<u8>, OutOfMemory> {
    let mut out = Vec::new(alloc);
    for _ in 0..count {
        out.extend_from_slice(text)?;
    }
    out.extend_from_slice(last)?;
    Ok(out)
}

// Whether a text of so many times one text, and then another, has this fault.
fn has_fault(
    alloc: Global,
    text: &str,
    count: usize,
    last: &str,
    fault: MatchFault,
) -> Result<bool, OutOfMemory> {
    let long = repeated(alloc, text.as_bytes(), count, last.as_bytes())?;
    Ok(fault_of(alloc, &long) == Some(fault))
}

#[test]
fn a_newline_begins_no_token(rt: HostRuntime) {
    for (text, offset) in [("\n", 0), ("a\n", 1), ("(a)\n", 3)] {
        assert!(rt;
            fault_of(rt.alloc(), text.as_bytes()) == Some(MatchFault::Syntax(offset)),
            "{text}"
        );
    }
}

#[test]
fn long_texts_have_their_faults(rt: HostRuntime) -> Result<(), Fail> {
    let alloc = rt.alloc();
    for (text, count, last, fault) in [
        ("(", 65536, "", MatchFault::TooDeep(64)),
        ("!", 65536, "", MatchFault::TooDeep(64)),
        ("&&", 32768, "", MatchFault::Syntax(0)),
        ("1&&", 20000, "", MatchFault::Syntax(60000)),
        ("a", 65530, " == \"p", MatchFault::Syntax(65534)),
    ] {
        assert!(rt; has_fault(alloc, text, count, last, fault)?, "{text}");
    }
    Ok(())
}
