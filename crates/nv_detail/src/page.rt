//! How lines are laid out.
use nv_base::OutOfMemory;

/// How a page is laid out (not from OVN): how many columns its lines have, where a word does not need more, and whether it is coloured
/// (ECMA-48, 'SGR').
#[derive(Clone, Copy)]
pub struct Page {
    pub columns: usize,
    pub coloured: bool,
}

/// What is told apart by colour.
#[derive(Clone, Copy)]
pub(crate) enum Ink {
    Plain,
    Heading,
    /// What a look-up found, or what changed.
    Note,
    /// The object that a row was made for.
    Object,
    /// An output.
    Output,
    /// A drop, or another bad end.
    Drop,
}

impl Ink {
    // What begins a text of this ink.
    fn start(self) -> &'static [u8] {
        match self {
            Ink::Plain => b"",
            Ink::Heading => b"\x1b[1m",
            Ink::Note => b"\x1b[36m",
            Ink::Object => b"\x1b[2m",
            Ink::Output => b"\x1b[32m",
            Ink::Drop => b"\x1b[31m",
        }
    }
}

/// A text that is to be broken at its spaces: how many columns stand before its first line, and before the others.
#[derive(Clone, Copy)]
pub(crate) struct Paragraph {
    pub(crate) ink: Ink,
    pub(crate) first: usize,
    pub(crate) others: usize,
}

impl Page {
    /// Appends a text as lines, broken at its spaces where a line is full.
    pub(crate) fn put(
        self,
        out: &mut Vec<u8>,
        paragraph: Paragraph,
        text: &[u8],
    ) -> Result<(), OutOfMemory> {
        let mut column = paragraph.first;
        let mut is_begun = false;
        self.start_line(out, paragraph.ink, paragraph.first)?;
        for word in text.split(|byte| *byte == b' ') {
            let width = word.len();
            if is_begun && column.saturating_add(width) >= self.columns {
                self.end_line(out, paragraph.ink)?;
                self.start_line(out, paragraph.ink, paragraph.others)?;
                column = paragraph.others;
                is_begun = false;
            }
            if is_begun {
                out.push(b' ')?;
                column = column.saturating_add(1);
            }
            out.extend_from_slice(word)?;
            column = column.saturating_add(width);
            is_begun = true;
        }
        self.end_line(out, paragraph.ink)
    }

    fn start_line(self, out: &mut Vec<u8>, ink: Ink, indent: usize) -> Result<(), OutOfMemory> {
        for _ in 0..indent {
            out.push(b' ')?;
        }
        if self.coloured {
            out.extend_from_slice(ink.start())?;
        }
        Ok(())
    }

    fn end_line(self, out: &mut Vec<u8>, ink: Ink) -> Result<(), OutOfMemory> {
        if self.coloured && !ink.start().is_empty() {
            out.extend_from_slice(b"\x1b[0m")?;
        }
        out.push(b'\n')?;
        Ok(())
    }
}
