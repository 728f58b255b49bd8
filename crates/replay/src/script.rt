// A line of the script (oracle/sheet_model.py): a letter, then fields of hex digits, one space apart.

// What is left of a line.
#[derive(Clone, Copy)]
pub(crate) struct Fields<'a>(pub &'a [u8]);

impl Fields<'_> {
    // The next field, a space and so many digits; none where the line does not go on so.
    fn digits(&mut self, width: usize) -> Option<u64> {
        let (space, rest) = self.0.split_first()?;
        if *space != b' ' || rest.len() < width {
            return None;
        }
        let (field, rest) = rest.split_at(width);
        self.0 = rest;
        line::read_digits(field, 16)
    }

    pub(crate) fn byte(&mut self) -> Option<u8> {
        u8::try_from(self.digits(2)?).ok()
    }

    pub(crate) fn half(&mut self) -> Option<u16> {
        u16::try_from(self.digits(4)?).ok()
    }

    pub(crate) fn word(&mut self) -> Option<u32> {
        u32::try_from(self.digits(8)?).ok()
    }

    pub(crate) fn long(&mut self) -> Option<u64> {
        self.digits(16)
    }

    // That nothing follows.
    pub(crate) fn end(self) -> Option<()> {
        self.0.is_empty().then_some(())
    }

    // Whether these bytes follow in hex, as one field, and nothing after them; - where there are none.
    pub(crate) fn are(self, bytes: &[u8]) -> bool {
        if bytes.is_empty() {
            return self.0 == b" -".as_slice();
        }
        let Some((space, digits)) = self.0.split_first() else {
            return false;
        };
        let pairs = digits.chunks_exact(2);
        *space == b' '
            && pairs.remainder().is_empty()
            && pairs.len() == bytes.len()
            && pairs.zip(bytes).all(|(pair, b)| line::read_digits(pair, 16) == Some(u64::from(*b)))
    }
}
