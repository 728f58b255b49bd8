// A list's line: words of 16 lower-case hex digits, one space apart, and a line end.

// The most words that a line has.
pub(crate) const MOST_WORDS: usize = 6;

// The words of the line, and 0 past the last; none where it is not of this form.
pub(crate) fn words_of(s: &[u8]) -> Option<[u64; MOST_WORDS]> {
    let mut words = [0; MOST_WORDS];
    let mut rest = s;
    for word in &mut words {
        if rest.is_empty() {
            break;
        }
        if rest.len() < 17 {
            return None;
        }
        let (field, after) = rest.split_at(17);
        let mark = if after.is_empty() { b'\n' } else { b' ' };
        if field[16] != mark {
            return None;
        }
        *word = line::read_digits(&field[..16], 16)?;
        rest = after;
    }
    rest.is_empty().then_some(words)
}
