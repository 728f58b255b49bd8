// Numbers in bytes, least byte first.
ghost use Rattle.std.specs.Prelude.{◌≡◌, ◌+◌, ◌*◌, ◌≤◌, length, take, drop};
ghost use Rattle.ledger.specs.Bytes.{fields, pattern_at};

// N bytes from a place on.
pub(crate) fn part<const N: usize>(s: &[u8], at: usize) -> [u8; N]
    requires { at + N ≤ length s.now }
    ensures { result ≡ take N (drop at s.now) }
{
    let end = at + N;
    <[u8; N]>::try_from(&s[at..end]).unwrap()
}

// The bit pattern in eight bytes from a place on; 0 where they are not all there.
pub fn pattern_at(s: &[u8], at: usize) -> u64
    ensures { result ≡ pattern_at s.now at }
{
    if s.len() < 8 {
        return 0;
    }
    if s.len() - 8 < at {
        return 0;
    }
    u64::from_le_bytes(part(s, at))
}

// Two numbers of four bytes, as one of eight.
pub(crate) fn pair(low: u32, high: u32) -> u64
    ensures { result ≡ low + 4294967296 * high }
{
    low as u64 + 4294967296 * high as u64
}

// The whole part, written anew with these numbers of eight bytes.
pub(crate) fn put_words(s: &mut [u8], xs: &[u64])
    requires { length s.old ≡ 8 * length xs.now }
    ensures { s.new ≡ fields 8 xs.now }
{
    for (i, x) in xs.iter().enumerate() {
        let at = 8 * i;
        let end = at + 8;
        s[at..end].copy_from_slice(&x.to_le_bytes());
    }
}
