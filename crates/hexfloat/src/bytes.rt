// Parts of a field.
ghost use Rattle.std.specs.Prelude.{◌≡◌, cond, ◌≤◌, eqb, length, take, drop, get_or, position};
ghost use Rattle.hexfloat.specs.Reading.{either, before};

// The first so many bytes, or all.
pub fn front(s: &[u8], i: usize) -> &[u8]
    ensures { result.now ≡ take i s.now }
{
    s.get(..i).unwrap_or(s)
}

// What follows the first so many bytes.
pub fn after(s: &[u8], i: usize) -> &[u8]
    ensures { result.now ≡ drop i s.now }
{
    s.get(i..).unwrap_or(&[])
}

// What follows a plus sign in front, or all.
pub(crate) fn past_plus(s: &[u8]) -> &[u8]
    ensures { result.now ≡ drop (cond (eqb (get_or s.now 0 0) 43) 1 0) s.now }
{
    s.strip_prefix(b"+").unwrap_or(s)
}

// Where the first a or b stands.
fn place(s: &[u8], a: u8, b: u8) -> Option<usize>
    ensures { result ≡ position (either a b) s.now }
{
    s.iter().position(|x| *x == a || *x == b)
}

// How many bytes stand before the first a or b.
pub fn find(s: &[u8], a: u8, b: u8) -> usize
    ensures { (result ≡ before a b s.now) × (result ≤ length s.now) }
{
    place(s, a, b).unwrap_or(s.len())
}
