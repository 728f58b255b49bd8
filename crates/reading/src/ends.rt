// How many line ends there are.
ghost use Rattle.std.specs.Prelude.{◌≡◌};
ghost use Rattle.line.specs.Line.{line_ends};

pub(crate) fn line_ends(s: &[u8]) -> u64
    ensures { result ≡ line_ends s.now }
{
    s.iter().filter(|b| **b == b'\n').count() as u64
}
