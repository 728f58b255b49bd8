// The arithmetic-geometric mean (DLMF 19.8(i)) as ellipk.rs, ellipe.rs and ellipke.rs run it, and where they ask a piece in its place.
ghost use Rattle.std.specs.Prelude.{◌≡◌, Bool, MatchOption};
ghost use Rattle.std.specs.Float.{Float};
ghost use Rattle.laws.specs.Arithmetic.{◌⊖◌, 1·0};
ghost use Rattle.root.specs.Root.{root_of};
ghost use Rattle.pieces.specs.Piece.{piece_of, centre_of};
ghost use Rattle.legendre.specs.Mean.{arithmetic_of, geometric_of, goes_on_of, iterated};

use pieces::{centre, piece};

pub(crate) fn arithmetic(x: f64, y: f64) -> f64
    ensures { result ≡ arithmetic_of x y }
{
    (x + y) / 2.0
}

pub(crate) fn geometric(x: f64, y: f64) -> f64
    ensures { result ≡ geometric_of x y }
{
    root::root(x * y)
}

pub(crate) fn goes_on(tolerance: f64, x: f64, y: f64) -> bool
    ensures { result ≡ goes_on_of tolerance x y }
{
    whole::magnitude(x - y) >= tolerance * whole::magnitude(x)
}

// What goes from round to round.
pub(crate) trait Rounds: Copy {
    ghost goes: { Float → Self → Bool };

    ghost next: { Self → Self };

    // The test before each round.
    fn goes_on(self, tolerance: f64) -> bool
        ensures { result ≡ goes tolerance self };

    fn next(self) -> Self
        ensures { result ≡ next self };

    // ellipe.rs has no bound of its own; from 8 rounds on none shows (identities, `ellipe_ends`).
    final fn last(self, tolerance: f64) -> Self
        ensures { result ≡ iterated (goes tolerance) next 32 self }
    {
        let mut s = self;
        for _ in 0..32usize {
            if !s.goes_on(tolerance) {
                return s;
            }
            s = s.next();
        }
        s
    }
}

// 0 ≤ m < 1: by its piece, and beyond the pieces by the mean of 1 and √(1-m).
pub(crate) fn below_one<A, P: Fn(usize, f64) -> A, M: Fn(f64) -> A>(
    m: f64,
    by_piece: P,
    by_mean: M,
) -> A
    requires pieces { P.IsAlwaysCallable by_piece }
    requires means { M.IsAlwaysCallable by_mean }
    ensures { MatchOption (piece_of m) (M.post by_mean (root_of (1·0 ⊖ m)) result) (λ i. P.post by_piece i (m ⊖ centre_of i) result) }
{
    match piece(m) {
        Some(i) => by_piece(i, m - centre(i)),
        None => by_mean(root::root(1.0 - m)),
    }
}
