// K(m) and E(m) for 0 ≤ m < 0.9 by polynomials, one for each of ten pieces (01, module 3; crate ellip 1.2.3): which piece m falls in, its centre, and K and E there.
// coeffs.rt and polyeval.rt are coeffs.rs and polyeval.rs. Beyond the ten pieces the centre, K and E are 0.
#![tactic(auto)]

mod coeffs;
mod polyeval;

pub use coeffs::{centre, e_piece, k_piece, piece};
