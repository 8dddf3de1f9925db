// Matrices over the field, 12 × 12, row by row: definitions and laws, and of code their size alone.
#![tactic(auto)]

use numbers::WIDTH;

// A matrix as wide as a state, row by row.
pub const MATRIX_WORDS: usize = WIDTH * WIDTH;
