// The field of p = 2^61 + 20 * 2^32 + 1 elements (document 01, "The field"): definitions and laws. Of code it has p alone.
#![tactic(auto)]

// 2^61 + 20 * 2^32 + 1
pub const P: u64 = 2305843095113039873;
