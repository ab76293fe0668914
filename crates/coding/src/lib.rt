// Encoding, over the rows of crate `rows` or, with r above 3, over the constants of crate `constants`.
#![tactic(auto)]

mod by_points;
pub mod encode;
