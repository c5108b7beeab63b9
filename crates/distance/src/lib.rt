// Distance: the six mho loops. Only end 1 is used.
#![tactic(auto)]

pub mod constants; // the line's constants, as complex numbers
pub mod mho; // the loops AG, BG, CG, AB, BC, CA
