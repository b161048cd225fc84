// The boundary in the words of C, which station_c exports. Each call is one of the unit: numbers in, a refusal number out, 0 where it was done.
// Kinds and modes are numbers here because the C interface has them so.
#![tactic(auto)]

pub mod beside;
pub mod checks;
pub mod lanes;
pub mod light;
pub mod parts;
pub mod samples;
pub mod written;
