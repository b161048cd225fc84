// The C boundary: what a station links. Each export is the call of that name in `station`, and promises the same: kinds, modes and refusals
// are numbers, as the C interface has them.
// The 18 calls stand twice: a crate is a library or a static library, and `replay` calls the boundary with no C (docs/DECISIONS.md 54).
#![tactic(auto)]

mod beside;
mod checks;
mod light;
mod parts;
mod samples;
