// A kind's rule: `fill` and `check_next` choose the type, once a call, by an enum. Cubemap and Linear are the plain mean, in nearest mode
// by whole numbers. Both have the same arms: a visitor with a method for each rule would be longer than they are.
ghost use Rattle.std.specs.Prelude.{◌≡◌, ◌≤◌, length};
ghost use Rattle.rules.specs.Sizes.{start};
ghost use Rattle.rules.specs.Levels.{filled};
ghost use Rattle.rules.specs.Kinds.{code_of};
ghost use Rattle.rules.specs.Reducing.{srgb_of, reduce_of};
ghost use Rattle.reduce.specs.Right.{NextFirstWrong};

use crate::shape::{Followed, Shape};
use crate::{chain, check_level};
use kinds::linear::Linear;
use kinds::metallic::MetallicRoughness;
use kinds::normal::Normal;
use kinds::rounded::Rounded;
use kinds::srgb::Srgb;
use rules::{Kind, Packing};

// SRGB's tables stand in this function's frame, which no other kind enters, and are made where a level is.
// `room` here and in `fill` is of a `&mut` slice that is handed on: a value that held it would have to be taken apart at each step.
#[inline(never)]
fn fill_srgb(packing: Packing, shape: Shape, left: usize, s: &mut [u32])
    requires room { (1 ≤ left) × (start shape.faces shape.width shape.height left ≤ length s.old) }
    ensures { s.new ≡ filled (srgb_of packing) shape.faces left shape.width shape.height s.old }
{
    if 1 < left {
        chain::fill(&Srgb::new(packing), shape, left, s);
    }
}

// The chain's levels by a kind and a packing mode.
#[tactic(auto, unfolding(rules::specs::Reducing::reduce_of))]
pub fn fill(kind: Kind, packing: Packing, shape: Shape, left: usize, s: &mut [u32])
    requires room { (1 ≤ left) × (start shape.faces shape.width shape.height left ≤ length s.old) }
    ensures { s.new ≡ filled (reduce_of (code_of kind) packing) shape.faces left shape.width shape.height s.old }
{
    match (kind, packing) {
        (Kind::Srgb, _) => fill_srgb(packing, shape, left, s),
        (Kind::Normal, _) => chain::fill(&Normal { packing }, shape, left, s),
        (Kind::MetallicRoughness, _) => chain::fill(&MetallicRoughness { packing }, shape, left, s),
        (Kind::Cubemap | Kind::Linear, Packing::Nearest) => chain::fill(&Rounded, shape, left, s),
        (Kind::Cubemap | Kind::Linear, Packing::Truncating) => chain::fill(
            &Linear { packing },
            shape,
            left,
            s,
        ),
    }
}

// The same of a check. One function that takes a closure was tried: nothing is inferred of what the two closures do, so each would say
// these same clauses.
#[inline(never)]
fn check_srgb(packing: Packing, pair: Followed) -> Option<usize>
    ensures { NextFirstWrong (srgb_of packing) pair.entry.shape pair.entry.texels.now result }
{
    check_level::check_next(&Srgb::new(packing), pair)
}

// The first texel that is not right of the level behind a level, by a kind and a packing mode.
#[tactic(auto, unfolding(rules::specs::Reducing::reduce_of))]
pub fn check_next(kind: Kind, packing: Packing, pair: Followed) -> Option<usize>
    ensures { NextFirstWrong (reduce_of (code_of kind) packing) pair.entry.shape pair.entry.texels.now result }
{
    match (kind, packing) {
        (Kind::Srgb, _) => check_srgb(packing, pair),
        (Kind::Normal, _) => check_level::check_next(&Normal { packing }, pair),
        (Kind::MetallicRoughness, _) => check_level::check_next(
            &MetallicRoughness { packing },
            pair,
        ),
        (Kind::Cubemap | Kind::Linear, Packing::Nearest) => check_level::check_next(&Rounded, pair),
        (Kind::Cubemap | Kind::Linear, Packing::Truncating) => check_level::check_next(
            &Linear { packing },
            pair,
        ),
    }
}
