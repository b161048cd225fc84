// Tests that refuse: each gives its refusal exactly when it fails.
ghost use Rattle.std.specs.Prelude.{◌≡◌, ◌&&◌, ◌≤◌, IfOk};
ghost use Rattle.rules.specs.Sizes.{top};
ghost use Rattle.rules.specs.Refusals.{side_taken, sides_refusal, level_refusal, buffer_refusal};
ghost use Rattle.rules.specs.Answers.{told};

use crate::sizes::top_level;
use rules::Refusal;

// A side is 1 to 4,096.
fn side_taken(side: u32) -> bool
    ensures { result ≡ side_taken side }
{
    1 <= side && side <= 4096
}

// Two sides are each 1 to 4,096.
pub fn sides_taken(width: u32, height: u32) -> bool
    ensures { result ≡ (side_taken width && side_taken height) }
{
    side_taken(width) && side_taken(height)
}

// 2: a picture's side is 0 or above 4,096.
#[tactic(auto, unfolding(rules::specs::Refusals::sides_refusal, rules::specs::Refusals::refusal_of, rules::specs::Answers::answer))]
pub fn check_sides(width: u32, height: u32) -> Result<(), Refusal>
    ensures { result ≡ told (sides_refusal width height) }
{
    if sides_taken(width, height) {
        Ok(())
    } else {
        Err(Refusal::SideOutside)
    }
}

// 6: level above the top level.
#[tactic(auto, unfolding(rules::specs::Refusals::level_refusal, rules::specs::Refusals::refusal_of, rules::specs::Answers::answer))]
pub fn check_level(width: u32, height: u32, level: u32) -> Result<(), Refusal>
    ensures told { result ≡ told (level_refusal width height level) }
    ensures below { IfOk result (λ _. level ≤ top width height) }
{
    if level <= top_level(width, height) {
        Ok(())
    } else {
        Err(Refusal::LevelAbove)
    }
}

// 3: a lent buffer of n entries is shorter than what is read or filled there. A length is what this is about: the buffers differ in type.
#[tactic(auto, unfolding(rules::specs::Refusals::buffer_refusal, rules::specs::Refusals::refusal_of, rules::specs::Answers::answer))]
pub fn check_room(needed: usize, n: usize) -> Result<(), Refusal>
    ensures told { result ≡ told (buffer_refusal needed n) }
    ensures room { IfOk result (λ _. needed ≤ n) }
{
    if needed <= n {
        Ok(())
    } else {
        Err(Refusal::ShortBuffer)
    }
}
