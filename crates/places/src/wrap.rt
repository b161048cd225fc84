// Two wrap codes to modes, and texel numbers wrapped into a side: f32 numbers that are whole, so that four lanes are wrapped side by side.
ghost use Rattle.std.specs.Prelude.{◌≡◌};
ghost use Rattle.std.specs.Float.{binary32};
ghost use Rattle.std.specs.Float.Ieee.{div};
ghost use Rattle.rules.specs.declared.Mode.TheVariants.{Repeat, Clamp, Mirror};
ghost use Rattle.rules.specs.Floats.{Between};
ghost use Rattle.rules.specs.Whole.{floor_of};
ghost use Rattle.rules.specs.Wrapping.{wrap_of};
ghost use Rattle.texel.specs.Ends.{low12, high12};
ghost use Rattle.places.specs.Sources.{least as least_of, most as most_of, rest_source};
ghost use Rattle.places.specs.Samplers.{sampler_decodes};
ghost use Rattle.places.specs.Stands.{Counted, AllCounted, wraps_of};

use crate::side::Side;
use choice::lanes::each;
use choice::pick;
use rules::{Lanes, Mode, Refusal, Sampler, Wholes};

// The modes along u and along v.
#[derive(Clone, Copy)]
pub struct Wrapping {
    pub s: Mode,
    pub t: Mode,
}

// Refusal 4: one of the two wrap codes unknown.
impl TryFrom<Sampler> for Wrapping {
    type Error = Refusal;

    ghost try_from_gives = { sampler_decodes };

    #[tactic(auto, using(rules::proofs::Answering::answer_or, rules::proofs::Answering::answer_as), unfolding(rules::specs::Refusals::sampler_refusal, crate::specs::Samplers::wrapping_of))]
    fn try_from(sampler: Sampler) -> Result<Self, Refusal> {
        Ok(Wrapping {
            s: Mode::try_from(sampler.wrap_s)?,
            t: Mode::try_from(sampler.wrap_t)?,
        })
    }
}

// The smaller of two numbers, and the larger: the library's min and max leave open which of 0 and -0 they answer.
fn least(a: f32, b: f32) -> f32
    ensures { result ≡ least_of a b }
{
    pick(a < b, a, b)
}

fn most(a: f32, b: f32) -> f32
    ensures { result ≡ most_of a b }
{
    pick(b < a, a, b)
}

// t - floor(t / n) * n.
fn rest(t: f32, n: f32) -> f32
    requires { Between low12 (div binary32 t n) high12 }
    ensures { result ≡ rest_source t n }
{
    t - texel::whole::floor_near(t / n) * n
}

// The remainder of t by d.
// Apart, number and side: in one value, bilinear alpha, 1.54 to 1.62 of the source where 1.6 is the bar, takes 19 % more instructions.
fn repeated(t: f32, d: Side) -> u32
    requires { Counted t d.texels }
    ensures { result ≡ wrap_of Repeat (floor_of t) d.texels }
{
    rest(t, d.texels as f32) as i32 as u32
}

// t held to 0..d-1.
fn held(t: f32, d: Side) -> u32
    requires { Counted t d.texels }
    ensures { result ≡ wrap_of Clamp (floor_of t) d.texels }
{
    least(most(t, 0.0), (d.texels as f32) - 1.0) as i32 as u32
}

// min(r, 2d - r, d - 1), for r the remainder by 2d.
fn mirrored(t: f32, d: Side) -> u32
    requires { Counted t d.texels }
    ensures { result ≡ wrap_of Mirror (floor_of t) d.texels }
{
    let side = d.texels as f32;
    let two = side * 2.0;
    let r = rest(t, two);
    least(least(r, two - r), side - 1.0) as i32 as u32
}

// Each of four texel numbers wrapped into the side d: the remainder, t held to the side, or mirrored.
#[tactic(auto, unfolding(crate::specs::Stands::wraps_of))]
pub fn wrap_four(mode: Mode, t: Lanes, d: Side) -> Wholes
    requires { AllCounted t d.texels }
    ensures { result ≡ wraps_of mode t d.texels }
{
    match mode {
        Mode::Repeat => each(t, |x| repeated(x, d)),
        Mode::Clamp => each(t, |x| held(x, d)),
        Mode::Mirror => each(t, |x| mirrored(x, d)),
    }
}
