// The level view: the level itself, as part of the caller's texels; of a cubemap one face of it.
ghost use Rattle.std.specs.Prelude.{◌≡◌, ◌+◌, ◌≤◌, length, IfOk};
ghost use Rattle.rules.specs.Refusals.{view_refusal};
ghost use Rattle.rules.specs.Answers.{done, told, view_answer};
ghost use Rattle.levels.specs.Pictures.{IsFace};

use crate::layout::Layout;
use crate::picture::Picture;
use rules::Refusal;

// Where one face of a level stands.
#[derive(Clone, Copy)]
pub struct Face {
    pub start: usize,
    pub size: usize,
}

// The face that is viewed, within the texels: 1, 2, 3, 8, 6. A place and not the part, and codes: the C boundary calls it, and hands out
// where it starts.
#[tactic(auto, using(rules::proofs::Answering::answer_or), unfolding(rules::specs::Refusals::chain_refusal, rules::specs::Refusals::view_refusal))]
pub fn face_of(
    kind: u32,
    width: u32,
    height: u32,
    texels: &[u32],
    level: u32,
    face: u32,
) -> Result<Face, Refusal>
    ensures told { done result ≡ told (view_refusal kind width height (length texels.now) level face) }
    ensures is { IfOk result (λ r. IsFace kind width height level face r × (r.start + r.size ≤ length texels.now)) }
{
    let picture = Picture::new(kind, width, height)?;
    let layout = Layout::new(picture, texels.len())?;
    picture.check_face(face)?;
    picture.check_level(level)?;
    let plane = layout.plane(level);
    let size = plane.height * plane.width;
    let start = plane.start + (face as usize) * size;
    Ok(Face { start, size })
}

// Why the level view is refused, where it is.
pub fn level_view_refusal(
    kind: u32,
    width: u32,
    height: u32,
    texels: &[u32],
    level: u32,
    face: u32,
) -> Result<(), Refusal>
    ensures answer { result ≡ told (view_refusal kind width height (length texels.now) level face) }
{
    face_of(kind, width, height, texels, level, face)?;
    Ok(())
}

// The texels of one face of a level, and an empty part where it refuses: no `Result`, since `view_answer` is a part, and the call above says why.
pub fn level_view<'a>(
    kind: u32,
    width: u32,
    height: u32,
    texels: &'a [u32],
    level: u32,
    face: u32,
) -> &'a [u32]
    ensures answer { result.now ≡ view_answer kind width height texels.now level face }
{
    match face_of(kind, width, height, texels, level, face) {
        Ok(found) => &texels[found.start..found.start + found.size],
        Err(_) => &[],
    }
}
