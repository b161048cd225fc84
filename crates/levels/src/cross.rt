// The cube cross, lent as RGBA bytes, row by row: its six faces are cut out in layout order, +X -X +Y -Y +Z -Z.
ghost use Rattle.std.specs.Prelude.{◌≡◌, ◌+◌, ◌*◌, ◌<◌, ◌≤◌, length};
ghost use Rattle.rules.specs.Cross.{cross_width, cross_height, column_of, row_of};
ghost use Rattle.rules.specs.Refusals.{cross_sides_refusal, cross_refusal};
ghost use Rattle.rules.specs.Answers.{told, cross_answer, cross_leaves};
ghost use Rattle.kinds.specs.Runs.{over};
ghost use Rattle.levels.specs.Crosses.{cross_cell};

use crate::bytes::put_bytes;
use crate::refusals::{check_room, sides_taken};
use rules::Refusal;

// A face's place in the cross, its column in faces: 2 0 1 1 1 3. Faces are numbers: document 01 numbers them, and 0 to 5 are counted.
#[tactic(auto, unfolding(rules::specs::Cross::column_of))]
fn column_of(face: usize) -> usize
    ensures { result ≡ column_of face }
{
    match face {
        0 => 2,
        1 => 0,
        5 => 3,
        _ => 1,
    }
}

// A face's place in the cross, its row in faces: 1 1 0 2 1 1.
#[tactic(auto, unfolding(rules::specs::Cross::row_of))]
fn row_of(face: usize) -> usize
    ensures { result ≡ row_of face }
{
    match face {
        2 => 0,
        3 => 2,
        _ => 1,
    }
}

// 10: a cross whose face sides fall outside 1 to 4,096.
#[tactic(auto, unfolding(rules::specs::Refusals::cross_sides_refusal, rules::specs::Refusals::refusal_of, rules::specs::Answers::answer))]
fn check_cross_sides(width: u32, height: u32) -> Result<(), Refusal>
    ensures { result ≡ told (cross_sides_refusal width height) }
{
    if sides_taken(width / 4, height / 3) {
        Ok(())
    } else {
        Err(Refusal::CrossOutside)
    }
}

// 10, 3: width x height x 4 bytes in, six faces out.
#[tactic(auto, using(rules::proofs::Answering::answer_or), unfolding(rules::specs::Refusals::cross_refusal))]
fn check_cross(width: u32, height: u32, bytes: &[u8], faces: &[u32]) -> Result<(), Refusal>
    ensures { result ≡ told (cross_refusal width height (length bytes.now) (length faces.now)) }
{
    check_cross_sides(width, height)?;
    let w = width as usize;
    let h = height as usize;
    check_room(h * w * 4, bytes.len())?;
    check_room(6 * (h / 3) * (w / 4), faces.len())
}

// Writes the rows of the six faces one after the other; leftover columns and rows of the cross are ignored. By place, as a cut's rows.
fn write_faces(width: usize, height: usize, bytes: &[u8], faces: &mut [u32])
    requires sides { (4 ≤ width) × (width < 16388) × (3 ≤ height) × (height < 12291) }
    requires bytes_room { height * width * 4 ≤ length bytes.now }
    requires faces_room { 6 * cross_height height * cross_width width ≤ length faces.old }
    ensures { faces.new ≡ over 0 faces.old (6 * cross_height height * cross_width width) (cross_cell width height bytes.now) }
{
    let w = width / 4;
    let h = height / 3;
    let rows = 6 * h;
    for y in 0..rows {
        let face = y / h;
        let row = row_of(face) * h + y % h;
        let from = (row * width + column_of(face) * w) * 4;
        let to = y * w;
        put_bytes(&bytes[from..], &mut faces[to..to + w]);
    }
}

// Cuts the six faces out of a cross, and answers the texels written.
#[tactic(auto, using(rules::proofs::Answering::answer_as, rules::proofs::Answering::leaves_as), unfolding(rules::specs::Answers::cross_answer, rules::specs::Answers::cross_leaves))]
pub fn cut_cross(width: u32, height: u32, bytes: &[u8], faces: &mut [u32]) -> Result<usize, Refusal>
    ensures answer { result ≡ cross_answer width height bytes.now faces.old }
    ensures leaves { faces.new ≡ cross_leaves width height bytes.now faces.old }
{
    check_cross(width, height, bytes, faces)?;
    let w = width as usize;
    let h = height as usize;
    write_faces(w, h, bytes, faces);
    Ok(6 * (h / 3) * (w / 4))
}
