// The lighting coefficients: asked as a record says, and the answer compared.
use crate::answers::agrees;
use crate::words::{Record, bits};
use station::light;

// Call 15.
pub fn irradiance_sh4_agrees(record: &Record, texels: &mut [u32]) -> bool {
    let [_, _, kind, width, height, ..] = *record;
    let mut sh = [0.0f32; 12];
    let refusal = light::swathecold_irradiance_sh4(kind, width, height, texels, &mut sh);
    agrees(record, refusal, &sh.map(bits), 0)
}
