// The mass of one frame (02, section 3): a pressure and a temperature of the same frame, on a surface of Allowed tables over the two symbols 0, pressure, and 1, temperature.
#![tactic(auto)]

ghost use Rattle.std.specs.Prelude.{◌≡◌, ◌+◌, ◌*◌, ◌≤◌, length};
ghost use Rattle.surface.specs.Surface.{some_other, Surface};
ghost use Rattle.mass.specs.Mass.{framed_says, join_says, finite_says, sample_says, mass_says};

use answers::Refusal;
use little_endian::wide;

// The readings of one frame. Anyone may make one up.
#[derive(Clone, Copy)]
pub struct Sample {
    pub frame: u64,
    pub pressure: f64,
    pub temperature: f64,
}

// A refusal, and the frame that it names.
#[derive(Clone, Copy)]
pub struct FrameRefusal {
    pub refusal: Refusal,
    pub frame: u64,
}

// The sample of a pressure and a temperature, which may be any f64: 13, with the pressure's frame, unless they are of one frame.
pub fn join(
    pressure_frame: u64,
    pressure: f64,
    temperature_frame: u64,
    temperature: f64,
) -> Result<Sample, FrameRefusal>
    ensures { framed_says result ≡ join_says pressure_frame pressure temperature_frame temperature }
{
    if pressure_frame == temperature_frame {
        return Ok(Sample {
            frame: pressure_frame,
            pressure,
            temperature,
        });
    }
    let refusal = Refusal::FramesDiffer;
    let frame = pressure_frame;
    Err(FrameRefusal { refusal, frame })
}

// Whether one of the first t rows is a table of another family or alphabet.
fn some_other(image: &[u8], t: u64) -> bool
    requires { (t ≤ 64) × (4 + 12 * t ≤ length image.now) }
    ensures { result ≡ some_other image.now t }
{
    for i in (0..t).rev() {
        let j = (4 + 12 * i) as usize;
        if wide(image[j]) != 1 {
            return true;
        }
        if wide(image[j + 2]) != 2 {
            return true;
        }
    }
    false
}

// The mass of a sample on a surface of t tables: 14 if a reading, an entry or the mass is not finite. What is not finite stays so, and the test of the mass covers the entries.
fn judged(image: &[u8], t: u64, s: Sample) -> Result<f64, FrameRefusal>
    requires { Surface image.now t }
    ensures { framed_says result ≡ finite_says image.now s }
{
    let not_finite = FrameRefusal {
        refusal: Refusal::NotFinite,
        frame: s.frame,
    };
    let p = s.pressure;
    let q = s.temperature;
    if !rounded::is_finite(p) {
        return Err(not_finite);
    }
    if !rounded::is_finite(q) {
        return Err(not_finite);
    }
    let m = evaluation::evaluate(image, t, p, q);
    if !rounded::is_finite(m) {
        return Err(not_finite);
    }
    Ok(m)
}

// The mass of a sample: 11 for a bad image; 7 for a table of another family or alphabet; 14.
fn of_sample(image: &[u8], s: Sample) -> Result<f64, FrameRefusal>
    ensures { framed_says result ≡ sample_says image.now s }
{
    let frame = s.frame;
    let t = image_check::check(image).map_err(|refusal| FrameRefusal { refusal, frame })?;
    if some_other(image, t) {
        return Err(FrameRefusal {
            refusal: Refusal::Outside,
            frame,
        });
    }
    judged(image, t, s)
}

// The mass of a pressure and a temperature, which may be any f64: 13 unless they are of one frame; 11 for a bad image, with the offset of the first wrong field; 7 for a table of
// another family or alphabet; 14 if a reading, an entry or the mass is not finite. Every refusal names the pressure's frame.
pub fn mass(
    image: &[u8],
    pressure_frame: u64,
    pressure: f64,
    temperature_frame: u64,
    temperature: f64,
) -> Result<f64, FrameRefusal>
    ensures { framed_says result ≡ mass_says image.now pressure_frame pressure temperature_frame temperature }
{
    let s = join(pressure_frame, pressure, temperature_frame, temperature)?;
    of_sample(image, s)
}
