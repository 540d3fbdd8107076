// How the answers on a frame cross to a program in C (docs/RULES.md, "The C boundary"): as the others do, and the refusal that comes back names the frame.
#![tactic(auto)]

ghost use Rattle.std.specs.Prelude.{◌≡◌, [], ◌∷◌, ◌++◌};
ghost use Rattle.answers.specs.Says.{number_of, carried_by};
ghost use Rattle.boundary.specs.Boundary.{stored};
ghost use Rattle.mass.specs.Mass.{framed_says};
ghost use Rattle.boundary_frames.specs.Frames.{frame_answered, frame_refused, frame_status, frame_of, pressure_of, temperature_of, the_mass};

use answers::Refusal;
use mass::{FrameRefusal, Sample};

// What comes back from a call on a frame: the number of a refusal, 0 for an answer, the place that it carries, 0 if it carries none, and the frame that it names, 0 for
// an answer.
#[repr(C)]
#[derive(Clone, Copy)]
pub struct FrameStatus {
    pub number: u64,
    pub at: u64,
    pub frame: u64,
}

// What comes back of an answer.
pub fn answer() -> FrameStatus
    ensures { result ≡ frame_answered }
{
    FrameStatus {
        number: 0,
        at: 0,
        frame: 0,
    }
}

// What comes back of a refusal.
pub fn refused(e: Refusal, frame: u64) -> FrameStatus
    ensures { result ≡ frame_refused (number_of e) (carried_by e ++ frame ∷ []) }
{
    let number = answers::number(e);
    let at = answers::place(e);
    FrameStatus { number, at, frame }
}

// The frame of a sample and its readings.
pub fn joined(
    a: Result<Sample, FrameRefusal>,
    frame: &mut u64,
    pressure: &mut f64,
    temperature: &mut f64,
) -> FrameStatus
    ensures back { result ≡ frame_status (framed_says a) }
    ensures frame { frame.new ≡ stored frame_of (framed_says a) frame.old }
    ensures pressure { pressure.new ≡ stored pressure_of (framed_says a) pressure.old }
    ensures temperature { temperature.new ≡ stored temperature_of (framed_says a) temperature.old }
{
    match a {
        Ok(s) => {
            *frame = s.frame;
            *pressure = s.pressure;
            *temperature = s.temperature;
            answer()
        }
        Err(e) => refused(e.refusal, e.frame),
    }
}

// A mass.
pub fn massed(a: Result<f64, FrameRefusal>, mass: &mut f64) -> FrameStatus
    ensures back { result ≡ frame_status (framed_says a) }
    ensures holds { mass.new ≡ stored the_mass (framed_says a) mass.old }
{
    match a {
        Ok(m) => {
            *mass = m;
            answer()
        }
        Err(e) => refused(e.refusal, e.frame),
    }
}
