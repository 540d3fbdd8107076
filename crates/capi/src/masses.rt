// The mass of one frame, for programs in C (docs/RULES.md, section 21). A reading is a double with the number of its frame; both may be any. A refusal names the
// frame of the pressure, and 11 has its offset besides.
ghost use Rattle.std.specs.Prelude.{◌≡◌};
ghost use Rattle.boundary.specs.Boundary.{stored};
ghost use Rattle.boundary_frames.specs.Frames.{frame_status, frame_of, pressure_of, temperature_of, the_mass};
ghost use Rattle.mass.specs.Mass.{join_says, mass_says};

use boundary_frames::FrameStatus;

// A sample of two readings: 13 unless they are of one frame.
#[unsafe(no_mangle)]
pub extern "C" fn gudrenoss_join(
    pressure_frame: u64,
    pressure: f64,
    temperature_frame: u64,
    temperature: f64,
    frame: &mut u64,
    sample_pressure: &mut f64,
    sample_temperature: &mut f64,
) -> FrameStatus
    ensures back { result ≡ frame_status (join_says pressure_frame pressure temperature_frame temperature) }
    ensures frame { frame.new ≡ stored frame_of (join_says pressure_frame pressure temperature_frame temperature) frame.old }
    ensures pressure { sample_pressure.new ≡ stored pressure_of (join_says pressure_frame pressure temperature_frame temperature) sample_pressure.old }
    ensures temperature { sample_temperature.new ≡ stored temperature_of (join_says pressure_frame pressure temperature_frame temperature) sample_temperature.old }
{
    boundary_frames::joined(
        mass::join(pressure_frame, pressure, temperature_frame, temperature),
        frame,
        sample_pressure,
        sample_temperature,
    )
}

// The mass by a surface: 13; 11; 7 for a table of another family or alphabet; 14 if a reading, a coefficient or the mass is not finite.
#[unsafe(no_mangle)]
pub extern "C" fn gudrenoss_mass(
    image: &[u8],
    pressure_frame: u64,
    pressure: f64,
    temperature_frame: u64,
    temperature: f64,
    mass: &mut f64,
) -> FrameStatus
    ensures back { result ≡ frame_status (mass_says image.now pressure_frame pressure temperature_frame temperature) }
    ensures holds { mass.new ≡ stored the_mass (mass_says image.now pressure_frame pressure temperature_frame temperature) mass.old }
{
    boundary_frames::massed(
        mass::mass(
            image,
            pressure_frame,
            pressure,
            temperature_frame,
            temperature,
        ),
        mass,
    )
}
