// The version of the library, for programs in C: what a program was linked with, to be held to the header that it was compiled with.
ghost use Rattle.std.specs.Prelude.{◌≡◌};
ghost use Rattle.boundary.specs.Boundary.{answered};
ghost use Rattle.capi.specs.Version.{major as major_of, minor as minor_of, patch as patch_of};

use boundary::Status;

// The three numbers of the version. Never refused.
#[unsafe(no_mangle)]
pub extern "C" fn gudrenoss_version(major: &mut u64, minor: &mut u64, patch: &mut u64) -> Status
    ensures back { result ≡ answered }
    ensures major { major.new ≡ major_of }
    ensures minor { minor.new ≡ minor_of }
    ensures patch { patch.new ≡ patch_of }
{
    *major = 0;
    *minor = 1;
    *patch = 0;
    boundary::answer()
}
