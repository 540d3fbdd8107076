// Shapes, for programs in C (docs/RULES.md, section 9). A shape crosses as the slice of its radices, axis 0 first and least significant.
ghost use Rattle.std.specs.Prelude.{◌≡◌, length};
ghost use Rattle.answers.specs.Says.{after, places_of};
ghost use Rattle.cartesian.specs.Rules.{shape_count_says, linearize_says, delinearize_says};
ghost use Rattle.cartesian_strides.specs.Rules.{strides_says, corner_says};
ghost use Rattle.boundary.specs.Boundary.{status, stored, itself};

use boundary::Status;

// How many digit tuples a shape has, the product of its radices: 1 if there are more than 16 axes; 9 if it is 2^64 or more.
#[unsafe(no_mangle)]
pub extern "C" fn gudrenoss_shape_count(radices: &[u64], count: &mut u64) -> Status
    ensures back { result ≡ status (shape_count_says radices.now) }
    ensures holds { count.new ≡ stored itself (shape_count_says radices.now) count.old }
{
    boundary::number(cartesian::shape_count(radices), count)
}

// The strides: 1 if there are more than 16 axes; 9 if one is 2^64 or more; 8 if the output has fewer places than
// there are axes.
#[unsafe(no_mangle)]
pub extern "C" fn gudrenoss_shape_strides(
    radices: &[u64],
    strides: &mut [u64],
    written: &mut u64,
) -> Status
    ensures back { result ≡ status (places_of (strides_says radices.now (length strides.old))) }
    ensures written { written.new ≡ stored itself (places_of (strides_says radices.now (length strides.old))) written.old }
    ensures holds { strides.new ≡ after (strides_says radices.now (length strides.old)) strides.old }
{
    boundary::number(cartesian_strides::strides(radices, strides), written)
}

// The number of a digit tuple: 1 if there are more than 16 axes; 8 if there are not as many digits as axes; 7 if a digit is not below its radix; 9 if the product
// of the radices is 2^64 or more.
#[unsafe(no_mangle)]
pub extern "C" fn gudrenoss_shape_linearize(
    radices: &[u64],
    digits: &[u64],
    number: &mut u64,
) -> Status
    ensures back { result ≡ status (linearize_says radices.now digits.now) }
    ensures holds { number.new ≡ stored itself (linearize_says radices.now digits.now) number.old }
{
    boundary::number(cartesian::linearize(radices, digits), number)
}

// The digit tuple of a number: 1 if there are more than 16 axes; 9 if the product of the radices is 2^64 or more; 3 if the number is not below the count; 8 if the output has fewer places than
// there are axes.
#[unsafe(no_mangle)]
pub extern "C" fn gudrenoss_shape_delinearize(
    radices: &[u64],
    number: u64,
    digits: &mut [u64],
    written: &mut u64,
) -> Status
    ensures back { result ≡ status (places_of (delinearize_says radices.now number (length digits.old))) }
    ensures written { written.new ≡ stored itself (places_of (delinearize_says radices.now number (length digits.old))) written.old }
    ensures holds { digits.new ≡ after (delinearize_says radices.now number (length digits.old)) digits.old }
{
    boundary::number(cartesian::delinearize(radices, number, digits), written)
}

// The offset of a corner, the exact sum of the strides of the axes in a set: 1 if there are more than 16 axes; 7 if a member of the set is not below the number of
// axes; 9 if the sum is 2^64 or more.
#[unsafe(no_mangle)]
pub extern "C" fn gudrenoss_shape_corner(radices: &[u64], axes: u64, offset: &mut u64) -> Status
    ensures back { result ≡ status (corner_says radices.now axes) }
    ensures holds { offset.new ≡ stored itself (corner_says radices.now axes) offset.old }
{
    boundary::number(cartesian_strides::corner(radices, axes), offset)
}
