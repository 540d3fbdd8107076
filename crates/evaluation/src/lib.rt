// The mass of a surface that has been judged (02, section 3): by degree rising from 0, then by rank, one product a term.
#![tactic(auto)]

ghost use Rattle.std.specs.Prelude.{◌≡◌, ◌+◌, ◌*◌, ◌≤◌, ◌<◌, max, length};
ghost use Rattle.surface.specs.Mass.{mass_of, add_terms};
ghost use Rattle.surface.specs.Surface.{numbers_at, table_of, surface_of, Surface};
ghost use Rattle.evaluation.specs.Rows.{highest_degree, from_row, Scaled};

use little_endian::{eight, four, wide};

// To sum, the terms of degree k: its body starts at `at`, and row holds the monomial of rank j at k - j.
fn add_degree(image: &[u8], at: u64, k: u64, row: &[f64; 64], sum: f64) -> f64
    requires { (k < 64) × (at + 8 * (k + 1) ≤ length image.now) }
    ensures { result ≡ add_terms (from_row row.now k) 0 (numbers_at image.now at (k + 1)) sum }
{
    let mut sum = sum;
    for j in 0..k + 1 {
        let c = rounded::of_bits(eight(image, at + 8 * j));
        sum = sum + c * row[(k - j) as usize];
    }
    sum
}

// To sum, the terms of the table of degree k, of which row holds the monomials; sum itself, with no operation, where no row of the contents has that degree.
fn add_table(image: &[u8], t: u64, k: u64, row: &[f64; 64], sum: f64) -> f64
    requires { Surface image.now t × (k < 64) }
    ensures { result ≡ add_terms (from_row row.now k) 0 (table_of image.now k) sum }
{
    match image_reading::find(image, t, 1, k) {
        Err(_) => sum,
        Ok(i) => add_degree(image, four(image, 4 + 12 * i + 4), k, row, sum),
    }
}

// The first n numbers of a row, each times t.
fn scale(row: &mut [f64; 64], n: u64, t: f64)
    requires { (n ≤ 64) × (length row.old ≡ 64) }
    ensures { Scaled n t row.old row.new }
{
    for a in 0..n {
        row[a as usize] = row[a as usize] * t;
    }
}

// The highest degree among the first t rows.
fn highest(image: &[u8], t: u64) -> u64
    requires { (t ≤ 64) × (4 + 12 * t ≤ length image.now) }
    ensures { result ≡ highest_degree image.now t }
{
    let mut top = 0u64;
    for i in 0..t {
        let j = (4 + 12 * i) as usize;
        let degree = wide(image[j + 1]);
        top = top.max(degree);
    }
    top
}

// The mass of a surface of t tables. When degree k begins, row holds at each a below k the monomial of a pressures and k - a temperatures, and power that of k pressures: each is
// one product more than at the degree before, with the same roundings as from 1.0.
pub fn evaluate(image: &[u8], t: u64, pressure: f64, temperature: f64) -> f64
    requires { Surface image.now t }
    ensures { result ≡ mass_of pressure temperature (surface_of image.now) }
{
    let top = highest(image, t);
    let mut row = [0.0f64; 64];
    let mut power = 1.0;
    let mut sum = 0.0;
    for k in 0..top + 1 {
        row[k as usize] = power;
        sum = add_table(image, t, k, &row, sum);
        scale(&mut row, k + 1, temperature);
        power = power * pressure;
    }
    sum
}
