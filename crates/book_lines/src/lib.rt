// The lines of document 01's book on a byte slice: heads, and lines of values with one space
// between them, each ended by byte 10. Each is read with the place of the next line.
// specs/Lines.antt says what each function gives.
#![tactic(auto)]

ghost use Rattle.std.specs.Prelude.{◌≡◌};
ghost use Rattle.book_lines.specs.Lines.{bytes_are, spaced_value, ended, head_line};
ghost use Rattle.book_lines.specs.Lines.{soil_line, weather_line, land_line};

use book_values::{past, read_signed, read_value};

// A soil's eight numbers, as its line has them: the kind too is the number that was read. No
// `Soil`: a line's form rests on nothing of the month.
#[derive(Clone, Copy, PartialEq, Eq)]
pub struct SoilNumbers {
    pub clay: u64,
    pub depth: u64,
    pub kind: u64,
    pub dpm: u64,
    pub rpm: u64,
    pub bio: u64,
    pub hum: u64,
    pub iom: u64,
}

// A weather line's numbers.
#[derive(Clone, Copy, PartialEq, Eq)]
pub struct WeatherNumbers {
    pub temperature: i64,
    pub rain: u64,
    pub evaporation: u64,
}

// A land line's numbers: the cover, and grams of plants and manure.
#[derive(Clone, Copy, PartialEq, Eq)]
pub struct LandNumbers {
    pub cover: u64,
    pub plant: u64,
    pub manure: u64,
}

// Whether these bytes stand at the place. Past the text's end there are none.
#[tactic(auto, using(crate::proofs::Parts::starts_from))]
fn bytes_are(s: &[u8], at: usize, bytes: &[u8]) -> bool
    ensures { result ≡ bytes_are s.now at bytes.now }
{
    s[at.min(s.len())..].starts_with(bytes)
}

// A space and a value.
#[tactic(auto, unfolding(crate::specs::Lines::spaced_value, book_values::specs::Values::past))]
fn spaced_value(s: &[u8], at: usize) -> Option<(u64, usize)>
    ensures { result ≡ spaced_value s.now at }
{
    read_value(s, past(s, at, b' ')?)
}

// A value that its line ends with, and the place of the next line.
#[tactic(auto, unfolding(crate::specs::Lines::ended, book_values::specs::Values::past))]
pub fn ended(s: &[u8], value: Option<(u64, usize)>) -> Option<(u64, usize)>
    ensures { result ≡ ended s.now value }
{
    let (n, end) = value?;
    Some((n, past(s, end, b'\n')?))
}

// A section's head: its name with a space, and its count.
#[tactic(auto, unfolding(crate::specs::Lines::head_line))]
pub fn head_line(s: &[u8], at: usize, name: &[u8]) -> Option<(u64, usize)>
    ensures { result ≡ head_line s.now at name.now }
{
    if bytes_are(s, at, name) {
        ended(s, read_value(s, at + name.len()))
    } else {
        None
    }
}

// The soil's line: clay, depth, kind, DPM, RPM, BIO, HUM, IOM.
#[tactic(auto, unfolding(crate::specs::Lines::soil_line))]
pub fn soil_line(s: &[u8], at: usize) -> Option<(SoilNumbers, usize)>
    ensures { result ≡ soil_line s.now at }
{
    let (clay, a) = read_value(s, at)?;
    let (depth, b) = spaced_value(s, a)?;
    let (kind, c) = spaced_value(s, b)?;
    let (dpm, d) = spaced_value(s, c)?;
    let (rpm, e) = spaced_value(s, d)?;
    let (bio, f) = spaced_value(s, e)?;
    let (hum, g) = spaced_value(s, f)?;
    let (iom, next) = ended(s, spaced_value(s, g))?;
    let numbers = SoilNumbers {
        clay,
        depth,
        kind,
        dpm,
        rpm,
        bio,
        hum,
        iom,
    };
    Some((numbers, next))
}

// A weather line: temperature, rain, evaporation.
#[tactic(auto, unfolding(crate::specs::Lines::weather_line))]
pub fn weather_line(s: &[u8], at: usize) -> Option<(WeatherNumbers, usize)>
    ensures { result ≡ weather_line s.now at }
{
    let (temperature, a) = read_signed(s, at)?;
    let (rain, b) = spaced_value(s, a)?;
    let (evaporation, next) = ended(s, spaced_value(s, b))?;
    let numbers = WeatherNumbers {
        temperature,
        rain,
        evaporation,
    };
    Some((numbers, next))
}

// A land line: cover, plant grams, manure grams.
#[tactic(auto, unfolding(crate::specs::Lines::land_line))]
pub fn land_line(s: &[u8], at: usize) -> Option<(LandNumbers, usize)>
    ensures { result ≡ land_line s.now at }
{
    let (cover, a) = read_value(s, at)?;
    let (plant, b) = spaced_value(s, a)?;
    let (manure, next) = ended(s, spaced_value(s, b))?;
    let numbers = LandNumbers {
        cover,
        plant,
        manure,
    };
    Some((numbers, next))
}
