// The values of document 01's book, read at a place of a byte slice, each with the place after it.
// specs/Values.antt says what each function gives. A text and its place stay two parameters, also
// in the crates above: the papers' definitions go by places of one text, and so do the laws by
// which what was written is read back. (The tests' reader, of which no such law speaks, is a
// struct.)
#![tactic(auto)]

ghost use Rattle.std.specs.Prelude.{◌≡◌, cond, ℕ, ◌^◌, ◌≤◌, ◌<◌, length};
ghost use Rattle.book_values.specs.Values.{digit_at, byte_is, past, more_digits, read_value};
ghost use Rattle.book_values.specs.Values.{without_minus, after_minus, read_signed};

// A value has up to so many digits after its first one.
const MORE_DIGITS: usize = 9;

// The digit at a place of the text.
#[tactic(auto, unfolding(crate::specs::Values::digit_at, crate::specs::Values::is_digit))]
pub fn digit_at(s: &[u8], at: usize) -> Option<u64>
    ensures { result ≡ digit_at s.now at }
{
    let byte = *s.get(at)?;
    if byte.is_ascii_digit() {
        Some(u64::from(byte - b'0'))
    } else {
        None
    }
}

// Whether there is a byte at the place, and it is this one.
#[tactic(auto, unfolding(crate::specs::Values::byte_is))]
pub fn byte_is(s: &[u8], at: usize, byte: u8) -> bool
    ensures { result ≡ byte_is s.now at byte }
{
    s.get(at) == Some(&byte)
}

// The place after this byte, where it stands at the place. A byte that is there shows that the
// place after it is no overflow.
#[tactic(auto, using(crate::proofs::Reading::byte_is_within), unfolding(crate::specs::Values::past))]
pub fn past(s: &[u8], at: usize, byte: u8) -> Option<usize>
    ensures { result ≡ past s.now at byte }
{
    if byte_is(s, at, byte) {
        Some(at + 1)
    } else {
        None
    }
}

// The digits after a value's first one, which stands before the place. The place goes on with each
// digit that is there; the loop counts how many there may be.
#[tactic(auto, using(crate::proofs::Reading::begun, crate::proofs::Reading::value_below, crate::proofs::Reading::digit_small, crate::proofs::Reading::taken, crate::proofs::Reading::stops, crate::proofs::Reading::ends))]
fn more_digits(s: &[u8], at: usize, first: u64) -> (u64, usize)
    requires { (at ≤ length s.now) × (first < 10) }
    ensures { result ≡ more_digits 9 first s.now at }
{
    let mut value = first;
    let mut next = at;
    for _ in 0..MORE_DIGITS {
        let Some(digit) = digit_at(s, next) else {
            break;
        };
        value = 10 * value + digit;
        next += 1;
    }
    (value, next)
}

// The value at a place of the text.
#[tactic(auto, using(crate::proofs::Reading::digit_small, crate::proofs::Reading::digit_place, crate::proofs::Reading::value_none_at, crate::proofs::Reading::value_zero_at, crate::proofs::Reading::value_digit_at))]
pub fn read_value(s: &[u8], at: usize) -> Option<(u64, usize)>
    ensures { result ≡ read_value s.now at }
{
    match digit_at(s, at)? {
        0 => Some((0, at + 1)),
        first => Some(more_digits(s, at + 1, first)),
    }
}

// A value as a number with a sign: as it stands, ..
#[tactic(auto, unfolding(crate::specs::Values::without_minus))]
pub fn without_minus(value: Option<(u64, usize)>) -> Option<(i64, usize)>
    requires { (n next : ℕ) → value ≡ Some (n, next) → n < 2 ^ 63 }
    ensures { result ≡ without_minus value }
{
    let (n, next) = value?;
    Some((n as i64, next))
}

// .. and after a minus, which is not before 0.
#[tactic(auto, using(crate::proofs::Minus::less_read), unfolding(crate::specs::Values::after_minus))]
pub fn after_minus(value: Option<(u64, usize)>) -> Option<(i64, usize)>
    requires { (n next : ℕ) → value ≡ Some (n, next) → n < 2 ^ 63 }
    ensures { result ≡ after_minus value }
{
    let (n, next) = value?;
    if n == 0 {
        return None;
    }
    Some((-(n as i64), next))
}

// The value at a place of the text, where it may have a minus.
#[tactic(auto, using(crate::proofs::Laws::value_fits, crate::proofs::Minus::signed_minus, crate::proofs::Minus::signed_plain), unfolding(crate::specs::Values::read_signed, crate::specs::Values::past))]
pub fn read_signed(s: &[u8], at: usize) -> Option<(i64, usize)>
    ensures { result ≡ read_signed s.now at }
{
    match past(s, at, b'-') {
        Some(first) => after_minus(read_value(s, first)),
        None => without_minus(read_value(s, at)),
    }
}
