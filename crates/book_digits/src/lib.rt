// The numbers of document 01's book, and bytes, written at a place of a lent byte slice.
// specs/Digits.antt says what each function leaves there. The slice and the place are apart: one
// caller writes at the start of a slice, the other keeps both in a struct of its own.
#![tactic(auto)]

ghost use Rattle.std.specs.Prelude.{◌≡◌, ◌+◌, ◌≤◌, length};
ghost use Rattle.book_digits.specs.Digits.{decimal, overwritten};

use itoa::Buffer;

// Writes the bytes from a place on, and gives the place after them.
#[tactic(auto, using(crate::proofs::Writing::overwritten_part))]
pub fn write_bytes(out: &mut [u8], at: usize, bytes: &[u8]) -> usize
    requires { at + length bytes.now ≤ length out.old }
    ensures place { result ≡ at + length bytes.now }
    ensures written { out.new
        ≡ overwritten out.old at bytes.now }
{
    let end = at + bytes.len();
    out[at..end].copy_from_slice(bytes);
    end
}

// Writes a number's decimal digits from a place on, and gives the place after them.
#[tactic(auto, using(crate::proofs::Digits::decimal_small, crate::proofs::Digits::decimal_printed))]
pub fn write_decimal(out: &mut [u8], at: usize, n: u64) -> usize
    requires { at + length (decimal n) ≤ length out.old }
    ensures place { result ≡ at + length (decimal n) }
    ensures written { out.new ≡ overwritten out.old at (decimal n) }
{
    // A number of one digit needs no buffer; many of a book's are 0.
    if n < 10 {
        return write_bytes(out, at, &[b'0' + n as u8]);
    }
    let mut buffer = Buffer::new();
    let digits = buffer.format(n);
    write_bytes(out, at, digits.as_bytes())
}
