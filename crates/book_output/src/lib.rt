// What document 01's program writes, as bytes from the start of a lent array. The numbers come as
// they are: months, rows of seven, totals, or a refusal's number and line. specs/Output.antt says
// what is written.
#![tactic(auto)]

ghost use Rattle.std.specs.Prelude.{◌≡◌, ◌+◌, ◌*◌, ◌≤◌, length};
ghost use Rattle.book_digits.specs.Digits.{decimal, overwritten, spaced};
ghost use Rattle.book_output.specs.Output.{numbers, row_lines, pools_line, named_line};
ghost use Rattle.book_output.specs.Output.{finished_output, refused_output, output_size};
ghost use Rattle.book_output.specs.Text.{HasRoom, Added};

use book_digits::{write_bytes, write_decimal};

// A text on its way into a lent slice, from the slice's start: so far it has `len` bytes. There is
// no heap for a String, and what std's Display puts is promised only where it says that it did.
// `most` bounds what each method adds, whose text `added` gives; the room is counted by it.
#[derive(Drop)]
struct Text<'a> {
    out: &'a mut [u8],
    len: usize,
}

impl Text<'_> {
    // Adds bytes.
    fn bytes(&mut self, bytes: &[u8])
        requires { HasRoom self.old (length bytes.now) }
        ensures { Added self.old bytes.now self.new }
    {
        self.len = write_bytes(self.out, self.len, bytes);
    }

    // Adds a number, of at most 20 digits.
    #[tactic(auto, using(book_digits::proofs::Digits::decimal_twenty))]
    fn decimal(&mut self, n: u64)
        requires { HasRoom self.old 20 }
        ensures added { Added self.old (decimal n) self.new }
        ensures most { self.new.len ≤ self.old.len + 20 }
    {
        self.len = write_decimal(self.out, self.len, n);
    }

    // Adds a space and a number.
    fn spaced(&mut self, n: u64)
        requires { HasRoom self.old 21 }
        ensures added { Added self.old (spaced n) self.new }
        ensures most { self.new.len ≤ self.old.len + 21 }
    {
        self.bytes(b" ");
        self.decimal(n);
    }

    // Adds the head `POOLS n`.
    fn pools(&mut self, count: usize)
        requires { HasRoom self.old 27 }
        ensures added { Added self.old (pools_line count) self.new }
        ensures most { self.new.len ≤ self.old.len + 27 }
    {
        self.bytes(b"POOLS ");
        self.decimal(count as u64);
        self.bytes(b"\n");
    }

    // Adds numbers, each after a space.
    fn numbers(&mut self, row: &[u64])
        requires { HasRoom self.old (21 * length row.now) }
        ensures added { Added self.old (numbers (length row.now) row.now 0) self.new }
        ensures most { self.new.len ≤ self.old.len + 21 * length row.now }
    {
        for n in row {
            self.spaced(*n);
        }
    }

    // Adds a line for each month.
    fn rows(&mut self, rows: &[u64], count: usize)
        requires room { HasRoom self.old (168 * count) }
        requires rows { (7 * count ≤ length rows.now) × (count ≤ 1200) }
        ensures added { Added self.old (row_lines count rows.now 0) self.new }
        ensures most { self.new.len ≤ self.old.len + 168 * count }
    {
        // By place: with chunks_exact, take and enumerate the proof did not close.
        for j in 0..count {
            self.decimal(j as u64 + 1);
            self.numbers(&rows[7 * j..7 * j + 7]);
            self.bytes(b"\n");
        }
    }

    // Adds a line of a name and two numbers.
    fn named(&mut self, name: &[u8], first: u64, second: u64)
        requires { HasRoom self.old (length name.now + 42) }
        ensures added { Added self.old (named_line name.now first second) self.new }
        ensures most { self.new.len ≤ self.old.len + length name.now + 42 }
    {
        self.bytes(name);
        self.decimal(first);
        self.spaced(second);
        self.bytes(b"\n");
    }
}

// Writes what a book that ran gives, with the line `TOTAL t g` at its end, and gives its length.
// Months, totals and rows are apart, since they meet in this one call alone.
pub fn write_finished(out: &mut [u8], months: usize, total: u64, co2: u64, rows: &[u64]) -> usize
    requires room { output_size ≤ length out.old }
    requires rows { (months ≤ 1200) × (7 * months ≤ length rows.now) }
    ensures length { result ≡ length (finished_output months total co2 rows.now) }
    ensures written { out.new
        ≡ overwritten out.old 0 (finished_output months total co2 rows.now) }
    ensures most { result ≤ output_size }
{
    let mut text = Text { out, len: 0 };
    text.pools(months);
    text.rows(rows, months);
    text.named(b"TOTAL ", total, co2);
    text.len
}

// Writes what a refused book gives, the line `REFUSED number line`, and gives its length.
pub fn write_refused(out: &mut [u8], number: u64, line: u64) -> usize
    requires { output_size ≤ length out.old }
    ensures length { result ≡ length (refused_output number line) }
    ensures written { out.new
        ≡ overwritten out.old 0 (refused_output number line) }
    ensures most { result ≤ output_size }
{
    let mut text = Text { out, len: 0 };
    text.named(b"REFUSED ", number, line);
    text.len
}
