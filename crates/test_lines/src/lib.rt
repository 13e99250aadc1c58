// Lines of numbers on standard output, through memory for 4,096 bytes. What standard output takes
// is out of a contract's reach, and no promise says that it is written: contracts say which bytes
// are not written yet, and `written` of specs/Lines.antt which have to be written before them.
#![tactic(auto)]

ghost use Rattle.std.specs.Prelude.{◌≡◌, ◌≤◌, []};
ghost use Rattle.test_lines.specs.Lines.{with_byte, with_bytes, numbers_text, ended, fault_line};

use itoa::{Buffer, Integer};

const STDOUT_FILENO: i32 = 1;

// The line for an input that departs from the form.
fn fault_line() -> &'static [u8]
    ensures { result.now ≡ fault_line }
{
    b"fault\n"
}

// Writes that line.
pub fn fault() {
    io::write_all(STDOUT_FILENO, fault_line());
}

// What of a line of numbers is not written yet. It is an array and a length, since a Vec would
// add the kit's memory to what the test programs assume.
#[derive(Drop)]
pub struct Line {
    memory: [u8; 4096],
    used: usize,
    ghost within: { used ≤ 4096 },
}

impl Line {
    ghost use Rattle.test_lines.specs.Unwritten.{unwritten};

    pub fn new() -> Line
        ensures { unwritten result ≡ [] }
    {
        Line {
            memory: [0; 4096],
            used: 0,
        }
    }

    // What the memory holds.
    fn unwritten(&self) -> &[u8]
        ensures { result.now ≡ unwritten self.now }
    {
        &self.memory[..self.used]
    }

    // Writes what the memory holds.
    fn flush(&mut self)
        ensures { self.new.used ≡ 0 }
    {
        io::write_all(STDOUT_FILENO, self.unwritten());
        self.used = 0;
    }

    // Puts a byte. Full memory is written before it, so that the last byte stays there.
    fn put(&mut self, byte: u8)
        ensures { unwritten self.new ≡ with_byte (unwritten self.old) byte }
    {
        if self.used == self.memory.len() {
            self.flush();
        }
        self.memory[self.used] = byte;
        self.used += 1;
    }

    // Puts bytes one after another.
    fn put_all(&mut self, bytes: &[u8])
        ensures { unwritten self.new ≡ with_bytes (unwritten self.old) bytes.now }
    {
        for byte in bytes {
            self.put(*byte);
        }
    }

    // Adds the numbers of a list, each with a space after it. By itoa: what std's Display puts is
    // promised only where it gives Ok, and nowhere that it does.
    pub fn add<T: Integer>(&mut self, numbers: &[T])
        ensures { unwritten self.new ≡ with_bytes (unwritten self.old)
            (numbers_text T.text numbers.now) }
    {
        let mut buffer = Buffer::new();
        for number in numbers {
            self.put_all(buffer.format(*number).as_bytes());
            self.put(b' ');
        }
    }

    // The line with the numbers of a list. A line by value takes other memory, which is filled
    // anew: test_calls, which writes a line a call, uses `add` and `finish`.
    pub fn with<T: Integer>(mut self, numbers: &[T]) -> Line
        ensures { unwritten result ≡ with_bytes (unwritten self) (numbers_text T.text numbers.now) }
    {
        self.add(numbers);
        self
    }

    // Puts the line's end in the place of the last space.
    fn put_end(&mut self)
        ensures { unwritten self.new ≡ ended (unwritten self.old) }
    {
        if self.used > 0 {
            self.memory[self.used - 1] = b'\n';
        }
    }

    // Writes the line with its end, and leaves one with no bytes.
    pub fn finish(&mut self)
        ensures { unwritten self.new ≡ [] }
    {
        self.put_end();
        self.flush();
    }

    // Writes the line with its end.
    pub fn end(mut self) {
        self.finish();
    }
}
