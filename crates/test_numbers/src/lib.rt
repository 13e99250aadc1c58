// Numbers read from a text. A method gives None where the text departs from the form.
// specs/Numbers.antt says of every text what a method gives, and what of the text is left.
#![tactic(auto)]

ghost use Rattle.std.specs.Prelude.{◌≡◌, Option, true, List, ℕ, length, option_map};
ghost use Rattle.std.specs.Char.{is_ascii_digit};
ghost use Rattle.std.specs.List.{All, prefix_len};
ghost use Rattle.test_numbers.specs.Numbers.{Read, byte_read, bytes_read, this_byte};
ghost use Rattle.test_numbers.specs.Numbers.{number_of, digits_read, signed_read, number_read};
ghost use Rattle.test_numbers.specs.Numbers.{numbers_read, array_read, list_read, is_read};
ghost use Rattle.test_numbers.specs.Numbers.{begun_with};

// What is left to read of a text.
#[derive(Drop)]
pub struct Reader<'a> {
    pub left: &'a [u8],
}

impl<'a> Reader<'a> {
    pub fn new(text: &'a [u8]) -> Reader<'a>
        ensures { result.left.now ≡ text.now }
    {
        Reader { left: text }
    }

    // The next byte.
    pub fn byte(&mut self) -> Option<u8>
        ensures { (result, self.new.left.now) ≡ byte_read self.old.left.now }
    {
        self.left.split_off_first().copied()
    }

    // So many bytes.
    pub fn bytes(&mut self, n: usize) -> Option<&'a [u8]>
        ensures { (option_map (λ bytes. bytes.now) result, self.new.left.now)
            ≡ bytes_read n self.old.left.now }
    {
        self.left.split_off(..n)
    }

    // A byte that must come next.
    fn expect(&mut self, byte: u8) -> Option<()>
        ensures { (result, self.new.left.now) ≡ this_byte byte self.old.left.now }
    {
        self.left = self.left.strip_prefix(&[byte])?;
        Some(())
    }

    // The end of a line, byte 10.
    pub fn line_end(&mut self) -> Option<()>
        ensures { (result, self.new.left.now) ≡ this_byte 10 self.old.left.now }
    {
        self.expect(b'\n')
    }

    // At least one digit. A number above 64 bits departs from the form.
    fn digits(&mut self) -> Option<u64>
        ensures { (result, self.new.left.now) ≡ digits_read self.old.left.now }
    {
        let n = digit_count(self.left);
        value(self.bytes(n)?)
    }

    // A space and a number.
    #[tactic(auto, unfolding(crate::specs::Numbers::number_read))]
    pub fn number<T: Number>(&mut self) -> Option<T>
        ensures { (result, self.new.left.now) ≡ number_read T.gives self.old.left.now }
    {
        self.expect(b' ')?;
        T::read(self)
    }

    // As many numbers as the memory holds. Those before one that departs from the form are put into
    // it too.
    pub fn numbers<T: Number>(&mut self, memory: &mut [T]) -> Option<()>
        ensures read { (result, self.new.left.now)
            ≡ is_read (array_read T.gives (length memory.old) self.old.left.now) }
        ensures memory { memory.new ≡ begun_with memory.old
            (numbers_read T.gives (length memory.old) self.old.left.now).0 }
    {
        for number in memory.iter_mut() {
            *number = self.number()?;
        }
        Some(())
    }

    // So many numbers.
    pub fn array<T: Number, const N: usize>(&mut self) -> Option<[T; N]>
        ensures { (result, self.new.left.now) ≡ array_read T.gives N self.old.left.now }
    {
        let mut array = [T::default(); N];
        self.numbers(&mut array)?;
        Some(array)
    }

    // A count and so many numbers, for which there must be memory.
    pub fn list<'m, T: Number>(&mut self, memory: &'m mut [T]) -> Option<&'m [T]>
        ensures { (option_map (λ list. list.now) result, self.new.left.now)
            ≡ list_read T.gives (length memory.old) self.old.left.now }
    {
        let count = self.number::<u64>()?;
        let list = memory.get_mut(..count as usize)?;
        self.numbers(list)?;
        Some(list)
    }
}

// How many digits a text begins with.
fn digit_count(text: &[u8]) -> usize
    ensures { result ≡ prefix_len is_ascii_digit text.now }
{
    text.iter().take_while(|byte| byte.is_ascii_digit()).count()
}

// The number of some digits, None where there are none or it is above 64 bits. It goes over them
// once: `parse` takes a str, and `from_utf8` would go over them once more.
fn value(digits: &[u8]) -> Option<u64>
    requires { All (λ byte. is_ascii_digit byte ≡ true) digits.now }
    ensures { result ≡ number_of digits.now }
{
    if digits.is_empty() {
        return None;
    }
    let mut n = 0u64;
    for digit in digits {
        n = n.checked_mul(10)?.checked_add(u64::from(*digit - b'0'))?;
    }
    Some(n)
}

// A number that a reader reads.
pub trait Number: Copy + Default {
    // What a text gives, and what is left of it.
    ghost gives: { List ℕ → Read Self };

    fn read(reader: &mut Reader) -> Option<Self>
        ensures { (result, reader.new.left.now) ≡ gives reader.old.left.now };
}

impl Number for u64 {
    ghost gives = { digits_read };

    fn read(reader: &mut Reader) -> Option<u64> {
        reader.digits()
    }
}

// An i64 may have a minus, but 0 has none.
impl Number for i64 {
    ghost gives = { signed_read };

    fn read(reader: &mut Reader) -> Option<i64> {
        if reader.expect(b'-').is_none() {
            return i64::try_from(reader.digits()?).ok();
        }
        match reader.digits()? {
            0 => None,
            n => 0i64.checked_sub_unsigned(n),
        }
    }
}
