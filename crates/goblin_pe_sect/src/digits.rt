//! The numbers in section names, in decimal and in base 64 digits.

ghost use Rattle.std.specs.Prelude.{◌≡◌, ◌^◌, ◌+◌, ◌-◌, ◌<◌, ◌≤◌, ◌++◌, IfNone, IfSome, None};
ghost use Rattle.std.specs.Prelude.{Some, drop, length, map, position, take, ◌==◌};
ghost use Rattle.goblin_pe_sect.specs.Digits.{alphabet, digit, digit_byte, last_digits, numeral};
ghost use Rattle.goblin_pe_sect.specs.Digits.{radix};
ghost use Rattle.goblin_pe_sect.specs.SectionName.{decimal_number, decimal_width, indirect_name};

const DECIMAL: [u8; 10] = *b"0123456789";

const BASE64: [u8; 64] = *b"ABCDEFGHIJKLMNOPQRSTUVWXYZabcdefghijklmnopqrstuvwxyz0123456789+/";

/// The digits in which a section name gives a number, the most significant first.
#[derive(Clone, Copy)]
pub(crate) enum Digits {
    Decimal,
    Base64,
}

// The position of the first `byte` in `bytes`.
fn place(bytes: &[u8], byte: u8) -> Option<usize>
    ensures { result ≡ position (λ b. b == byte) bytes.now }
{
    bytes.iter().position(|b| *b == byte)
}

impl Digits {
    // All digits, in the order of their values.
    #[tactic(auto, unfolding(crate::specs::Digits::alphabet))]
    fn alphabet(self) -> &'static [u8]
        ensures { result.now ≡ alphabet self }
    {
        match self {
            Digits::Decimal => &DECIMAL,
            Digits::Base64 => &BASE64,
        }
    }

    // How many digits there are.
    fn radix(self) -> usize
        ensures { result ≡ radix self }
    {
        self.alphabet().len()
    }

    // The value of a digit, or `None` if the byte is not a digit.
    fn digit(self, byte: u8) -> Option<usize>
        ensures value { IfSome result (λ value. value ≡ digit self byte) }
        ensures below { IfSome result (λ value. value < radix self) }
        ensures none { IfNone result (radix self ≤ digit self byte) }
    {
        place(self.alphabet(), byte)
    }

    // The byte of a digit.
    fn byte(self, value: usize) -> u8
        requires { value < radix self }
        ensures { result ≡ digit_byte self value }
    {
        self.alphabet()[value]
    }

    /// The number in a text of at most seven digits, or `None` if a byte is not a digit. An empty
    /// text is 0.
    pub(crate) fn numeral(self, text: &[u8]) -> Option<usize>
        requires { length text.now ≤ 7 }
        ensures { result ≡ numeral self text.now }
    {
        let mut number = 0;
        'digits: for byte in text {
            let value = self.digit(*byte)?;
            number = number * self.radix() + value;
        }
        Some(number)
    }

    // Writes the last `count` digits of a number to `name`, from the index `from` on.
    fn write(self, name: &mut [u8; 8], from: usize, count: usize, number: usize)
        requires { from + count ≤ 8 }
        ensures { name.new
            ≡ take from name.old ++ map (digit_byte self) (last_digits (radix self) count number)
            ++ drop (from + count) name.old }
    {
        let mut rest = number;
        let mut at = from + count;
        'digits: while from < at {
            at -= 1;
            name[at] = self.byte(rest % self.radix());
            rest /= self.radix();
        }
    }
}

/// The decimal number in a text of at most seven bytes: an optional plus, then at least one digit.
/// `None` if the text is something else.
pub(crate) fn decimal_number(text: &[u8]) -> Option<usize>
    requires { length text.now ≤ 7 }
    ensures { result ≡ decimal_number text.now }
{
    let digits = match text {
        [b'+', digits @ ..] => digits,
        _ => text,
    };
    if digits.is_empty() {
        return None;
    }
    Digits::Decimal.numeral(digits)
}

// How many decimal digits a number up to 9,999,999 has.
fn decimal_width(number: usize) -> usize
    ensures { result ≡ decimal_width number }
{
    match number {
        0..=9 => 1,
        10..=99 => 2,
        100..=999 => 3,
        1_000..=9_999 => 4,
        10_000..=99_999 => 5,
        100_000..=999_999 => 6,
        _ => 7,
    }
}

/// The eight bytes of the name that holds a number, or `None` if no name can, because the number is
/// 64^6 or above.
#[tactic(auto, unfolding(crate::specs::SectionName::indirect_name, crate::specs::Digits::alphabet))]
pub(crate) fn indirect_name(number: usize) -> Option<[u8; 8]>
    ensures value { result ≡ indirect_name number }
    ensures none { IfNone result (64 ^ 6 ≤ number) }
{
    let mut name = [0; 8];
    name[0] = b'/';
    if number <= 9_999_999 {
        Digits::Decimal.write(&mut name, 1, decimal_width(number), number);
        return Some(name);
    }
    if number < 1 << 36 {
        name[1] = b'/';
        Digits::Base64.write(&mut name, 2, 6, number);
        return Some(name);
    }
    None
}
