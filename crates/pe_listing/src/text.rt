//! The pieces of a line: numbers and names as text.

ghost use Rattle.std.specs.Prelude.{◌≡◌, ◌++◌, ◌^◌, ◌<◌, ◌≤◌, IsAscii, IsTrue, OnOk, drop, false};
ghost use Rattle.std.specs.Prelude.{string_bytes};
ghost use Rattle.std.specs.Fmt.{decimal, digit_glyph, digits};
ghost use Rattle.std.specs.List.{list_all};
ghost use Rattle.pe_listing.specs.Text.{decimal_field, escaped, escaped_byte, hex_field};
ghost use Rattle.pe_listing.specs.Text.{is_unescaped, name_field};

use std::alloc::AllocError;
use std::str;

/// Appends a label, and a number as `0x` and lower-case hexadecimal digits without leading zeros.
#[tactic(auto, unfolding(crate::specs::Text::hex_field))]
#[inline(always)]
pub fn push_hex(text: &mut String, label: &str, number: u64) -> Result<(), AllocError>
    ensures { OnOk result
        (string_bytes text.new ≡ string_bytes text.old ++ hex_field label.now number) }
{
    text.push_str(label)?;
    text.push_str("0x")?;
    push_hex_digits(text, number)?;
    Ok(())
}

// Appends a number in lower-case hexadecimal digits, without leading zeros.
fn push_hex_digits(text: &mut String, number: u64) -> Result<(), AllocError>
    ensures { OnOk result
        (string_bytes text.new ≡ string_bytes text.old ++ digits 16 false number) }
{
    push_digits(text, 16, number)
}

// Appends a number in decimal digits, without leading zeros.
fn push_decimal_digits(text: &mut String, number: u64) -> Result<(), AllocError>
    ensures { OnOk result (string_bytes text.new ≡ string_bytes text.old ++ decimal number) }
{
    push_digits(text, 10, number)
}

// Appends the digits of a number, without leading zeros. All are appended at once, because each
// call tests for room. The base is a literal where this is inlined.
#[tactic(auto, using(crate::proofs::Digits::one_digit, crate::proofs::Digits::digits_are_text))]
#[inline(always)]
fn push_digits(text: &mut String, base: u64, number: u64) -> Result<(), AllocError>
    requires lowest { 2 ≤ base }
    requires highest { base ≤ 16 }
    requires room { number < base ^ 20 }
    ensures { OnOk result
        (string_bytes text.new ≡ string_bytes text.old ++ digits base false number) }
{
    if number < base {
        return text.push(digit(number) as char);
    }
    let mut places = [0; 20];
    let start = fill_digits(&mut places, base, number);
    text.push_str(unsafe { str::from_utf8_unchecked(&places[start..]) })
}

// Writes the digits of a number to the last places, the last digit first, and returns where they
// start.
#[inline(always)]
fn fill_digits(places: &mut [u8; 20], base: u64, number: u64) -> usize
    requires lowest { 2 ≤ base }
    requires highest { base ≤ 16 }
    requires room { number < base ^ 20 }
    ensures start { result ≤ 20 }
    ensures value { drop result places.new ≡ digits base false number }
    ensures ascii { IsAscii (drop result places.new) }
{
    let mut start = 19;
    let mut rest = number;
    'filling: while rest >= base {
        places[start] = digit(rest % base);
        rest /= base;
        start -= 1;
    }
    places[start] = digit(rest);
    start
}

#[inline(always)]
fn digit(value: u64) -> u8
    requires { value < 16 }
    ensures value { result ≡ digit_glyph false value }
    ensures ascii { result < 128 }
{
    if value < 10 {
        b'0' + value as u8
    } else {
        b'a' + (value - 10) as u8
    }
}

/// Appends a label, and a number in decimal digits.
#[tactic(auto, unfolding(crate::specs::Text::decimal_field))]
#[inline(always)]
pub fn push_decimal(text: &mut String, label: &str, number: u64) -> Result<(), AllocError>
    ensures { OnOk result
        (string_bytes text.new ≡ string_bytes text.old ++ decimal_field label.now number) }
{
    text.push_str(label)?;
    push_decimal_digits(text, number)?;
    Ok(())
}

/// Appends a label, and a name. The backslash, and each byte that is no printable ASCII character,
/// becomes `\x` and two lower-case hexadecimal digits.
#[tactic(auto, unfolding(crate::specs::Text::name_field))]
#[inline(always)]
pub fn push_name(text: &mut String, label: &str, name: &str) -> Result<(), AllocError>
    ensures { OnOk result
        (string_bytes text.new ≡ string_bytes text.old ++ name_field label.now name.now) }
{
    text.push_str(label)?;
    push_escaped(text, name)?;
    Ok(())
}

/// As [`push_name`], for a name that need not be text.
#[tactic(auto, unfolding(crate::specs::Text::name_field))]
pub fn push_name_bytes(text: &mut String, label: &str, name: &[u8]) -> Result<(), AllocError>
    ensures { OnOk result
        (string_bytes text.new ≡ string_bytes text.old ++ name_field label.now name.now) }
{
    text.push_str(label)?;
    push_each_escaped(text, name)?;
    Ok(())
}

// Appends a name as it is printed: at once if nothing in it is escaped.
#[tactic(auto, using(crate::proofs::UnescapedNames::unescaped_name))]
fn push_escaped(text: &mut String, name: &str) -> Result<(), AllocError>
    ensures { OnOk result (string_bytes text.new ≡ string_bytes text.old ++ escaped name.now) }
{
    if is_unescaped_name(name.as_bytes()) {
        text.push_str(name)?;
    } else {
        push_each_escaped(text, name.as_bytes())?;
    }
    Ok(())
}

// Whether every byte is printed as it is. All are looked at, which is faster than stopping at the
// first that is not.
fn is_unescaped_name(name: &[u8]) -> bool
    ensures { result ≡ list_all is_unescaped name.now }
{
    let mut unescaped = true;
    'bytes: for byte in name {
        unescaped &= is_unescaped(*byte);
    }
    unescaped
}

// Appends a name, byte by byte.
fn push_each_escaped(text: &mut String, name: &[u8]) -> Result<(), AllocError>
    ensures { OnOk result (string_bytes text.new ≡ string_bytes text.old ++ escaped name.now) }
{
    'escaping: for byte in name {
        push_escaped_byte(text, *byte)?;
    }
    Ok(())
}

#[tactic(auto, using(std::proofs::lemmas::Fmt::hex_byte), unfolding(crate::specs::Text::escaped_byte))]
fn push_escaped_byte(text: &mut String, byte: u8) -> Result<(), AllocError>
    ensures { OnOk result (string_bytes text.new ≡ string_bytes text.old ++ escaped_byte byte) }
{
    if is_unescaped(byte) {
        text.push(byte as char)?;
    } else {
        write!(text, "\\x{byte:02x}")?;
    }
    Ok(())
}

// Whether a byte is printed as it is: a printable ASCII character other than the backslash.
#[tactic(auto, using(std::proofs::lemmas::Bool::Decides::nat_tests))]
fn is_unescaped(byte: u8) -> bool
    ensures value { result ≡ is_unescaped byte }
    ensures ascii { IsTrue result → byte < 128 }
{
    matches!(byte, 0x20..=0x7e) && byte != b'\\'
}
