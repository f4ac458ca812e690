//! Paths and keys as a line on standard error shows them.

ghost use Rattle.std.specs.Prelude.{◌≡◌, ℕ, ◌<◌, ◌^◌, ◌++◌, IsTrue, OnOk, string_bytes};
ghost use Rattle.std.specs.Char.{encode_utf8, digit_char};
ghost use Rattle.fisca_folder.specs.Shown.{shown, shown_char, shown_mark, two_digits};
ghost use Rattle.fisca_folder.specs.Steps.PlainTexts.{is_plain};
ghost use Rattle.fisca_folder.specs.Steps.Shown.{is_mark, is_within};

use std::alloc::AllocError;

/// Appends a path or a key to a line: each control character as `\x` and two hexadecimal digits, each mark that ends a line
/// or turns the direction of the text as `\u{` and four of them and `}`, so that the line stays one line, moves no cursor and
/// reads in its order; and any other character as itself. This project's own rule.
pub fn write_shown(text: &str, line: &mut String) -> Result<(), AllocError>
    ensures { OnOk result (string_bytes line.new ≡ string_bytes line.old ++ shown text.now) }
{
    if is_plain(text) {
        return line.push_str(text);
    }
    for c in text.chars() {
        write_char(c, line)?;
    }
    Ok(())
}

/// Whether all characters of a text are printable ones of ASCII, which are shown as they are.
fn is_plain(text: &str) -> bool
    ensures { result ≡ is_plain text.now }
{
    for byte in text.as_bytes() {
        if !is_within(u32::from(*byte), 0x20, 0x7f) {
            return false;
        }
    }
    true
}

/// Appends a character, a control character or a mark by its number.
fn write_char(c: char, line: &mut String) -> Result<(), AllocError>
    ensures { OnOk result (string_bytes line.new ≡ string_bytes line.old ++ shown_char c) }
{
    if c.is_control() {
        line.push_str("\\x")?;
        write_two_digits(u32::from(c), line)
    } else if is_mark(c) {
        write_mark(u32::from(c), line)
    } else {
        line.push(c)
    }
}

/// Whether a character is a mark of Unicode that ends a line (U+2028, U+2029) or turns the direction of the text.
fn is_mark(c: char) -> bool
    ensures value { result ≡ is_mark c }
    ensures low { IsTrue result → c < 2 ^ 16 }
{
    let number = u32::from(c);
    number == 0x061c
        || is_within(number, 0x200e, 0x2010)
        || is_within(number, 0x2028, 0x202f)
        || is_within(number, 0x2066, 0x206a)
}

/// Whether a number is one of those from `low` on and before `high`.
fn is_within(number: u32, low: u32, high: u32) -> bool
    ensures value { result ≡ is_within low high number }
    ensures below { IsTrue result → number < high }
{
    low <= number && number < high
}

/// Appends a mark by its number.
fn write_mark(number: u32, line: &mut String) -> Result<(), AllocError>
    requires { number < 2 ^ 16 }
    ensures { OnOk result (string_bytes line.new ≡ string_bytes line.old ++ shown_mark number) }
{
    line.push_str("\\u{")?;
    write_two_digits(number / 256, line)?;
    write_two_digits(number % 256, line)?;
    line.push('}')
}

/// Appends two hexadecimal digits.
fn write_two_digits(number: u32, line: &mut String) -> Result<(), AllocError>
    requires { number < 256 }
    ensures { OnOk result (string_bytes line.new ≡ string_bytes line.old ++ two_digits number) }
{
    write_digit(number / 16, line)?;
    write_digit(number % 16, line)
}

/// Appends a hexadecimal digit.
fn write_digit(digit: u32, line: &mut String) -> Result<(), AllocError>
    requires { digit < 16 }
    ensures { OnOk result (string_bytes line.new ≡ string_bytes line.old ++ encode_utf8 (digit_char digit)) }
{
    match char::from_digit(digit, 16) {
        Some(c) => line.push(c),
        None => unreachable!(),
    }
}
