//! Texts as cells of comma-separated values and as texts of JSON.

ghost use Rattle.std.specs.Prelude.{◌≡◌, ◌++◌, ◌<◌, OnOk, string_bytes};
ghost use Rattle.std.specs.List.{flat_map};
ghost use Rattle.std.specs.Str.{chars};
ghost use Rattle.fisca_forms.specs.Forms.{csv_text, doubled, has_to_be_quoted, hex_digit, json_character, json_control, json_text};

use std::alloc::AllocError;

/// Whether a text has to stand between double quotes.
fn has_to_be_quoted(text: &str) -> bool
    ensures { result ≡ has_to_be_quoted text.now }
{
    text.as_bytes()
        .iter()
        .any(|b| *b == b',' || *b == b'"' || *b == b'\n' || *b == b'\r')
}

/// Appends a cell of comma-separated values, as in RFC 4180.
pub fn write_csv(text: &str, line: &mut String) -> Result<(), AllocError>
    ensures { OnOk result (string_bytes line.new ≡ string_bytes line.old ++ csv_text text.now) }
{
    if !has_to_be_quoted(text) {
        return line.push_str(text);
    }
    line.push('"')?;
    write_doubled(text, line)?;
    line.push('"')
}

/// Appends a text, each double quote twice.
fn write_doubled(text: &str, line: &mut String) -> Result<(), AllocError>
    ensures { OnOk result (string_bytes line.new ≡ string_bytes line.old ++ flat_map doubled (chars text.now)) }
{
    for c in text.chars() {
        write_once_or_twice(c, line)?;
    }
    Ok(())
}

/// Appends a character, a double quote twice.
fn write_once_or_twice(c: char, line: &mut String) -> Result<(), AllocError>
    ensures { OnOk result (string_bytes line.new ≡ string_bytes line.old ++ doubled c) }
{
    if c == '"' {
        line.push_str("\"\"")
    } else {
        line.push(c)
    }
}

/// Appends a text of JSON, in double quotes.
pub fn write_json(text: &str, line: &mut String) -> Result<(), AllocError>
    ensures { OnOk result (string_bytes line.new ≡ string_bytes line.old ++ json_text text.now) }
{
    line.push('"')?;
    write_escaped(text, line)?;
    line.push('"')
}

/// Appends a text, with escapes where JSON wants them.
fn write_escaped(text: &str, line: &mut String) -> Result<(), AllocError>
    ensures { OnOk result (string_bytes line.new ≡ string_bytes line.old ++ flat_map json_character (chars text.now)) }
{
    for c in text.chars() {
        write_character(c, line)?;
    }
    Ok(())
}

/// Appends a character of a text of JSON.
fn write_character(c: char, line: &mut String) -> Result<(), AllocError>
    ensures { OnOk result (string_bytes line.new ≡ string_bytes line.old ++ json_character c) }
{
    if c == '"' || c == '\\' {
        line.push('\\')?;
        line.push(c)
    } else if c < ' ' {
        write_control(c as u8, line)
    } else {
        line.push(c)
    }
}

/// Appends a control character by its number.
fn write_control(number: u8, line: &mut String) -> Result<(), AllocError>
    requires { number < 32 }
    ensures { OnOk result (string_bytes line.new ≡ string_bytes line.old ++ json_control number) }
{
    line.push_str("\\u00")?;
    line.push(hex_digit(number / 16))?;
    line.push(hex_digit(number % 16))
}

/// A digit of hexadecimal numbers.
fn hex_digit(n: u8) -> char
    requires { n < 16 }
    ensures { result ≡ hex_digit n }
{
    char::from(if n < 10 { b'0' + n } else { b'a' + (n - 10) })
}
