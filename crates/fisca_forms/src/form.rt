//! How lines are written.

ghost use Rattle.std.specs.Prelude.{◌≡◌, ◌++◌, ◌≤◌, ◌==◌, OnOk, string_bytes, option_map, map};
ghost use Rattle.fisca_forms.specs.Forms.{cell_in, closing, header_cell, json_value};
ghost use Rattle.fisca_forms.specs.LineForms.{before_cell, is_numeral, is_plain, name_at, names_line, number_cell, number_text, places_in};

use crate::fixed::write_fixed;
use crate::texts::{write_csv, write_json};
use fisca_num::Fraction;
use std::alloc::AllocError;
use std::marker::Model;

/// The form of lines. This project's own rule, but for what CSV and JSON are.
#[derive(Clone, Copy, Debug, PartialEq, Eq)]
pub enum Format {
    /// Cells with tabs between them, as they are.
    Tsv,
    /// Comma-separated values, as in RFC 4180.
    Csv,
    /// An object of JSON in each line.
    Jsonl,
}

/// How many places numbers have, at most 18.
#[derive(Clone, Copy, Debug)]
pub struct Decimals {
    places: u8,
    ghost few: { places ≤ 18 },
}

impl Model for Decimals {
    ghost use Rattle.fisca_forms.specs.Forms.{Places};

    ghost Value = { Places };

    ghost view = { λ d. record { places = d.places; few = d.few } };

    ghost inverse = { λ d. record { places = d.places; few = d.few } };
}

impl Decimals {
    /// So many places; `None` where there are more than 18.
    pub fn new(places: u64) -> Option<Decimals>
        ensures { option_map (λ d. d.places) result ≡ places_in places }
    {
        if places > 18 {
            return None;
        }
        Some(Decimals {
            places: places as u8,
        })
    }
}

/// How the cells of a line are written. Contracts see the names as texts.
#[derive(Debug, Drop)]
pub struct LineForm {
    format: Format,
    decimals: Option<Decimals>,
    names: Vec<String>,
}

impl Model for LineForm {
    ghost use Rattle.std.specs.Prelude.{map, string_bytes};
    ghost use Rattle.fisca_forms.specs.LineForms.{Form};

    ghost Value = { Form };

    ghost view = { λ f. record { format = f.format; decimals = f.decimals; names = map (λ name. string_bytes name) f.names.items } };
}

impl LineForm {
    /// Lines of this format, where numbers have so many places, if a number of places is given, and cells these names, from the first on.
    pub fn new(format: Format, decimals: Option<Decimals>, names: Vec<String>) -> LineForm
        ensures { result ≡ record { format = format; decimals = decimals; names = map (λ name. string_bytes name) names.items } }
    {
        LineForm {
            format,
            decimals,
            names,
        }
    }

    /// Whether lines are cells with tabs between them, with the exact texts of numbers.
    pub fn is_plain(&self) -> bool
        ensures { result ≡ is_plain self.now }
    {
        self.format == Format::Tsv && self.decimals.is_none()
    }

    /// Appends the text of a number, exact or to so many places.
    pub fn write_number(&self, number: Fraction, line: &mut String) -> Result<(), AllocError>
        ensures { OnOk result (string_bytes line.new ≡ string_bytes line.old ++ number_text self.now.decimals number) }
    {
        match self.decimals {
            None => number.write_text(line),
            Some(decimals) => write_fixed(number, decimals.places, line),
        }
    }

    /// Appends the cell at a place of the line, with what stands before it.
    pub fn write_cell(
        &self,
        place: usize,
        is_bare: bool,
        text: &str,
        line: &mut String,
    ) -> Result<(), AllocError>
        ensures { OnOk result (string_bytes line.new ≡ string_bytes line.old ++ (before_cell self.now.format place ++ cell_in self.now.format (name_at self.now.names place) (record { is_bare = is_bare; text = text.now }))) }
    {
        line.push_str(self.before(place))?;
        match self.format {
            Format::Tsv => line.push_str(text),
            Format::Csv => write_csv(text, line),
            Format::Jsonl => {
                write_json(self.name(place), line)?;
                line.push(':')?;
                write_value(is_bare, text, line)
            }
        }
    }

    /// Appends the cell of a number at a place of the line. The room is for its text.
    pub fn write_number_cell(
        &self,
        place: usize,
        number: Fraction,
        room: &mut String,
        line: &mut String,
    ) -> Result<(), AllocError>
        ensures { OnOk result (string_bytes line.new ≡ string_bytes line.old ++ (before_cell self.now.format place ++ cell_in self.now.format (name_at self.now.names place) (number_cell self.now.decimals number))) }
    {
        room.clear();
        self.write_number(number, room)?;
        self.write_cell(place, is_numeral(room.as_str()), room.as_str(), line)
    }

    /// Appends the line of the names.
    pub fn write_header(&self, line: &mut String) -> Result<(), AllocError>
        ensures { OnOk result (string_bytes line.new ≡ string_bytes line.old ++ names_line self.now.format self.now.names) }
    {
        for place in 0..self.names.len() {
            line.push_str(self.before(place))?;
            self.write_name(place, line)?;
        }
        self.write_end(line)
    }

    /// Appends the name of the cell at a place, as it stands in the line of the names.
    fn write_name(&self, place: usize, line: &mut String) -> Result<(), AllocError>
        ensures { OnOk result (string_bytes line.new ≡ string_bytes line.old ++ header_cell self.now.format (name_at self.now.names place)) }
    {
        match self.format {
            Format::Tsv | Format::Jsonl => line.push_str(self.name(place)),
            Format::Csv => write_csv(self.name(place), line),
        }
    }

    /// Appends what ends a line.
    pub fn write_end(&self, line: &mut String) -> Result<(), AllocError>
        ensures { OnOk result (string_bytes line.new ≡ string_bytes line.old ++ closing self.now.format) }
    {
        line.push_str(match self.format {
            Format::Tsv => "\n",
            Format::Csv => "\r\n",
            Format::Jsonl => "}\n",
        })
    }

    /// What stands before the cell at a place.
    fn before(&self, place: usize) -> &'static str
        ensures { result.now ≡ before_cell self.now.format place }
    {
        match self.format {
            Format::Jsonl if place == 0 => "{",
            Format::Tsv | Format::Csv if place == 0 => "",
            Format::Tsv => "\t",
            Format::Csv | Format::Jsonl => ",",
        }
    }

    /// The name of the cell at a place, if it has one.
    fn name(&self, place: usize) -> &str
        ensures { result.now ≡ name_at self.now.names place }
    {
        match self.names.as_slice().get(place) {
            Some(name) => name.as_str(),
            None => "",
        }
    }
}

/// Whether the text of a number is a numeral, and no fraction.
pub fn is_numeral(text: &str) -> bool
    ensures { result ≡ is_numeral text.now }
{
    !text.as_bytes().contains(&b'/')
}

/// Appends a value of JSON: the text as it stands where it is bare.
fn write_value(is_bare: bool, text: &str, line: &mut String) -> Result<(), AllocError>
    ensures { OnOk result (string_bytes line.new ≡ string_bytes line.old ++ json_value (record { is_bare = is_bare; text = text.now })) }
{
    if is_bare {
        line.push_str(text)
    } else {
        write_json(text, line)
    }
}
