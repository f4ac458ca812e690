//! The files that a rule set is read from.
ghost use Rattle.std.specs.Prelude.{◌≡◌, string_bytes, is_some, option_map};
ghost use Rattle.fisca_params.specs.Paths.{names_of, inner_path};
ghost use Rattle.fisca_params.specs.Steps.Paths.{without_yaml};

use std::marker::Model;

/// A file of a rule set: its path, relative to the rule set's folder with `/` between folders, and its text.
/// Contracts see it as the bytes of both.
#[derive(Debug, Drop)]
pub struct SourceFile {
    path: String,
    text: String,
}

impl Model for SourceFile {
    ghost use Rattle.std.specs.Prelude.{string_bytes};
    ghost use Rattle.fisca_params.specs.Source.{Source};

    ghost Value = { Source };

    ghost view = { λ f. record { path = string_bytes f.path; text = string_bytes f.text } };
}

impl SourceFile {
    /// The file of this path and text. It takes no memory.
    pub fn new(path: String, text: String) -> SourceFile
        ensures { result ≡ record { path = string_bytes path; text = string_bytes text } }
    {
        SourceFile { path, text }
    }

    /// The path.
    pub fn path(&self) -> &str
        ensures { result.now ≡ self.now.path }
    {
        self.path.as_str()
    }

    /// The text.
    pub fn text(&self) -> &str
        ensures { result.now ≡ self.now.text }
    {
        self.text.as_str()
    }
}

/// Whether this is the path of a parameter file: one below the folder `parameters` whose name ends in `.yaml` or `.yml`.
pub fn is_parameter_path(path: &str) -> bool
    ensures { result ≡ is_some (names_of path.now) }
{
    parameter_path(path).is_some()
}

/// The path of a parameter file below the folder `parameters`, without its ending. None of any other file.
pub(crate) fn parameter_path(path: &str) -> Option<&str>
    ensures { option_map (λ p. p.now) result ≡ inner_path path.now }
{
    without_yaml(path.strip_prefix("parameters/")?)
}

/// A file's name without the ending of a YAML file.
fn without_yaml(name: &str) -> Option<&str>
    ensures { option_map (λ n. n.now) result ≡ without_yaml name.now }
{
    match name.strip_suffix(".yaml") {
        Some(stem) => Some(stem),
        None => name.strip_suffix(".yml"),
    }
}
