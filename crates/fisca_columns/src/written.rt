//! How a column is written.

ghost use Rattle.std.specs.Prelude.{◌≡◌, ◌<◌, option_map};
ghost use Rattle.fisca_columns.specs.ColumnViews.{parts};
ghost use Rattle.fisca_columns.specs.Steps.Written as spec;

/// The parts of a column's text `NAME`, `NAME#INDEX`, `NAME@PERIOD` or `NAME#INDEX@PERIOD`.
#[derive(Clone, Copy, Debug)]
pub(crate) struct Parts<'t> {
    /// What stands before the signs.
    pub(crate) name: &'t str,
    /// What stands behind `#`.
    pub(crate) index: Option<&'t str>,
    /// What stands behind `@`.
    pub(crate) period: Option<&'t str>,
}

/// What stands before the first such sign, and what behind it, if there is one.
fn cut(sign: char, text: &str) -> (&str, Option<&str>)
    requires { sign < 128 }
    ensures { (result.0.now, option_map (λ t. t.now) result.1) ≡ spec.cut sign text.now }
{
    match text.split_once(sign) {
        Some((before, behind)) => (before, Some(behind)),
        None => (text, None),
    }
}

/// The parts of a text, which each text has.
pub(crate) fn parts_of(text: &str) -> Parts<'_>
    ensures { parts result ≡ spec.parts_of text.now }
{
    let (front, period) = cut('@', text);
    let (name, index) = cut('#', front);
    Parts {
        name,
        index,
        period,
    }
}
