//! Places of names.

ghost use Rattle.std.specs.Prelude.{◌≡◌, ℕ, List, Some, None, IfOk, OnOk, if◌then◌else◌};
ghost use Rattle.std.specs.Str.{bytes_eq};
ghost use Rattle.fisca_model.specs.Tables.{otherwise};
ghost use Rattle.indexmap.specs.IndexMap.{get};

use crate::text::SourceText;
use indexmap::IndexMap;
use std::alloc::AllocError;

/// Notes what a name leads to, where it led to nothing before.
pub(crate) fn note<'a, V: Drop>(
    places: &mut IndexMap<SourceText<'a>, V>,
    name: SourceText<'a>,
    place: V,
) -> Result<(), AllocError>
    ensures { OnOk result ((t : List ℕ) → get bytes_eq places.new t ≡
        otherwise (get bytes_eq places.old t) (if bytes_eq name.entry t then Some place else None)) }
{
    if places.get(&name).is_some() {
        return Ok(());
    }
    places.insert(name, place).map_err(AllocError::from)?;
    Ok(())
}
