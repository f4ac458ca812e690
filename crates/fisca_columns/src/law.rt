//! Laws of columns, each as the contract of a function that does nothing.

ghost use Rattle.std.specs.Prelude.{◌≡◌, ◌↔◌, ℕ, List, Option, Some};
ghost use Rattle.fisca_columns.specs.AskedColumns.{IsAsked, column_text};
ghost use Rattle.fisca_columns.specs.Columns.{column_of};
ghost use Rattle.fisca_columns.specs.Written.{IsWritten, Parts};
ghost use Rattle.fisca_columns.specs.Steps.Written.{parts_of};
ghost use Rattle.fisca_model.specs.declared.key.Key.{Key};
ghost use Rattle.fisca_groups.specs.declared.entity_members.EntityMembers.{EntityMembers};
ghost use Rattle.fisca_time.specs.Period.{Span};
ghost use Rattle.fisca_model.specs.Tables.{Tables, Variable};

use fisca_time::texts_read_as_their_periods;

/// Law: a text is written as a column in just one way.
pub fn columns_are_written_in_one_way()
    ensures { (text : List ℕ) (w : Parts) → IsWritten text w ↔ (parts_of text ≡ w) }
{}

/// Law: the text `NAME#INDEX@PERIOD` of a key that is asked for names that key.
pub fn columns_are_read_back()
    ensures { (c : Tables) (ms : List EntityMembers) (default : Option Span) (k : Key) (x : Variable) → IsAsked c ms k x
        → column_of c ms default (column_text x.name k) ≡ Some k }
{
    texts_read_as_their_periods();
}
