//! Children of nodes by the members of Enums, made once for all formulas that choose among them.
ghost use Rattle.std.specs.Prelude.{◌≡◌, Result, IfOk, IfSome};
ghost use Rattle.fisca_check.specs.Rows.{kept as kept_view, looked as looked_for};
ghost use Rattle.fisca_check_calls.specs.Parameters.{Alike, alike_below, children as children_view};
ghost use Rattle.fisca_ast.specs.Outcomes.{Gives};
ghost use Rattle.fisca_ast.specs.declared.fault.FormulaKind.{FormulaKind};
ghost use Rattle.fisca_model.specs.Tables.{members_at};
ghost use Rattle.fisca_symbols.specs.Known.{tables as tables_of};

use crate::looked::Looked;
use crate::subscripts::member_names;
use fisca_ast::FormulaKind;
use fisca_check_calls::{Children, children_alike};
use fisca_params::NodeId;
use fisca_symbols::Tables;
use indexmap::IndexMap;
use std::alloc::{AllocError, Global};
use std::marker::Model;
use std::rc::Rc;

/// Children of nodes, or their fault.
type Found = Result<Children, FormulaKind>;

/// What was looked for so far of what a rule set declares, as which it is seen: two Enums behind a node have a list of as
/// many nodes as both have members together, and many formulas choose among the same.
#[derive(Drop)]
pub struct Rows<'n, 'a> {
    tables: &'n Tables<'a>,
    made: IndexMap<Looked, Found>,
}

impl<'n, 'a> Model for Rows<'n, 'a> {
    ghost use Rattle.fisca_check.specs.Rows.{AreRight};
    ghost use Rattle.fisca_model.specs.Tables as known;
    ghost use Rattle.fisca_symbols.specs.Known.{tables as tables_of};

    ghost Value = { known.Tables };

    ghost view = { λ r. tables_of r.tables.now };

    ghost invariant = { λ r. AreRight (tables_of r.tables.now) r.made };
}

/// The same once more, its list shared.
fn copied(found: &Found) -> Result<Found, AllocError>
    ensures { IfOk result (λ f. kept_view f ≡ kept_view found.now) }
{
    match found {
        Ok(children) => Ok(Ok(Children {
            kind: children.kind,
            places: Rc::clone(&children.places)?,
        })),
        Err(kind) => Ok(Err(*kind)),
    }
}

/// What was found, or its fault; but want of memory at once.
fn if_found(found: Found) -> Result<Found, AllocError>
    ensures known { (told : Result Alike FormulaKind) → Gives children_view told found → IfOk result (λ f. kept_view f ≡ told) }
{
    match found {
        Err(FormulaKind::Memory) => Err(AllocError),
        known => Ok(known),
    }
}

impl<'n, 'a> Rows<'n, 'a> {
    /// Nothing was looked for.
    pub fn new(alloc: Global, tables: &'n Tables<'a>) -> Rows<'n, 'a>
        ensures { result ≡ tables_of tables.now }
    {
        Rows {
            tables,
            made: IndexMap::new(alloc),
        }
    }

    /// What was found before, if it was looked for.
    fn before(&self, looked: &Looked) -> Result<Option<Found>, AllocError>
        ensures { IfOk result (λ o. IfSome o (λ f. kept_view f ≡ looked_for self.now looked.now)) }
    {
        match self.made.get(looked) {
            Some(found) => Ok(Some(copied(found)?)),
            None => Ok(None),
        }
    }

    /// The children of nodes by the members of an Enum, looked for anew.
    fn anew(&self, alloc: Global, choices: usize, places: &[NodeId]) -> Result<Found, AllocError>
        ensures { IfOk result (λ f. kept_view f ≡ alike_below self.now.nodes places.now (members_at self.now choices)) }
    {
        let names = member_names(alloc, self.tables, choices)?;
        if_found(children_alike(alloc, &self.tables.parameters, places, names.as_slice()))
    }

    /// Keeps what was found.
    #[tactic(auto, using(crate::proofs::Kept::right_more))]
    fn keep(&mut self, looked: Looked, found: Found) -> Result<(), AllocError>
        requires { kept_view found ≡ looked_for self.old looked }
        ensures { self.new ≡ self.old }
    {
        self.made.insert(looked, found).map_err(AllocError::from)?;
        Ok(())
    }

    /// The children of nodes by the members of an Enum: `UnknownParameter`, or `BadType` where they are not of one kind.
    pub fn children(
        &mut self,
        alloc: Global,
        choices: usize,
        places: &Rc<Vec<NodeId>>,
    ) -> Result<Children, FormulaKind>
        ensures found { Gives children_view (alike_below self.old.nodes places.now.value.items (members_at self.old choices)) result }
        ensures same { self.new ≡ self.old }
    {
        let looked = Looked::new(choices, Rc::clone(places)?);
        if let Some(found) = self.before(&looked)? {
            return found;
        }
        let found = self.anew(alloc, choices, places.as_slice())?;
        self.keep(looked, copied(&found)?)?;
        found
    }
}
