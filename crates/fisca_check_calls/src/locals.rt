//! The locals of a formula so far.
ghost use Rattle.std.specs.Prelude.{◌≡◌, ◌++◌, ◌∷◌, [], IfOk, option_map, reverse};
ghost use Rattle.fisca_check_calls.specs.Counts.{size as size_of};
ghost use Rattle.fisca_check_calls.specs.Locals.{first_named, locals, sizes};
ghost use Rattle.fisca_ir.specs.Views.{thing};
ghost use Rattle.fisca_typing.specs.Names.{local_named};
ghost use Rattle.fisca_typing.specs.Sizes.{capped, size_named};

use crate::local::Local;
use crate::size::{Size, one};
use crate::table::Table;
use fisca_ir::Thing;
use std::alloc::{AllocError, Global};
use std::marker::Model;

/// So many locals are looked through one by one, which costs less than a table where there are few.
const FEW: usize = 8;

/// Locals in the order in which they are assigned, seen as a list: the first few, and those that a table finds.
#[derive(Drop)]
pub struct Locals<'a> {
    first: Vec<Local<'a>>,
    more: Table<'a>,
}

impl<'a> Model for Locals<'a> {
    ghost use Rattle.std.specs.Prelude.{List, ◌++◌};
    ghost use Rattle.fisca_check_calls.specs.declared.local.Local.{Local};
    ghost use Rattle.fisca_ir.specs.contracts.node.Node as n;
    ghost use Rattle.std.specs.Coded.{codes};

    ghost Value = { List Local };

    ghost coded = { Prim.hlevel (codes, n.the_row.coded) };

    ghost view = { λ l. l.first.items ++ l.more };
}

/// The latest of these locals that has this name.
#[tactic(auto, using(crate::proofs::Latest::named_last))]
fn latest_of<'l, 'a>(locals: &'l [Local<'a>], name: &[u8]) -> Option<&'l Local<'a>>
    ensures { option_map (λ l. l.now) result ≡ first_named (reverse locals.now) name.now }
{
    match locals {
        [] => None,
        [before @ .., local] => {
            if local.name.as_bytes() == name {
                Some(local)
            } else {
                latest_of(before, name)
            }
        }
    }
}

impl<'a> Locals<'a> {
    /// No local.
    pub fn new(alloc: Global) -> Locals<'a>
        ensures { result ≡ [] }
    {
        Locals {
            first: Vec::new(alloc),
            more: Table::new(alloc),
        }
    }

    /// One local more, which stands before earlier ones of its name.
    #[tactic(auto, using(crate::proofs::Latest::more_first, crate::proofs::Latest::more_behind))]
    pub fn with(self, local: Local<'a>) -> Result<Locals<'a>, AllocError>
        ensures { IfOk result (λ l. l ≡ self.entry ++ local.entry ∷ []) }
    {
        let Locals { mut first, more } = self;
        if more.is_empty() && first.len() < FEW {
            first.push(local)?;
            return Ok(Locals { first, more });
        }
        let more = more.with(local)?;
        Ok(Locals { first, more })
    }

    /// The latest local of this name.
    #[tactic(auto, using(crate::proofs::Latest::named_behind, crate::proofs::Latest::named_before))]
    fn of_name(&self, name: &[u8]) -> Option<&Local<'a>>
        ensures { option_map (λ l. l.now) result ≡ first_named (reverse self.now) name.now }
    {
        if self.more.is_empty() {
            return latest_of(self.first.as_slice(), name);
        }
        match self.more.of_name(name) {
            Some(local) => Some(local),
            None => latest_of(self.first.as_slice(), name),
        }
    }

    /// What the name of a local stands for.
    #[tactic(auto, using(crate::proofs::Latest::thing_found, crate::proofs::Latest::thing_missing))]
    pub fn find(&self, name: &[u8]) -> Result<Option<Thing>, AllocError>
        ensures { IfOk result (λ x. option_map thing x ≡ local_named (locals self.now) name.now) }
    {
        match self.of_name(name) {
            Some(local) => Ok(Some(local.held.thing()?)),
            None => Ok(None),
        }
    }

    /// The size that a name counts for: of the local's expression, or of an atom.
    #[tactic(auto, using(crate::proofs::Latest::size_found, crate::proofs::Latest::size_missing))]
    pub fn size_named(&self, name: &[u8]) -> Size
        ensures { size_of result ≡ capped (size_named (sizes self.now) name.now) }
    {
        match self.of_name(name) {
            Some(local) => local.size,
            None => one(),
        }
    }
}
