//! Enums and their members.

ghost use Rattle.std.specs.Prelude.{◌≡◌, [], ◌∷◌, ◌++◌, IfOk, length, map};
ghost use Rattle.fisca_rules.specs.Clashes.{is_order as names_order};
ghost use Rattle.fisca_ast.specs.Outcomes.{Gives};
ghost use Rattle.fisca_ast.specs.ModuleViews.{statement as statement_view, statements as statements_view};
ghost use Rattle.fisca_rules.specs.Steps.Build as spec;
ghost use Rattle.fisca_rules.specs.Scans as scans;

use fisca_ast::{EnumClass, FormulaKind, Member, Module, Statement, content};
use fisca_symbols::{Choices, EnumMembers, Enums, SourceText};
use std::alloc::{AllocError, Global};

/// Whether what looks like a member is none.
fn is_order(member: &Member<'_>) -> bool
    ensures { result ≡ names_order member.now }
{
    member.name.as_bytes() == b"__order__".as_slice()
}

/// How many members there are.
fn member_count(members: &[Member<'_>]) -> usize
    ensures { result ≡ length (spec.members_of members.now) }
{
    let mut count = 0;
    for member in members {
        if !is_order(member) {
            count += 1;
        }
    }
    count
}

/// Whether an Enum has from 1 to 1,000 members.
pub(crate) fn members_fit(members: &[Member<'_>]) -> Result<(), FormulaKind>
    ensures { Gives (λ _. tt) (spec.members_fit members.now) result }
{
    let count = member_count(members);
    if count == 0 || count > 1000 {
        Err(FormulaKind::BadAttribute)
    } else {
        Ok(())
    }
}

/// The members so far, and this one with its text, where it is one.
fn with_member<'a>(
    alloc: Global,
    members: Vec<(SourceText<'a>, SourceText<'a>)>,
    member: &Member<'a>,
) -> Result<Vec<(SourceText<'a>, SourceText<'a>)>, AllocError>
    ensures { IfOk result (λ ms. ms.items ≡ members.entry.items ++ spec.members_of (member.now ∷ [])) }
{
    let mut found = members;
    if is_order(member) {
        return Ok(found);
    }
    let name = SourceText::borrowed(member.name.as_str());
    let text = SourceText::owned(content(alloc, member.text.as_str())?);
    found.push((name, text)).map_err(AllocError::from)?;
    Ok(found)
}

/// The members of an Enum, each with its text.
fn members_of<'a>(
    alloc: Global,
    members: &[Member<'a>],
) -> Result<Vec<(SourceText<'a>, SourceText<'a>)>, AllocError>
    ensures { IfOk result (λ ms. ms.items ≡ spec.members_of members.now) }
{
    let mut found = Vec::new(alloc);
    for member in members {
        found = with_member(alloc, found, member)?;
    }
    Ok(found)
}

/// An Enum with its members.
fn choices_of<'a>(alloc: Global, class: &EnumClass<'a>) -> Result<Choices<'a>, AllocError>
    ensures { IfOk result (λ c. c ≡ record { name = class.now.name; members = spec.members_of class.now.members.items }) }
{
    let members = members_of(alloc, class.members.as_slice())?;
    Ok(Choices {
        name: SourceText::borrowed(class.name.as_str()),
        members: EnumMembers::new(alloc, members)?,
    })
}

/// The Enums so far, and this statement where it is one.
fn with_enum<'a>(
    alloc: Global,
    enums: Vec<Choices<'a>>,
    statement: &Statement<'a>,
) -> Result<Vec<Choices<'a>>, AllocError>
    ensures { IfOk result (λ es. es.items ≡ enums.entry.items ++ spec.enum_of (statement_view statement.now)) }
{
    let mut found = enums;
    match statement {
        Statement::Enum(class) => {
            let choices = choices_of(alloc, class)?;
            found.push(choices).map_err(AllocError::from)?;
            Ok(found)
        }
        Statement::Entity(_) | Statement::Entities(_) | Statement::Variable(_) => Ok(found),
    }
}

/// The Enums so far and those of a module.
fn with_enums<'a>(
    alloc: Global,
    enums: Vec<Choices<'a>>,
    statements: &[Statement<'a>],
) -> Result<Vec<Choices<'a>>, AllocError>
    ensures { IfOk result (λ es. es.items ≡ enums.entry.items ++ scans.enums_of (map statement_view statements.now)) }
{
    let mut found = enums;
    for statement in statements {
        found = with_enum(alloc, found, statement)?;
    }
    Ok(found)
}

/// The Enums of all modules, in order.
pub(crate) fn enums_in<'a>(alloc: Global, modules: &[Module<'a>]) -> Result<Enums<'a>, AllocError>
    ensures { IfOk result (λ es. es ≡ scans.all_enums (map statements_view modules.now)) }
{
    let mut found = Vec::new(alloc);
    for module in modules {
        found = with_enums(alloc, found, module.statements.as_slice())?;
    }
    Enums::new(alloc, found)
}
