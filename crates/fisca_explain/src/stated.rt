//! Where a file states inputs.

use fisca_model::Key;
use fisca_rules::RuleSet;
use fisca_situations::Situation;
use fisca_symbols::{Entity, Variable};
use fisca_time::{Period, Unit};
use fisca_yaml::{Entry, Tree};

/// An input as a file states it.
#[derive(Clone, Copy)]
pub(crate) struct Stated {
    /// The line of its key.
    pub(crate) line: usize,
    /// Its period.
    pub(crate) period: Period,
}

/// The input of a file, and the period that values without one have.
#[derive(Drop)]
pub(crate) struct StatedInputs<'t, 'a> {
    /// The input.
    pub(crate) tree: &'t Tree<'a>,
    /// The period.
    pub(crate) default: Option<Period>,
}

/// How many parts of a unit a period has.
fn parts_of(period: Period, unit: Unit) -> u32 {
    period.sub_count(unit).unwrap_or(1)
}

/// Whether an input of this period gives a value for another, whose variable has values by this unit.
fn covers(stated: Period, unit: Unit, period: Period) -> bool {
    stated == period || unit == Unit::Eternity || stated.overlaps(&period)
}

/// Whether an input of this period comes before the one that was found, since it is shorter.
fn is_shorter(found: &Option<Stated>, unit: Unit, period: Period) -> bool {
    match found {
        None => true,
        Some(found) => parts_of(period, unit) < parts_of(found.period, unit),
    }
}

/// Of an input that was found and the next one that which gives a value for a period: the shorter of two that do.
fn shorter(found: Option<Stated>, entry: &Entry<'_>, unit: Unit, period: Period) -> Option<Stated> {
    let Ok(stated) = Period::read(entry.key.as_str()) else {
        return found;
    };
    if !covers(stated, unit, period) || !is_shorter(&found, unit, stated) {
        return found;
    }
    Some(Stated {
        line: entry.line,
        period: stated,
    })
}

/// The shortest of dated inputs that gives a value for a period.
fn dated_input(entries: &[Entry<'_>], unit: Unit, period: Period) -> Option<Stated> {
    let mut found = None;
    for entry in entries {
        found = shorter(found, entry, unit, period);
    }
    found
}

/// The member of this name in a map of members: they stand in their order there, so it is looked for at its own place first.
fn member_named<'t, 'a>(members: &'t Tree<'a>, member: u32, name: &str) -> Option<&'t Entry<'a>> {
    if let Tree::Map(entries) = members {
        if let Some(entry) = entries.as_slice().get(member as usize) {
            if entry.key.as_str() == name {
                return Some(entry);
            }
        }
    }
    members.entry(name)
}

/// What is stated of a member of an entity: in a map of the members under the plural, or of the only one under the key.
fn member_in<'t, 'a>(
    tree: &'t Tree<'a>,
    entity: &Entity<'_>,
    member: u32,
    name: &str,
) -> Option<&'t Tree<'a>> {
    if let Some(members) = tree.entry(entity.plural.as_str()) {
        return Some(&member_named(&members.value, member, name)?.value);
    }
    match tree.entry(entity.key.as_str()) {
        Some(only) => Some(&only.value),
        None => Some(tree),
    }
}

impl<'t, 'a> StatedInputs<'t, 'a> {
    /// What is stated at a variable that gives a value for a period.
    fn input_at(
        &self,
        entry: &Entry<'_>,
        variable: &Variable<'_>,
        period: Period,
    ) -> Option<Stated> {
        let unit = variable.definition_period;
        match &entry.value {
            Tree::Null => None,
            Tree::Map(entries) => dated_input(entries.as_slice(), unit, period),
            Tree::Scalar { .. } | Tree::List(_) => Some(Stated {
                line: entry.line,
                period: self.default.unwrap_or(period),
            }),
        }
    }

    /// Where the file states what gives the value of a key: nowhere, where the value is a default beside other members' inputs.
    pub(crate) fn find(
        &self,
        rules: &RuleSet<'_>,
        situation: &Situation,
        key: &Key,
    ) -> Option<Stated> {
        let variable = rules.variables().get(key.variable)?;
        let entity = rules.entities().get(variable.entity)?;
        let name = situation.name(variable.entity, key.member)?;
        let member = member_in(self.tree, entity, key.member, name)?;
        let entry = member.entry(variable.name.as_str())?;
        self.input_at(entry, variable, key.period)
    }
}
