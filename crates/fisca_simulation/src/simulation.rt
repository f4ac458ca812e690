//! A situation under a rule set.

ghost use Rattle.std.specs.Prelude.{◌≡◌, option_map};
ghost use Rattle.fisca_check.specs.Formulas.{formula_view};
ghost use Rattle.fisca_inputs.specs.Steps.Rules.{default_of as default_in};
ghost use Rattle.fisca_model.specs.Seen.{key_seen};
ghost use Rattle.fisca_rules.specs.Views.{rule_set};
ghost use Rattle.fisca_simulation.specs.Simulations as spec;
ghost use Rattle.fisca_simulation.specs.Steps.Simulations as steps;
ghost use Rattle.fisca_simulation.specs.Views.{simulation};

use crate::formulas::{formulas_at, has_ended, in_force};
use fisca_check::TypedFormula;
use fisca_inputs::{is_marked, key_period};
use fisca_model::{Key, Value, fits};
use fisca_rules::RuleSet;
use fisca_situations::Situation;
use fisca_symbols::{DefaultValue, Variable};

/// A situation under a rule set.
#[derive(Clone, Copy)]
pub struct Simulation<'r, 't, 's> {
    /// The rule set.
    pub rules: &'r RuleSet<'t>,
    /// The situation. Its inputs are without those of neutralised variables.
    pub situation: &'s Situation,
    /// Which variables are neutralised, by their places. There is none past the last mark.
    pub neutral: &'s [bool],
}

impl<'r, 't, 's> Simulation<'r, 't, 's> {
    /// The variable of a key. `None` where there is none, or where it has no value at the key's period: only at one of its definition
    /// period, or at any where it is eternal.
    pub fn variable(&self, key: Key) -> Option<&'r Variable<'t>>
        ensures { option_map (λ v. v.now) result ≡ spec.variable_of (simulation self.now).rules (key_seen key) }
    {
        match self.rules.variables().get(key.variable) {
            Some(variable) => {
                if fits(variable.definition_period, key.period) {
                    Some(variable)
                } else {
                    None
                }
            }
            None => None,
        }
    }

    /// Whether the variable at this place has formulas, in force or not. Where it has none, no value of it comes from a formula.
    pub fn has_formulas(&self, variable: usize) -> bool
        ensures { result ≡ steps.has_formulas (simulation self.now).rules variable }
    {
        match formulas_at(self.rules, variable) {
            [] => false,
            [_, ..] => true,
        }
    }

    /// The formula of this variable that is in force where the key's period starts. `None` where none is, past the variable's end, for
    /// eternity, and where the variable is neutralised.
    #[inline(always)]
    pub fn formula(&self, variable: &Variable<'_>, key: Key) -> Option<&'r TypedFormula>
        ensures { option_map (λ f. formula_view f.now) result ≡ spec.formula_of (simulation self.now).rules (simulation self.now).neutral variable.now (key_seen key) }
    {
        if is_marked(self.neutral, key.variable) {
            return None;
        }
        let Some(day) = key.period.start() else {
            return None;
        };
        if has_ended(variable.end, day) {
            return None;
        }
        match in_force(self.rules, key.variable, day) {
            Some(dated) => Some(&dated.formula),
            None => None,
        }
    }
}

/// The value of a variable where nothing else says one. Days and texts have none.
pub fn default_of(variable: &Variable<'_>) -> Option<Value>
    ensures { result ≡ default_in variable.now.default_value }
{
    match &variable.default_value {
        DefaultValue::Number(number) => Some(Value::Number(*number)),
        DefaultValue::Bool(truth) => Some(Value::Bool(*truth)),
        DefaultValue::Member(place) => Some(Value::Member(*place)),
        DefaultValue::Date(_) | DefaultValue::Text(_) => None,
    }
}

/// The key under which a value stands: that of an eternal variable has the eternal period, whatever period it is asked for at.
pub fn own_key(rules: &RuleSet<'_>, key: Key) -> Key
    ensures { key_seen result ≡ spec.normal_key (rule_set rules.now) (key_seen key) }
{
    match rules.variables().get(key.variable) {
        Some(variable) => Key {
            variable: key.variable,
            member: key.member,
            period: key_period(variable, key.period),
        },
        None => key,
    }
}
