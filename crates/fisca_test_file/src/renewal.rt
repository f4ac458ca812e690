//! Answers that are made anew, so that no test remembers too much.

ghost use Rattle.std.specs.Prelude.{◌≡◌};
ghost use Rattle.fisca_test_file.specs.Handing.{AreAnswersOf};
ghost use Rattle.fisca_yaml.specs.Views.{node};

use crate::simulation_builder::SimulationBuilder;
use crate::test::situation_in;
use fisca_situations::Answers;
use fisca_symbols::Tables;
use fisca_yaml::Tree;
use std::alloc::{AllocError, Global};

/// How many values are remembered before the answers are made anew.
const MOST_VALUES: u64 = 250_000;

/// How many keys are asked for in between at least: what they have in common is worked out again each time.
const FEWEST_KEYS: u64 = 100;

/// Where a test stands: the item on `line`.
#[derive(Clone, Copy)]
pub(crate) struct TestPlace<'a, 't> {
    /// The line of the item.
    pub(crate) line: usize,
    /// What stands there.
    pub(crate) tree: &'a Tree<'t>,
}

/// Makes the answers of a test anew, with nothing remembered: its situation is read again.
fn renew<A: Answers + Drop, M: SimulationBuilder<A>>(
    alloc: Global,
    tables: &Tables<'_>,
    place: TestPlace<'_, '_>,
    builder: &M,
    answers: &mut A,
) -> Result<(), AllocError>
    requires answers { AreAnswersOf (M.answer_in builder.now) (M.fits builder.now) tables.now place.line (node place.tree.now) (A.answer answers.old) (A.members answers.old) }
    requires ready { A.ready answers.old }
    ensures ready { A.ready answers.new }
    ensures same_answers { A.answer answers.new ≡ A.answer answers.old }
    ensures same_members { A.members answers.new ≡ A.members answers.old }
{
    match situation_in(alloc, tables, place.line, place.tree) {
        Ok(situation) => {
            *answers = builder.answers(alloc, situation)?;
            Ok(())
        }
        Err(_) => Err(AllocError),
    }
}

/// Makes the answers of a test anew where they remember many values, and some keys were asked for since they were made; and counts the key that is
/// asked for next.
pub(crate) fn renew_before<A: Answers + Drop, M: SimulationBuilder<A>>(
    alloc: Global,
    tables: &Tables<'_>,
    place: TestPlace<'_, '_>,
    builder: &M,
    asked: &mut u64,
    answers: &mut A,
) -> Result<(), AllocError>
    requires answers { AreAnswersOf (M.answer_in builder.now) (M.fits builder.now) tables.now place.line (node place.tree.now) (A.answer answers.old) (A.members answers.old) }
    requires ready { A.ready answers.old }
    ensures ready { A.ready answers.new }
    ensures same_answers { A.answer answers.new ≡ A.answer answers.old }
    ensures same_members { A.members answers.new ≡ A.members answers.old }
{
    if *asked >= FEWEST_KEYS && builder.remembered(answers) >= MOST_VALUES {
        renew(alloc, tables, place, builder, answers)?;
        *asked = 0;
    }
    *asked = asked.saturating_add(1);
    Ok(())
}
