// The problem that a catalog, a package and a channel put.
ghost use Rattle.std.specs.Prelude.{◌≡◌, IfOk, Ok};
ghost use Rattle.op_constraints.specs.Meets.{IsClosed};
ghost use Rattle.catalog_choice.specs.Asking as spec;

use object_store::View;
use olm_base::{Bytes, Many, Memory, Name, NameFault};
use one_subscription::asked_view;
use op_constraints::{Constraint, Problem};
use problem_build::{BuildFault, Built, VarName, named_variables_are_there, problem_of};
use std::alloc::Global;

/// A problem that is to be decided, and what its variables stand for.
#[derive(Debug, Drop)]
pub struct Question {
    pub problem: Problem,
    pub names: Many<VarName>,
}

/// The name that a text is, if it is one.
fn name_of(alloc: Global, text: &[u8]) -> Result<Option<Name>, Memory>
    ensures { IfOk result (λ name. name ≡ spec.name_of text.now) }
{
    match Name::new(alloc, text) {
        Ok(name) => Ok(Some(name)),
        Err(NameFault::Bad) => Ok(None),
        Err(NameFault::Memory) => Err(Memory),
    }
}

/// What a view asks. Too many variables come exactly where its problem is above the limit.
pub fn ask_view(alloc: Global, view: &View) -> Result<Question, BuildFault>
    ensures asked { spec.IsOfView view.now result }
    ensures closed { IfOk result (λ question. IsClosed question.problem) }
{
    named_variables_are_there();
    let Built {
        problem,
        names,
        basis: _,
    } = problem_of(alloc, view)?;
    Ok(Question { problem, names })
}

/// The question of what asks nothing. It has no variable, and the choice of nothing meets it.
pub fn ask_nothing(alloc: Global) -> Question
    ensures asked { spec.IsNothing (Ok result) }
    ensures closed { IsClosed result.problem }
{
    Question {
        problem: Problem::new(alloc),
        names: Many::new(alloc),
    }
}

fn unmet_problem(alloc: Global) -> Result<Problem, Memory>
    ensures { IfOk result (λ problem. problem ≡ spec.unmet) }
{
    let mut constraints = Many::new(alloc);
    constraints.push(Constraint::Mandatory)?;
    constraints.push(Constraint::Dependency(Many::new(alloc)))?;
    let mut problem = Problem::new(alloc);
    problem.push(alloc, constraints)?;
    Ok(problem)
}

/// The question that no catalog can meet.
fn unmet(alloc: Global) -> Result<Question, BuildFault>
    ensures asked { spec.IsUnmet result }
    ensures closed { IfOk result (λ question. IsClosed question.problem) }
{
    Ok(Question {
        problem: unmet_problem(alloc)?,
        names: Many::new(alloc),
    })
}

fn ask_by(
    alloc: Global,
    body: Bytes,
    package_name: Option<Name>,
    channel: Option<Name>,
) -> Result<Question, BuildFault>
    ensures asked { spec.IsAskedBy body package_name channel result }
    ensures closed { IfOk result (λ question. IsClosed question.problem) }
{
    match (package_name, channel) {
        (Some(package_name), Some(channel)) => {
            let view = asked_view(alloc, body, &package_name, &channel)?;
            ask_view(alloc, &view)
        }
        (Some(_), None) => unmet(alloc),
        (None, _) => unmet(alloc),
    }
}

/// The question that is put to a catalog of this body by one subscription, which is named as its package.
pub fn ask(
    alloc: Global,
    body: Bytes,
    package_name: &[u8],
    channel: &[u8],
) -> Result<Question, BuildFault>
    ensures asked { spec.IsAsked body package_name.now channel.now result }
    ensures closed { IfOk result (λ question. IsClosed question.problem) }
{
    let package_name = name_of(alloc, package_name)?;
    let channel = name_of(alloc, channel)?;
    ask_by(alloc, body, package_name, channel)
}
