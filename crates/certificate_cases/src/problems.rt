// Problems, written in lines: one for each variable, with up to two constraints.
ghost use Rattle.std.specs.Prelude.{◌≤◌, length, IfOk};
ghost use Rattle.std.specs.List.{AllByRecursion};
ghost use Rattle.op_constraints.specs.Kept.{HasFewMembers};

use anyhow::{Result, bail};
use olm_base::Many;
use op_constraints::{Constraint, Problem, VAR_LIMIT, VarId};
use std::alloc::Global;

/// The variables with these numbers.
pub fn variables(alloc: Global, words: &str) -> Result<Many<VarId>>
    ensures { IfOk result (λ members. length members ≤ VAR_LIMIT) }
{
    let mut members = Vec::new(alloc);
    for word in words.split_whitespace() {
        members.push(VarId(word.parse()?))?;
    }
    if members.len() > VAR_LIMIT {
        bail!("too many members");
    }
    Ok(Many::from_vec(members))
}

fn at_most(alloc: Global, words: &str) -> Result<Constraint>
    ensures { IfOk result HasFewMembers }
{
    let (most, members) = words.split_once(' ').unwrap_or((words, ""));
    let most = most.parse()?;
    let members = variables(alloc, members)?;
    Ok(Constraint::AtMost { most, members })
}

/// The constraint of a word and numbers.
fn constraint_of(alloc: Global, text: &str) -> Result<Constraint>
    ensures { IfOk result HasFewMembers }
{
    let (word, numbers) = text.split_once(' ').unwrap_or((text, ""));
    match word {
        "in" => Ok(Constraint::Mandatory),
        "out" => Ok(Constraint::Prohibited),
        "needs" => Ok(Constraint::Dependency(variables(alloc, numbers)?)),
        "apart" => Ok(Constraint::Conflict(VarId(numbers.parse()?))),
        "most" => at_most(alloc, numbers),
        _ => bail!("no such constraint"),
    }
}

/// The constraints of a line, of which there are none, one or two.
fn constraints_of(alloc: Global, line: &str) -> Result<Vec<Constraint>>
    ensures few { IfOk result (λ constraints. length constraints.items ≤ VAR_LIMIT) }
    ensures members { IfOk result (λ constraints. AllByRecursion HasFewMembers constraints.items) }
{
    if line == "free" {
        return Ok(vec![in alloc]?);
    }
    match line.split_once(", ") {
        Some((one, other)) => {
            let one = constraint_of(alloc, one)?;
            let other = constraint_of(alloc, other)?;
            Ok(vec![in alloc; one, other]?)
        }
        None => {
            let one = constraint_of(alloc, line)?;
            Ok(vec![in alloc; one]?)
        }
    }
}

/// The problem of these lines.
pub fn problem_of(alloc: Global, lines: &str) -> Result<Problem> {
    let mut problem = Problem::new(alloc);
    for line in lines.lines() {
        let constraints = constraints_of(alloc, line)?;
        if problem.len() < VAR_LIMIT {
            problem.push(alloc, Many::from_vec(constraints))?;
        }
    }
    Ok(problem)
}
