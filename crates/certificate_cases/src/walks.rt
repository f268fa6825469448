// Sets and walks.
ghost use Rattle.std.specs.Prelude.{◌≡◌, length, IfOk};
ghost use Rattle.op_constraints.specs.Meets.{IsClosed};

use crate::problems::variables;
use anyhow::{Result, bail};
use olm_base::Memory;
use op_constraints::{Problem, Tried, VarId, VarSet, Walk, first_walk};
use std::alloc::Global;

/// Prints a word and numbers.
pub fn put_numbers(rt: &impl Print, word: &str, numbers: &[u32]) -> Result<()> {
    print!(rt; "  {word}")?;
    for number in numbers {
        print!(rt; " {number}")?;
    }
    println!(rt; "")?;
    Ok(())
}

/// The set of those variables that the problem has.
fn set_of(alloc: Global, problem: &Problem, members: &[VarId]) -> Result<VarSet, Memory>
    ensures { IfOk result (λ set. length set ≡ length problem.now) }
{
    let mut set = VarSet::new(alloc, problem)?;
    for var in members {
        if (var.0 as usize) < problem.len() {
            set.add(*var);
        }
    }
    Ok(set)
}

fn met(is_met: bool) -> &'static str {
    if is_met { "met" } else { "not met" }
}

/// `meets NUMBERS` prints whether the set of these variables meets the problem.
pub fn put_meets(rt: &impl Print, alloc: Global, problem: &Problem, words: &str) -> Result<()>
    requires { IsClosed problem.now }
{
    let members = variables(alloc, words)?;
    let set = set_of(alloc, problem, members.as_slice())?;
    println!(rt; "  {}", met(problem.meets(&set)))?;
    Ok(())
}

/// Takes the numbers as far as they are offered, and says how many were and whether the walk is then full.
fn follow(walk: &mut Walk<'_>, numbers: &[VarId]) -> (usize, bool)
    ensures { walk.new.problem ≡ walk.old.problem }
{
    for (i, number) in numbers.iter().enumerate() {
        match walk.next_choice() {
            Some(members) => {
                if number.0 as usize >= members.len() {
                    return (i, false);
                }
                walk.take(number.0);
            }
            None => return (i, true),
        }
    }
    (numbers.len(), walk.next_choice().is_none())
}

/// `walk NUMBERS` prints how many of the numbers are offered, whether the walk is then full, and whether the set of all
/// that it chose meets the problem.
pub fn put_walk(rt: &impl Print, alloc: Global, problem: &Problem, words: &str) -> Result<()>
    requires { IsClosed problem.now }
{
    let numbers = variables(alloc, words)?;
    let mut walk = Walk::new(alloc, problem)?;
    let (taken, is_full) = follow(&mut walk, numbers.as_slice());
    let full = if is_full { "full" } else { "not full" };
    println!(rt;
        "  {taken} taken, {full}, {}",
        met(problem.meets(walk.set()))
    )?;
    Ok(())
}

fn put_tried(rt: &impl Print, tried: &Tried) -> Result<()> {
    match tried {
        Tried::Found { walk } => put_numbers(rt, "found", walk.as_slice()),
        Tried::Nothing => {
            println!(rt; "  nothing")?;
            Ok(())
        }
        Tried::Spent => {
            println!(rt; "  spent")?;
            Ok(())
        }
    }
}

/// `first TRIES` prints the best walk, as it is found by trying at most `TRIES` partial walks.
pub fn put_first(rt: &impl Print, alloc: Global, problem: &Problem, tries: &str) -> Result<()>
    requires { IsClosed problem.now }
{
    let tries: u32 = tries.parse()?;
    let tried = first_walk(alloc, problem, tries)?;
    put_tried(rt, &tried)
}

/// `follow` prints the walk of zeros, and then the numbers of the walk that begins again.
pub fn put_follow(rt: &impl Print, alloc: Global, problem: &Problem) -> Result<()>
    requires { IsClosed problem.now }
{
    let mut walk = Walk::new(alloc, problem)?;
    let word = if walk.follow_first() { "full" } else { "stuck" };
    put_numbers(rt, word, walk.numbers())?;
    walk.restart();
    let word = match walk.next_choice() {
        Some(_) => "not full",
        None => "full",
    };
    put_numbers(rt, word, walk.numbers())
}

/// `constraints VARIABLE` prints the constraints of a variable.
pub fn put_constraints(rt: &impl Print, problem: &Problem, number: &str) -> Result<()> {
    let var = VarId(number.parse()?);
    if var.0 as usize >= problem.len() {
        bail!("no such variable");
    }
    let count = problem.constraints(var).len();
    for number in 0..9 {
        if let Some(constraint) = problem.find(var, number) {
            println!(rt; "  {constraint:?}")?;
        }
    }
    println!(rt; "  {count} of {}", problem.len())?;
    Ok(())
}
