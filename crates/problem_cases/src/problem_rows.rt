// The problem of a namespace.
use crate::rows::{Stop, name_of, put_kind, put_name, shown};
use cluster_objects::Taken;
use object_store::View;
use olm_base::Name;
use op_constraints::{Constraint, VarId};
use problem_build::{BuildFault, Built, VarName, problem_of, upgrades_of};
use std::alloc::Global;

// The names, a line for each.
fn put_upgrades(out: &mut String, upgrades: &[Name]) -> Result<(), Stop> {
    if upgrades.is_empty() {
        out.push_str("  none\n")?;
    }
    for upgrade in upgrades {
        writeln!(out, "  {}", shown(upgrade.as_bytes()))?;
    }
    Ok(())
}

/// `upgrades NAMESPACE/SUBSCRIPTION`: the upgrades from its installed one.
pub fn upgrades_row(alloc: Global, out: &mut String, view: &View, word: &str) -> Result<(), Stop> {
    let subscription = name_of(alloc, word)?;
    let upgrades = upgrades_of(alloc, view, &subscription)?;
    put_upgrades(out, upgrades.as_slice())
}

fn put_taken(out: &mut String, taken: &Taken) -> Result<(), Stop> {
    for name in [
        &taken.catalog_namespace,
        &taken.catalog,
        &taken.package,
        &taken.channel,
        &taken.name,
    ] {
        put_name(out, name)?;
    }
    write!(out, " {}", taken.version.as_str())?;
    match &taken.replaces {
        Some(replaced) => Ok(write!(out, " over {}", shown(replaced.as_bytes()))?),
        None => Ok(()),
    }
}

fn put_variable(out: &mut String, variable: &VarName) -> Result<(), Stop> {
    match variable {
        VarName::Subscription(name) => {
            out.push_str("  subscription")?;
            put_name(out, name)
        }
        VarName::Entry { taken } => {
            out.push_str("  entry")?;
            put_taken(out, taken)
        }
        VarName::Installed(name) => {
            out.push_str("  installed")?;
            put_name(out, name)
        }
        VarName::OnePackage(name) => {
            out.push_str("  package")?;
            put_name(out, name)
        }
        VarName::OneKind(kind) => {
            out.push_str("  kind")?;
            put_kind(out, kind)
        }
    }
}

fn put_members(out: &mut String, members: &[VarId]) -> Result<(), Stop> {
    for member in members {
        write!(out, " {}", member.0)?;
    }
    Ok(())
}

fn put_constraint(out: &mut String, constraint: &Constraint) -> Result<(), Stop> {
    match constraint {
        Constraint::Mandatory => Ok(out.push_str(" | must")?),
        Constraint::Prohibited => Ok(out.push_str(" | never")?),
        Constraint::Dependency(members) => {
            out.push_str(" | needs")?;
            put_members(out, members.as_slice())
        }
        Constraint::Conflict(other) => Ok(write!(out, " | without {}", other.0)?),
        Constraint::AtMost { most, members } => {
            write!(out, " | {most} of")?;
            put_members(out, members.as_slice())
        }
    }
}

// The constraints of a variable.
fn put_constraints(out: &mut String, built: &Built, number: u32) -> Result<(), Stop> {
    for place in 0..u32::MAX {
        match built.problem.find(VarId(number), place) {
            Some(constraint) => put_constraint(out, constraint)?,
            None => break,
        }
    }
    Ok(out.push('\n')?)
}

fn put_problem(out: &mut String, built: &Built) -> Result<(), Stop> {
    let mut number: u32 = 0;
    for variable in built.names.as_slice() {
        put_variable(out, variable)?;
        put_constraints(out, built, number)?;
        number = number.saturating_add(1);
    }
    let closed = if built.problem.closed() {
        "closed"
    } else {
        "open"
    };
    Ok(writeln!(out, "  {} variables, {closed}", built.problem.len())?)
}

/// `problem NAMESPACE`: its variables, each with its constraints.
pub fn problem_row(alloc: Global, out: &mut String, view: &View) -> Result<(), Stop> {
    match problem_of(alloc, view) {
        Ok(built) => put_problem(out, &built),
        Err(BuildFault::TooManyVariables { count }) => Ok(writeln!(out, "  {count} are too many")?),
        Err(BuildFault::Memory) => Err(Stop::Memory),
    }
}
