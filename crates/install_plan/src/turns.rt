// The order of a plan's steps.
ghost use Rattle.std.specs.Prelude.{◌≡◌, ◌++◌, ◌∷◌, [], IfOk, map, OnOk};
ghost use Rattle.std.specs.List.{filter_map};
ghost use Rattle.upgrade_graph.specs.Sorting.{sorted};
ghost use Rattle.install_plan.specs.Plans as spec;

use cluster_objects::{Key, Step, compare_keys, is_crd_key, is_csv_key};
use olm_base::Memory;
use std::cmp::Ordering;

/// When a step is made: definitions of resources first, then other manifests, then the subscriptions that the plan
/// adds, and CSVs last.
#[derive(Clone, Copy, Debug, PartialEq, Eq)]
pub(crate) enum Turn {
    Definition,
    Other,
    Added,
    Csv,
}

/// A step with its turn.
#[derive(Drop)]
pub(crate) struct Turned {
    pub(crate) turn: Turn,
    pub(crate) step: Step,
}

fn turn_of(key: &Key) -> Turn
    ensures { result ≡ spec.turn_of key.now }
{
    if is_crd_key(key) {
        Turn::Definition
    } else if is_csv_key(key) {
        Turn::Csv
    } else {
        Turn::Other
    }
}

fn turn_number(turn: Turn) -> u8
    ensures { result ≡ spec.turn_number turn }
{
    match turn {
        Turn::Definition => 0,
        Turn::Other => 1,
        Turn::Added => 2,
        Turn::Csv => 3,
    }
}

fn compare(left: &Turned, right: &Turned) -> Ordering
    ensures { result ≡ spec.turned_cmp left.now right.now }
{
    let by_turn = turn_number(left.turn).cmp(&turn_number(right.turn));
    by_turn.then_with(|| compare_keys(&left.step.key, &right.step.key))
}

fn of_manifest(step: Step) -> Turned
    ensures { result ≡ spec.of_manifest step }
{
    Turned {
        turn: turn_of(&step.key),
        step,
    }
}

fn add_step(turned: &mut Vec<Turned>, found: Option<Step>) -> Result<(), Memory>
    ensures { OnOk result (turned.new.items ≡ turned.old.items ++ map spec.of_manifest (filter_map (λ found. found) (found ∷ []))) }
{
    if let Some(step) = found {
        turned.push(of_manifest(step))?;
    }
    Ok(())
}

/// Appends the steps of manifests. After want of memory a beginning of them may stand there.
pub(crate) fn add_steps(turned: &mut Vec<Turned>, read: Vec<Option<Step>>) -> Result<(), Memory>
    ensures { OnOk result (turned.new.items ≡ turned.old.items ++ map spec.of_manifest (filter_map (λ found. found) read.items)) }
{
    'steps: for found in read {
        add_step(turned, found)?;
    }
    Ok(())
}

/// The steps in their order.
pub(crate) fn in_order(mut turned: Vec<Turned>) -> Result<Vec<Turned>, Memory>
    ensures { IfOk result (λ ordered. ordered.items ≡ sorted spec.is_before turned.items) }
{
    turned.sort_by(|left, right| compare(left, right))?;
    Ok(turned)
}
