// What is known of a new object, by its kind.
ghost use Rattle.std.specs.Prelude.{◌≡◌};
ghost use Rattle.serde_json.specs.View.{view};
ghost use Rattle.olm_base.specs.Outcome.{Gives};
ghost use Rattle.json_fields.specs.Faults.{is_free};
ghost use Rattle.cluster_objects.specs.Kinds as kind;
ghost use Rattle.object_bodies.specs.Statuses as spec;

use crate::csvs::csv;
use crate::fields::{approval_at, fields_at};
use crate::groups::{new_group, new_strategy};
use cluster_objects::{
    Key, Made, Readiness, Status, SubSpec, SubState, SubscriptionStatus, is_csv_key,
    is_deployment_key, is_group_key, is_strategy_key, is_subscription_key,
};
use json_fields::{Fault, Reader, name_at, opt_name_at};
use serde_json::Value;
use std::alloc::Global;

/// The reader of a subscription's `spec`.
struct Asked;

impl Reader for Asked {
    type Out = SubSpec;

    ghost use Rattle.object_bodies.specs.Statuses.{sub_spec};

    ghost reading = { sub_spec };

    fn read(alloc: Global, value: &Value) -> Result<SubSpec, Fault> {
        let package = name_at(alloc, value, "name")?;
        let channel = opt_name_at(alloc, value, "channel")?;
        let source = name_at(alloc, value, "source")?;
        let source_namespace = name_at(alloc, value, "sourceNamespace")?;
        let starting = opt_name_at(alloc, value, "startingCSV")?;
        let manual = approval_at(alloc, value, "installPlanApproval")?;
        Ok(SubSpec {
            package,
            channel,
            source,
            source_namespace,
            starting,
            manual,
        })
    }
}

fn subscription(alloc: Global, value: &Value) -> Result<SubscriptionStatus, Fault>
    ensures { Gives is_free (spec.subscription (view value.now)) result }
{
    let spec = fields_at::<Asked>(alloc, value, "spec")?;
    Ok(SubscriptionStatus {
        spec,
        state: SubState::Nothing,
    })
}

fn subscription_made(alloc: Global, value: &Value) -> Result<Made, Fault>
    ensures { Gives is_free (spec.subscription_made (view value.now)) result }
{
    let found = subscription(alloc, value)?;
    Ok(Made::Subscription(found))
}

fn csv_made(alloc: Global, value: &Value) -> Result<Made, Fault>
    ensures { Gives is_free (spec.csv_made (view value.now)) result }
{
    let found = csv(alloc, value)?;
    Ok(Made::Csv(found))
}

/// What a step with this body makes, where its object stands at a key of this group and kind.
pub fn made_of(alloc: Global, key: &Key, value: &Value) -> Result<Made, Fault>
    ensures { Gives is_free (spec.made_of key.now (view value.now)) result }
{
    if is_subscription_key(key) {
        subscription_made(alloc, value)
    } else if is_csv_key(key) {
        csv_made(alloc, value)
    } else if is_deployment_key(key) {
        Ok(Made::Deployment(Readiness::Waiting))
    } else {
        Ok(Made::Plain)
    }
}

/// The status of the same name.
fn made_status(made: Made) -> Status
    ensures { result ≡ kind.status_of made }
{
    match made {
        Made::Plain => Status::Plain,
        Made::Subscription(status) => Status::Subscription(status),
        Made::Csv(status) => Status::Csv(status),
        Made::Deployment(readiness) => Status::Deployment(readiness),
    }
}

fn new_made(alloc: Global, key: &Key, value: &Value) -> Result<Status, Fault>
    ensures { Gives is_free (spec.new_made key.now (view value.now)) result }
{
    let made = made_of(alloc, key, value)?;
    Ok(made_status(made))
}

/// What a user's body makes, where its object stands at a key of this group and kind.
pub fn new_status(alloc: Global, key: &Key, value: &Value) -> Result<Status, Fault>
    ensures { Gives is_free (spec.new_status key.now (view value.now)) result }
{
    if is_strategy_key(key) {
        new_strategy(alloc, value)
    } else if is_group_key(key) {
        new_group(alloc, value)
    } else {
        new_made(alloc, key, value)
    }
}
