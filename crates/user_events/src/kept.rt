// The statuses of what stands at a key, where it counts as one of its kind.
ghost use Rattle.std.specs.Prelude.{◌≡◌, Some};
ghost use Rattle.std.specs.Option.{option_map};
ghost use Rattle.cluster_objects.specs.Kinds as spec;

use cluster_objects::{
    ClaimsStatus, CsvStatus, Key, Object, PlanStatus, Readiness, ResolutionStatus, Status,
    SubscriptionStatus, is_claims_key, is_csv_key, is_deployment_key, is_plan_key,
    is_resolution_key, is_subscription_key,
};

fn as_csv(object: Option<&Object>) -> Option<&CsvStatus>
    ensures { option_map (λ csv. csv.now) result ≡ spec.as_csv (option_map (λ object. object.now) object.entry) }
{
    match &object?.status {
        Status::Csv(csv) => Some(csv),
        _ => None,
    }
}

fn as_subscription(object: Option<&Object>) -> Option<&SubscriptionStatus>
    ensures { option_map (λ found. found.now) result ≡ spec.as_subscription (option_map (λ object. object.now) object.entry) }
{
    match &object?.status {
        Status::Subscription(found) => Some(found),
        _ => None,
    }
}

fn as_deployment(object: Option<&Object>) -> Option<Readiness>
    ensures { result ≡ spec.as_deployment (option_map (λ object. object.now) object.entry) }
{
    match &object?.status {
        Status::Deployment(state) => Some(*state),
        _ => None,
    }
}

fn as_plan(object: &Object) -> Option<&PlanStatus>
    ensures { option_map (λ plan. plan.now) result ≡ spec.as_plan (Some object.now) }
{
    match &object.status {
        Status::Plan(plan) => Some(plan),
        _ => None,
    }
}

fn as_resolution(object: &Object) -> Option<&ResolutionStatus>
    ensures { option_map (λ found. found.now) result ≡ spec.as_resolution (Some object.now) }
{
    match &object.status {
        Status::Resolution(found) => Some(found),
        _ => None,
    }
}

fn as_claims(object: &Object) -> Option<&ClaimsStatus>
    ensures { option_map (λ found. found.now) result ≡ spec.as_claims (Some object.now) }
{
    match &object.status {
        Status::Claims(found) => Some(found),
        _ => None,
    }
}

pub fn csv_at<'a>(key: &Key, object: Option<&'a Object>) -> Option<&'a CsvStatus>
    ensures { option_map (λ csv. csv.now) result ≡ spec.csv_at key.now (option_map (λ object. object.now) object.entry) }
{
    if is_csv_key(key) {
        as_csv(object)
    } else {
        None
    }
}

pub fn subscription_at<'a>(key: &Key, object: Option<&'a Object>) -> Option<&'a SubscriptionStatus>
    ensures { option_map (λ found. found.now) result ≡ spec.subscription_at key.now (option_map (λ object. object.now) object.entry) }
{
    if is_subscription_key(key) {
        as_subscription(object)
    } else {
        None
    }
}

pub fn deployment_at(key: &Key, object: Option<&Object>) -> Option<Readiness>
    ensures { result ≡ spec.deployment_at key.now (option_map (λ object. object.now) object.entry) }
{
    if is_deployment_key(key) {
        as_deployment(object)
    } else {
        None
    }
}

pub fn plan_at<'a>(key: &Key, object: &'a Object) -> Option<&'a PlanStatus>
    ensures { option_map (λ plan. plan.now) result ≡ spec.plan_at key.now (Some object.now) }
{
    if is_plan_key(key) {
        as_plan(object)
    } else {
        None
    }
}

pub fn resolution_at<'a>(key: &Key, object: &'a Object) -> Option<&'a ResolutionStatus>
    ensures { option_map (λ found. found.now) result ≡ spec.resolution_at key.now (Some object.now) }
{
    if is_resolution_key(key) {
        as_resolution(object)
    } else {
        None
    }
}

pub fn claims_at<'a>(key: &Key, object: &'a Object) -> Option<&'a ClaimsStatus>
    ensures { option_map (λ found. found.now) result ≡ spec.claims_at key.now (Some object.now) }
{
    if is_claims_key(key) {
        as_claims(object)
    } else {
        None
    }
}
