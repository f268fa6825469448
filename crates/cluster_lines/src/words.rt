// The word of an object's status.
ghost use Rattle.std.specs.Prelude.{◌≡◌};
ghost use Rattle.cluster_lines.specs.Words as spec;

use cluster_objects::{CsvPhase, Outcome, PlanPhase, Readiness, Status, SubState};

fn state_word(state: SubState) -> &'static [u8]
    ensures { result.now ≡ spec.state_word state }
{
    match state {
        SubState::Nothing => b"None",
        SubState::UpgradeAvailable => b"UpgradeAvailable",
        SubState::UpgradePending => b"UpgradePending",
        SubState::AtLatestKnown => b"AtLatestKnown",
    }
}

fn csv_word(phase: CsvPhase) -> &'static [u8]
    ensures { result.now ≡ spec.csv_word phase }
{
    match phase {
        CsvPhase::Nothing => b"None",
        CsvPhase::Pending => b"Pending",
        CsvPhase::InstallReady => b"InstallReady",
        CsvPhase::Installing => b"Installing",
        CsvPhase::Succeeded => b"Succeeded",
        CsvPhase::Failed => b"Failed",
        CsvPhase::Replacing => b"Replacing",
        CsvPhase::Deleting => b"Deleting",
    }
}

fn readiness_word(readiness: Readiness) -> &'static [u8]
    ensures { result.now ≡ spec.readiness_word readiness }
{
    match readiness {
        Readiness::Waiting => b"Waiting",
        Readiness::Ready => b"Ready",
        Readiness::Failed => b"Failed",
    }
}

fn plan_word(phase: PlanPhase) -> &'static [u8]
    ensures { result.now ≡ spec.plan_word phase }
{
    match phase {
        PlanPhase::Nothing => b"None",
        PlanPhase::Planning => b"Planning",
        PlanPhase::RequiresApproval => b"RequiresApproval",
        PlanPhase::Installing => b"Installing",
        PlanPhase::Complete => b"Complete",
        PlanPhase::Failed => b"Failed",
    }
}

fn outcome_word(outcome: &Outcome) -> &'static [u8]
    ensures { result.now ≡ spec.outcome_word outcome.now }
{
    match outcome {
        Outcome::Nothing => b"Nothing",
        Outcome::Chosen { .. } => b"Chosen",
        Outcome::Refused => b"Refused",
        Outcome::Undecided { .. } => b"Undecided",
        Outcome::TooLarge { .. } => b"TooLarge",
    }
}

/// The word by which an object is printed: the state of a subscription, the phase of a CSV or a plan, how far a
/// deployment is, the outcome of a resolution, else what it is. A state or phase that is none as yet is `None`.
pub fn status_word(status: &Status) -> &'static [u8]
    ensures { result.now ≡ spec.status_word status.now }
{
    match status {
        Status::Plain => b"Plain",
        Status::Catalog(_) => b"Catalog",
        Status::Subscription(subscription) => state_word(subscription.state),
        Status::Csv(csv) => csv_word(csv.phase),
        Status::Deployment(readiness) => readiness_word(*readiness),
        Status::Plan(plan) => plan_word(plan.phase),
        Status::Resolution(resolution) => outcome_word(&resolution.outcome),
        Status::Strategy(_) => b"Strategy",
        Status::Group(_) => b"Group",
        Status::Claims(_) => b"Claims",
        Status::Lease(_) => b"Lease",
    }
}
