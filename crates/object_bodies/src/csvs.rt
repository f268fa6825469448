// CSVs.
ghost use Rattle.std.specs.Prelude.{◌≡◌};
ghost use Rattle.serde_json.specs.View.{view};
ghost use Rattle.olm_base.specs.Outcome.{Gives};
ghost use Rattle.json_fields.specs.Faults.{is_free};
ghost use Rattle.object_bodies.specs.Statuses as spec;

use crate::fields::{opt_fields_at, version_at};
use cluster_objects::{Crd, CsvPhase, CsvStatus};
use json_fields::{Fault, Reader, check_fields, name_at, opt_list_at, opt_name_at};
use olm_base::{FieldKind, Many, Memory, Name, Text};
use serde_json::Value;
use std::alloc::Global;

/// The custom resource definitions that a CSV owns and needs.
#[derive(Debug, Drop)]
pub struct CrdLists {
    pub owned: Many<Crd>,
    pub needed: Many<Crd>,
}

/// The reader of a custom resource definition.
struct CrdItem;

impl Reader for CrdItem {
    type Out = Crd;

    ghost use Rattle.object_bodies.specs.Statuses.{crd};

    ghost reading = { crd };

    fn read(alloc: Global, value: &Value) -> Result<Crd, Fault> {
        check_fields(alloc, value)?;
        let name = name_at(alloc, value, "name")?;
        let version = name_at(alloc, value, "version")?;
        let kind = name_at(alloc, value, "kind")?;
        Ok(Crd {
            name,
            version,
            kind,
        })
    }
}

/// The reader of both lists.
struct Definitions;

impl Reader for Definitions {
    type Out = CrdLists;

    ghost use Rattle.object_bodies.specs.Statuses.{crd_lists};

    ghost reading = { crd_lists };

    fn read(alloc: Global, value: &Value) -> Result<CrdLists, Fault> {
        let owned = opt_list_at::<CrdItem>(alloc, value, "owned")?;
        let needed = opt_list_at::<CrdItem>(alloc, value, "required")?;
        Ok(CrdLists { owned, needed })
    }
}

/// The reader of a deployment, by its name.
struct DeploymentItem;

impl Reader for DeploymentItem {
    type Out = Name;

    ghost use Rattle.object_bodies.specs.Statuses.{deployment_name};

    ghost reading = { deployment_name };

    fn read(alloc: Global, value: &Value) -> Result<Name, Fault> {
        check_fields(alloc, value)?;
        name_at(alloc, value, "name")
    }
}

/// The reader of what an install strategy deploys.
struct InstallStrategy;

impl Reader for InstallStrategy {
    type Out = Many<Name>;

    ghost use Rattle.object_bodies.specs.Statuses.{deployment_names};

    ghost reading = { deployment_names };

    fn read(alloc: Global, value: &Value) -> Result<Many<Name>, Fault> {
        opt_list_at::<DeploymentItem>(alloc, value, "deployments")
    }
}

/// The reader of `install`.
struct Install;

impl Reader for Install {
    type Out = Many<Name>;

    ghost use Rattle.object_bodies.specs.Statuses.{install_names};

    ghost reading = { install_names };

    fn read(alloc: Global, value: &Value) -> Result<Many<Name>, Fault> {
        opt_fields_at::<InstallStrategy>(alloc, value, "spec")
    }
}

/// A new CSV.
fn new_csv(
    version: Text,
    crds: CrdLists,
    deployments: Many<Name>,
    replaces: Option<Name>,
) -> CsvStatus
    ensures { result ≡ spec.new_csv version crds deployments replaces }
{
    CsvStatus {
        package: None,
        version,
        owned: crds.owned,
        needed: crds.needed,
        deployments,
        replaces,
        phase: CsvPhase::Nothing,
    }
}

/// The reader of a CSV's `spec`.
struct CsvSpec;

impl Reader for CsvSpec {
    type Out = CsvStatus;

    ghost use Rattle.object_bodies.specs.Statuses.{csv_spec};

    ghost reading = { csv_spec };

    fn read(alloc: Global, value: &Value) -> Result<CsvStatus, Fault> {
        let crds = opt_fields_at::<Definitions>(alloc, value, "customresourcedefinitions")?;
        let deployments = opt_fields_at::<Install>(alloc, value, "install")?;
        let replaces = opt_name_at(alloc, value, "replaces")?;
        match version_at(alloc, value) {
            Ok(version) => Ok(new_csv(version, crds, deployments, replaces)),
            Err(Memory) => Err(Fault::here(alloc, FieldKind::Memory)),
        }
    }
}

/// The status of a new CSV with this body.
pub fn csv(alloc: Global, value: &Value) -> Result<CsvStatus, Fault>
    ensures { Gives is_free (spec.csv (view value.now)) result }
{
    opt_fields_at::<CsvSpec>(alloc, value, "spec")
}
