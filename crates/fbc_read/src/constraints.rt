// Constraints: tests of a bundle, in which others may nest.
ghost use Rattle.std.specs.Prelude.{◌≡◌, Some, map, filter};
ghost use Rattle.serde_json.specs.View.{view};
ghost use Rattle.olm_base.specs.Outcome.{Gives};
ghost use Rattle.json_fields.specs.Faults.{is_free};
ghost use Rattle.json_fields.specs.Values.{each};
ghost use Rattle.fbc_read.specs.Constraints as spec;

use fbc_types::RawConstraint;
use json_fields::{
    Fault, below_item, below_key, check_fields, gvk, lend_fields, lend_list, name_at, opt_text_at,
    text_at,
};
use olm_base::{FieldKind, Many};
use serde_json::Value;
use std::alloc::Global;

/// The forms of a constraint, each with a field of its own.
#[derive(Clone, Copy, Debug, PartialEq, Eq)]
pub enum Form {
    Package,
    Kind,
    All,
    Any,
    Not,
    Cel,
}

const FORMS: [Form; 6] = [
    Form::Package,
    Form::Kind,
    Form::All,
    Form::Any,
    Form::Not,
    Form::Cel,
];

impl Form {
    fn key(self) -> &'static str
        ensures { result.now ≡ spec.key self }
    {
        match self {
            Form::Package => "package",
            Form::Kind => "gvk",
            Form::All => "all",
            Form::Any => "any",
            Form::Not => "not",
            Form::Cel => "cel",
        }
    }
}

fn is_present(value: &Value, key: &str) -> bool
    ensures { result ≡ spec.is_present key.now (view value.now) }
{
    match value.get(key) {
        None | Some(Value::Null) => false,
        Some(_) => true,
    }
}

/// The one form among these whose field is there, if there is one.
fn sole_form(value: &Value, forms: &[Form]) -> Result<Option<Form>, FieldKind>
    ensures { result ≡ spec.sole (filter (λ form. spec.is_present (spec.key form) (view value.now)) forms.now) }
{
    let mut found = None;
    for form in forms {
        if is_present(value, form.key()) {
            if found.is_some() {
                return Err(FieldKind::OneOf);
            }
            found = Some(*form);
        }
    }
    Ok(found)
}

fn form_of(value: &Value) -> Result<Option<Form>, FieldKind>
    ensures { result ≡ spec.form_of (view value.now) }
{
    sole_form(value, &FORMS)
}

fn package_key(value: &Value) -> &'static str
    ensures { result.now ≡ spec.package_key (view value.now) }
{
    if is_present(value, "packageName") {
        return "packageName";
    }
    if is_present(value, "name") {
        return "name";
    }
    "packageName"
}

fn package_test(alloc: Global, value: &Value) -> Result<RawConstraint, Fault>
    ensures { Gives is_free (spec.package_test (view value.now)) result }
{
    let name = name_at(alloc, value, package_key(value))?;
    let range = text_at(alloc, value, "versionRange")?;
    Ok(RawConstraint::Package { name, range })
}

fn kind_test(alloc: Global, value: &Value) -> Result<RawConstraint, Fault>
    ensures { Gives is_free (spec.kind_test (view value.now)) result }
{
    let kind = gvk(alloc, value)?;
    Ok(RawConstraint::Kind(kind))
}

fn cel_test(alloc: Global, value: &Value) -> Result<RawConstraint, Fault>
    ensures { Gives is_free (spec.cel_test (view value.now)) result }
{
    let rule = text_at(alloc, value, "rule")?;
    Ok(RawConstraint::Cel { rule })
}

/// The constraint that a value is. How deep others nest in it is bounded by the value's reader alone.
pub fn constraint(alloc: Global, value: &Value) -> Result<RawConstraint, Fault>
    ensures { Gives is_free (spec.constraint (view value.now)) result }
{
    read_test(alloc, value)
}

#[cycle(constraint)]
fn read_test(alloc: Global, value: &Value) -> Result<RawConstraint, Fault>
    ensures { Gives is_free (spec.constraint_by spec.constraint (view value.now)) result }
{
    check_fields(alloc, value)?;
    let _message = opt_text_at(alloc, value, "failureMessage")?;
    match form_of(value) {
        Ok(Some(form)) => form_at(alloc, value, form),
        Ok(None) => Ok(RawConstraint::Unknown),
        Err(kind) => Err(Fault::here(alloc, kind)),
    }
}

#[cycle(constraint)]
fn form_at(alloc: Global, value: &Value, form: Form) -> Result<RawConstraint, Fault>
    ensures { Gives is_free (spec.by_form spec.constraint (view value.now) (Some form)) result }
{
    match lend_fields(value, form.key()) {
        Ok(inner) => below_key(alloc, form_test(alloc, inner, form), form.key()),
        Err(kind) => Err(Fault::here(alloc, kind).below_key(alloc, form.key())),
    }
}

#[cycle(constraint)]
fn form_test(alloc: Global, value: &Value, form: Form) -> Result<RawConstraint, Fault>
    ensures { Gives is_free (spec.form_test spec.constraint form (view value.now)) result }
{
    match form {
        Form::Package => package_test(alloc, value),
        Form::Kind => kind_test(alloc, value),
        Form::All => Ok(RawConstraint::All(nested_tests(alloc, value)?)),
        Form::Any => Ok(RawConstraint::Any(nested_tests(alloc, value)?)),
        Form::Not => Ok(RawConstraint::Not(nested_tests(alloc, value)?)),
        Form::Cel => cel_test(alloc, value),
    }
}

#[cycle(constraint)]
fn nested_tests(alloc: Global, value: &Value) -> Result<Many<RawConstraint>, Fault>
    ensures { Gives is_free (spec.nested_tests spec.constraint (view value.now)) result }
{
    match lend_list(value, "constraints") {
        Ok(items) => below_key(alloc, read_tests(alloc, items), "constraints"),
        Err(kind) => Err(Fault::here(alloc, kind).below_key(alloc, "constraints")),
    }
}

#[cycle(constraint)]
fn read_tests(alloc: Global, items: &[Value]) -> Result<Many<RawConstraint>, Fault>
    ensures { Gives is_free (each spec.constraint (map view items.now)) result }
{
    let mut found = Vec::new(alloc);
    for (index, item) in items.iter().enumerate() {
        match below_item(alloc, read_test(alloc, item), index) {
            Ok(test) => match found.push(test) {
                Ok(()) => {}
                Err(_) => return Err(Fault::here(alloc, FieldKind::Memory)),
            },
            Err(fault) => return Err(fault),
        }
    }
    Ok(Many::from_vec(found))
}
