// Which rules a catalog breaks.
ghost use Rattle.std.specs.Prelude.{◌≡◌, ◌++◌, OnOk, IfOk};
ghost use Rattle.catalog_lines.specs.Lines as spec;

use fbc_types::CheckFault;
use olm_base::{Bytes, Memory, Name};
use std::alloc::Global;

/// Writes a part of what a fault names, behind a slash.
fn put_part(out: &mut Vec<u8>, part: &Option<Name>) -> Result<(), Memory>
    ensures { OnOk result (out.new.items ≡ out.old.items ++ spec.part part.now) }
{
    if let Some(name) = part {
        out.push(b'/')?;
        out.extend_from_slice(name.as_bytes())?;
    }
    Ok(())
}

/// A broken rule: `V12 argo/stable/argo.v1.0.0`, for instance.
pub fn put_rule(out: &mut Vec<u8>, alloc: Global, fault: &CheckFault) -> Result<(), Memory>
    ensures { OnOk result (out.new.items ≡ out.old.items ++ spec.rule_words fault.now) }
{
    let rule = fault.rule.to_string(alloc)?;
    out.push(b'V')?;
    out.extend_from_slice(rule.as_bytes())?;
    out.push(b' ')?;
    out.extend_from_slice(fault.package.as_bytes())?;
    put_part(out, &fault.channel)?;
    put_part(out, &fault.item)?;
    Ok(())
}

fn put_fault(out: &mut Vec<u8>, alloc: Global, fault: &CheckFault) -> Result<(), Memory>
    ensures { OnOk result (out.new.items ≡ out.old.items ++ spec.fault_line fault.now) }
{
    put_rule(out, alloc, fault)?;
    out.push(b'\n')?;
    Ok(())
}

/// A line for each broken rule, in the order of the list.
pub fn fault_lines(alloc: Global, faults: &[CheckFault]) -> Result<Bytes, Memory>
    ensures { IfOk result (λ lines. lines ≡ spec.fault_lines faults.now) }
{
    let mut out = Vec::new(alloc);
    'faults: for fault in faults {
        put_fault(&mut out, alloc, fault)?;
    }
    Ok(Bytes::from_vec(out))
}
