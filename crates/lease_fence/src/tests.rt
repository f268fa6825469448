ghost use Rattle.std.specs.Prelude.{◌≤◌, ◌^◌};

use super::*;
use cluster_objects::Writer;
use object_store::SureCluster;
use olm_base::Name;
use std::alloc::Global;
use std::test::Fail;

// Requests the lease of the installers of `default`, for 10 seconds.
fn ask(
    alloc: Global,
    store: &mut SureCluster,
    holder: u32,
    term: Term,
    now: u64,
) -> Result<Granted, Fail>
    requires { now ≤ 2 ^ 62 }
{
    let home = Name::new(alloc, b"default")?;
    let role = Writer::Installer;
    Ok(grant(alloc, store, &home, role, holder, term, now, 10))
}

#[test]
fn two_workers(rt: HostRuntime) -> Result<(), Fail> {
    let alloc = rt.alloc();
    let home = Name::new(alloc, b"default")?;
    let mut store = SureCluster::new(alloc, 2);
    let first = ask(alloc, &mut store, 0, Term::Free, 100)?;
    assert_eq!(rt;
        first,
        Granted::Done {
            term: 1,
            until: 110,
            version: 1
        }
    );
    let other = ask(alloc, &mut store, 1, Term::Free, 105)?;
    assert_eq!(rt; other, Granted::Held { until: 110 });
    let next = ask(alloc, &mut store, 1, Term::Lost, 200)?;
    assert_eq!(rt;
        next,
        Granted::Done {
            term: 2,
            until: 210,
            version: 2
        }
    );
    assert_eq!(rt; term_of(alloc, &mut store, &home, Writer::Installer), Ok(2));
    assert_eq!(rt;
        ask(alloc, &mut store, 1, Term::Held(2), 205)?,
        Granted::Full
    );
    Ok(())
}
