use super::*;
use std::collections::BTreeMap;
use std::test::Fail;

#[derive(Debug, Drop, PartialEq)]
enum Tree {
    Leaf(Name),
    Branch(Many<Tree>),
}

#[test]
fn names_are_ordered_by_bytes(rt: HostRuntime) -> Result<(), Fail> {
    let alloc = rt.alloc();
    let mut map = BTreeMap::new(alloc);
    map.insert(Name::new(alloc, b"b")?, 1)?;
    map.insert(Name::new(alloc, b"a.v1")?, 2)?;
    map.insert(Name::new(alloc, b"a.v1")?.clone()?, 3)?;
    let first = map.keys().next().ok_or("none")?;
    assert_eq!(rt; first.as_bytes(), b"a.v1".as_slice());
    assert_eq!(rt; map.len(), 2);
    Ok(())
}

#[test]
fn what_is_a_name(rt: HostRuntime) -> Result<(), Fail> {
    let alloc = rt.alloc();
    let long = vec![in alloc; b'a'; 1101]?;
    for bad in [
        b"".as_slice(),
        b"a/b",
        b"a b",
        b"\"",
        b"\\",
        b"\x7f",
        b"a\n",
        b"\xc3\xa9",
        long.as_slice(),
    ] {
        assert_eq!(rt; Name::new(alloc, bad).err(), Some(NameFault::Bad));
    }
    for good in [b"a".as_slice(), b"!", b"~", &long[..1100]] {
        assert_eq!(rt; Name::new(alloc, good)?.as_bytes(), good);
    }
    assert!(rt;
        is_outside_name(&long[..253]) && !is_outside_name(&long[..254]) && !is_outside_name(b"")
    );
    assert!(rt;
        is_group(b"") && is_group(&long[..253]) && !is_group(&long[..254]) && !is_group(b"a/b")
    );
    Ok(())
}

#[test]
fn lists_hold_themselves(rt: HostRuntime) -> Result<(), Fail> {
    let alloc = rt.alloc();
    let mut leaves = Many::new(alloc);
    leaves.push(Tree::Leaf(Name::new(alloc, b"a")?))?;
    let tree = Tree::Branch(leaves);
    assert!(rt;
        tree == Tree::Branch(Many::from_vec(vec![in alloc; Tree::Leaf(Name::new(alloc, b"a")?)]?))
    );
    let numbers = Many::from_vec(vec![in alloc; 1u32, 2]?);
    assert_eq!(rt; numbers.clone()?.into_vec().len(), numbers.as_slice().len());
    Ok(())
}

#[test]
fn texts_and_kinds(rt: HostRuntime) -> Result<(), Fail> {
    let alloc = rt.alloc();
    let group = Text::from_string(String::from_str(alloc, "g.io")?);
    let kind = Gvk {
        group: group.clone()?,
        version: Name::new(alloc, b"v1")?,
        kind: Name::new(alloc, b"K")?,
    };
    let other = Gvk {
        group: Text::from_str(alloc, "")?,
        version: Name::new(alloc, b"v1")?,
        kind: Name::new(alloc, b"K")?,
    };
    assert!(rt; other < kind && kind == kind.clone()?);
    assert_eq!(rt; group.as_slice(), b"g.io".as_slice());
    assert_eq!(rt; group.as_str(), "g.io");
    let bytes = Bytes::from_vec(Vec::from_slice(alloc, b"{}")?);
    assert!(rt; bytes == bytes.clone()? && bytes.as_slice() == b"{}".as_slice());
    assert_eq!(rt; bytes.into_vec().len(), 2);
    Ok(())
}
