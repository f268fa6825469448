use super::*;
use serde_json::Value;
use std::test::Fail;

#[test]
fn what_a_field_gives(rt: HostRuntime) -> Result<(), Fail> {
    let alloc = rt.alloc();
    let text =
        "{\"text\":\"x\",\"empty\":\"\",\"null\":null,\"path\":\"a/b\",\"list\":[1,null],\"number\":1}";
    let value = Value::from_str(alloc, text)?;
    let missing = Some(FieldKind::Missing);
    let other = Some(FieldKind::WrongType);
    let bad = Some(FieldKind::BadName);
    for (key, as_text, as_name, as_optional, as_list) in [
        ("text", None, None, None, other),
        ("empty", Some(FieldKind::Empty), bad, None, other),
        ("null", missing, missing, None, missing),
        ("absent", missing, missing, None, missing),
        ("path", None, bad, None, other),
        ("list", other, other, other, None),
        ("number", other, other, other, other),
    ] {
        assert_eq!(rt; text_field(alloc, &value, key).err(), as_text, "{key}");
        assert_eq!(rt; name_field(alloc, &value, key).err(), as_name, "{key}");
        assert_eq!(rt; opt_text(alloc, &value, key).err(), as_optional, "{key}");
        assert_eq!(rt; list_field(alloc, &value, key).err(), as_list, "{key}");
    }
    assert_eq!(rt; opt_text(alloc, &value, "empty")?, None);
    assert_eq!(rt;
        opt_text(alloc, &value, "text")?,
        Some(text_field(alloc, &value, "text")?)
    );
    assert_eq!(rt;
        name_field(alloc, &value, "text")?.as_bytes(),
        b"x".as_slice()
    );
    assert_eq!(rt; list_field(alloc, &value, "list")?.as_slice().len(), 2);
    assert_eq!(rt; text_field(alloc, &Value::Null, "text").err(), other);
    Ok(())
}

#[test]
fn how_long_a_name_from_outside_may_be(rt: HostRuntime) -> Result<(), Fail> {
    let alloc = rt.alloc();
    for (length, wanted) in [(253, None), (254, Some(FieldKind::BadName))] {
        let mut text = Vec::from_slice(alloc, b"{\"name\":\"")?;
        text.extend_from_slice(vec![in alloc; b'a'; length]?.as_slice())?;
        text.extend_from_slice(b"\"}")?;
        let value = Value::from_slice(alloc, text.as_slice())?;
        assert_eq!(rt; name_field(alloc, &value, "name").err(), wanted);
    }
    Ok(())
}
