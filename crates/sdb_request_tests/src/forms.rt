// Forms and the parameters that they give.
use sdb_form::{FormFault, read};
use std::process::Abort;
use std::test::Fail;

fn reads_as(
    rt: &(impl Abort + AllocGlobal),
    form: &[u8],
    wanted: &[(&str, &str)],
) -> Result<(), Fail> {
    let params = read(rt.alloc(), form)?;
    assert_eq!(rt; params.len(), wanted.len(), "{form:?}");
    for (place, (name, value)) in wanted.iter().enumerate() {
        assert!(rt; place < params.len());
        let found = params.at(place);
        assert_eq!(rt; found.0.as_str(), *name);
        assert_eq!(rt; found.1.as_str(), *value);
    }
    Ok(())
}

#[test]
fn forms_give_their_parameters(rt: HostRuntime) -> Result<(), Fail> {
    reads_as(&rt, b"v=a+b%20c~*%2A&w=", &[("v", "a b c~**"), ("w", "")])?;
    reads_as(&rt, b"", &[])?;
    reads_as(&rt, b"&&&", &[])?;
    reads_as(&rt, b"%", &[("%", "")])?;
    reads_as(&rt, b"%g1&%2", &[("%g1", ""), ("%2", "")])?;
    reads_as(&rt, b"=x", &[("", "x")])?;
    reads_as(&rt, b"a", &[("a", "")])?;
    reads_as(&rt, b"a==b", &[("a", "=b")])?;
    reads_as(
        &rt,
        b"a=%252B%2B&%C3%A9=+",
        &[("a", "%2B+"), ("\u{e9}", " ")],
    )
}

#[test]
fn wrong_forms_name_the_piece(rt: HostRuntime) {
    for (form, fault) in [
        (b"a=%FF".as_slice(), FormFault::NotUtf8(0)),
        (b"&&a&%c3".as_slice(), FormFault::NotUtf8(1)),
        (b"a=1&&a=2".as_slice(), FormFault::Repeated(1)),
        (b"a&b&%61&b".as_slice(), FormFault::Repeated(2)),
        (b"a=1&a=2&b=%80".as_slice(), FormFault::NotUtf8(2)),
    ] {
        match read(rt.alloc(), form) {
            Ok(_) => assert!(rt; false, "{form:?}"),
            Err(found) => assert_eq!(rt; found, fault),
        }
    }
}
