//! What no contract says: that fields are read where there is memory, and that a refusal can be shown.

use sdb_base::{Params, Text};
use sdb_tables::{FieldKind, ParamRow, Refusal, fault_table, read_rules};
use std::test::Fail;

const ROWS: [ParamRow; 2] = [
    ParamRow {
        name: "ConsistentRead",
        kind: FieldKind::Flag,
        needed: false,
    },
    ParamRow {
        name: "DomainName",
        kind: FieldKind::Domain,
        needed: true,
    },
];

#[test]
fn fields_are_read(rt: HostRuntime) -> Result<(), Fail> {
    let alloc = rt.alloc();
    let mut params = Params::new(alloc);
    params.add(
        Text::from_str(alloc, "DomainName")?,
        Text::from_str(alloc, "books")?,
    )?;
    let fields = read_rules::<2>(alloc, &ROWS, &params)?;
    assert_eq!(rt; fields.at(0).map(|text| text.as_str()), None);
    assert_eq!(rt; fields.at(1).map(|text| text.as_str()), Some("books"));
    Ok(())
}

#[test]
fn a_refusal_is_shown_by_its_message(rt: HostRuntime) -> Result<(), Fail> {
    let shown = format!(in rt.alloc(); "{}", Refusal::NumberDomainsExceeded(251))?;
    assert_eq!(rt; shown.as_str(), "The account has too many domains.");
    assert_eq!(rt; fault_table()[0].code, "InvalidHttpRequest");
    Ok(())
}
