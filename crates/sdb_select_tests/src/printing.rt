// Tests of the printed form.
use sdb_base::Text;
use sdb_parse::{parse, print};
use std::alloc::Global;
use std::test::Fail;

fn printed(alloc: Global, text: &str) -> Result<Text, Fail> {
    let select = parse(alloc, &Text::from_str(alloc, text)?)?;
    Ok(print(alloc, &select)?)
}

#[test]
fn trees_are_printed_and_read_again(rt: HostRuntime) -> Result<(), Fail> {
    let alloc = rt.alloc();
    for (text, wanted) in [
        (
            "SELECT * FROM dom WHERE (k='1') ORDER BY k ASC",
            "select * from `dom` where `k` = '1' order by `k`",
        ),
        ("Select `a``b` From d", "select `a``b` from `d`"),
        (
            "select itemName ( ) from d where every(k) in ('a', \"b'\") limit 1",
            "select itemName() from `d` where every(`k`) in ( 'a' , 'b''' ) limit 1",
        ),
        (
            "select count(*) from d where (a!='1' or b<'2') and c<='3' intersection (d>'4' and e>='5') order by itemName() desc limit 2500",
            "select count(*) from `d` where ( `a` != '1' or `b` < '2' ) and `c` <= '3' intersection ( `d` > '4' and `e` >= '5' ) order by itemName() desc limit 2500",
        ),
        (
            "select a, b from d where (not (not (k like 'a%'))) and (itemName() between '' and 'z' and k is null)",
            "select `a` , `b` from `d` where not not `k` like 'a%' and ( itemName() between '' and 'z' and `k` is null )",
        ),
        (
            "select a from d where not (k not like 'a' or k is not null) or (k = 'x' or k = 'y') order by k desc",
            "select `a` from `d` where not ( `k` not like 'a' or `k` is not null ) or ( `k` = 'x' or `k` = 'y' ) order by `k` desc",
        ),
    ] {
        let line = printed(alloc, text)?;
        assert_eq!(rt; line.as_str(), wanted);
        assert_eq!(rt; printed(alloc, wanted)?.as_str(), wanted);
    }
    Ok(())
}
