// Bounds and probes over three items, worked by hand from the table of docs/SELECT.md.
ghost use Rattle.std.specs.Prelude.{◌≡◌, true};
ghost use Rattle.std.specs.List.{list_all};
ghost use Rattle.sdb_select_tests.specs.Worked.{attribute_rows, has, member_rows, other_rows};

// The rows are told by this contract; there is nothing to do.
fn rows_are_those_of_the_table()
    ensures attributes { list_all has attribute_rows ≡ true }
    ensures others { list_all has other_rows ≡ true }
    ensures members { list_all has member_rows ≡ true }
{}

#[test]
fn bounds_and_probes_are_those_of_the_table(_rt: HostRuntime) {
    rows_are_those_of_the_table();
}
