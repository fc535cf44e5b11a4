// The items that hold the condition of a Select.
ghost use Rattle.std.specs.Prelude.{◌≡◌, filter, map, IfOk};
ghost use Rattle.sdb_domain.specs.Rows.{seen_row};
ghost use Rattle.sdb_page.specs.Selects.{passes as held};

use sdb_base::OutOfMemory;
use sdb_domain::Row;
use sdb_parse::Expr;
use sdb_pred::holds;
use std::alloc::Global;

// The items that hold the condition, in their order; all where there is none.
pub(crate) fn passing<'a>(
    alloc: Global,
    cond: &Option<Expr>,
    rows: &[Row<'a>],
) -> Result<Vec<Row<'a>>, OutOfMemory>
    ensures { IfOk result (λ passing. map seen_row passing.items ≡ filter (held cond.now) (map seen_row rows.now)) }
{
    let mut passing = Vec::new(alloc);
    for row in rows {
        if passes(cond, *row) {
            passing.push(*row)?;
        }
    }
    Ok(passing)
}

// Whether an item holds the condition, where there is one.
fn passes(cond: &Option<Expr>, row: Row<'_>) -> bool
    ensures { result ≡ held cond.now (seen_row row.entry) }
{
    match cond {
        None => true,
        Some(cond) => holds(cond, row.name, row.item),
    }
}
