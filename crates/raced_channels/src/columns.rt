// Rows of passes, of which the columns are wanted.
ghost use Rattle.std.specs.Prelude.{◌≡◌, ◌≤◌, IfOk, Some, drop, length, map, slice_get};
ghost use Rattle.std.specs.List.{All};
ghost use Rattle.raced_channels.specs.Columns.{AreColumns};

use ssd_geo::Memory;
use std::alloc::Global;
use turn_table::Pass;

// Passes, one from each row, and what is left of the rows.
#[derive(Drop)]
struct Cut {
    column: Vec<Pass>,
    rest: Vec<Vec<Pass>>,
}

// The first pass of each row, and the rest.
fn cut_first(alloc: Global, rows: Vec<Vec<Pass>>) -> Result<Cut, Memory>
    requires { All (λ row. 1 ≤ length row.items) rows.items }
    ensures column { IfOk result (λ cut.
        map (λ pass. Some pass) cut.column.items ≡ map (λ row. slice_get row.items 0) rows.items) }
    ensures rest { IfOk result (λ cut. map (λ row. row.items) cut.rest.items ≡ map (λ row. drop 1 row.items) rows.items) }
{
    let mut rows = rows;
    let mut column = Vec::new(alloc);
    let mut rest = Vec::new(alloc);
    for number in 0..rows.len() {
        let mut row = rows.remove(0);
        let first = row.remove(0);
        let Ok(()) = column.push(first) else {
            return Err(Memory);
        };
        let Ok(()) = rest.push(row) else {
            return Err(Memory);
        };
    }
    Ok(Cut { column, rest })
}

/// The columns of rows that have so many passes each.
pub fn columns_of(
    alloc: Global,
    rows: Vec<Vec<Pass>>,
    width: usize,
) -> Result<Vec<Vec<Pass>>, Memory>
    requires { All (λ row. length row.items ≡ width) rows.items }
    ensures { IfOk result (λ columns.
        AreColumns width (map (λ row. row.items) rows.items) (map (λ column. column.items) columns.items)) }
{
    let mut rows = rows;
    let mut columns = Vec::new(alloc);
    for number in 0..width {
        let Cut { column, rest } = cut_first(alloc, rows)?;
        rows = rest;
        let Ok(()) = columns.push(column) else {
            return Err(Memory);
        };
    }
    Ok(columns)
}
