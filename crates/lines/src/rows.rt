// Cells stored in a table.
ghost use Rattle.std.specs.Prelude.{◌≡◌, suc, ◌+◌, ◌≤◌, ◌<◌, length, get_or, set};
ghost use Rattle.std.proofs.Math.Seq.{paste};

// Stores values from a cell on.
pub fn write_cells(cells: &mut [u16], at: usize, values: &[u16])
    requires { at + length values.now ≤ length cells.old }
    ensures { cells.new ≡ paste cells.old at values.now (length values.now) }
{
    cells[at..at + values.len()].copy_from_slice(values);
}

// Stores values from a cell on, and adds one to the count that stands in another cell.
pub fn add_cells(row: &mut [u16], slot: usize, at: usize, values: &[u16])
    requires { (at + length values.now ≤ length row.old) × (slot < at) × (get_or row.old slot 0 < 65535) }
    ensures { row.new
        ≡ set (paste row.old at values.now (length values.now)) slot
        (suc (get_or row.old slot 0)) }
{
    let n = row[slot];
    write_cells(row, at, values);
    row[slot] = n + 1;
}
