// The rows of a node table.
ghost use Rattle.std.specs.Prelude.{◌≡◌, ◌+◌, ◌*◌, ◌≤◌, length};
ghost use Rattle.grammar.specs.inner.Table.{row_at};
ghost use Rattle.parser.specs.inner.Rows.{Same};

use grammar::Row;

// The words of the rows that a text may have.
pub const ROWS: usize = 4 * text::MOST_NODES;

// Row n.
pub fn row_at(table: &[u32], n: usize) -> Row
    requires { 4 * n + 4 ≤ length table.now }
    ensures { result ≡ row_at table.now n }
{
    Row {
        kind: table[4 * n],
        first: table[4 * n + 1],
        second: table[4 * n + 2],
        number: table[4 * n + 3],
    }
}

// The first `count` rows of a table, put to the front of another.
pub fn copy(table: &[u32], count: usize, rows: &mut [u32])
    requires { (4 * count ≤ length table.now) × (4 * count ≤ length rows.old) }
    ensures { Same count table.now rows.new }
{
    let words = 4 * count;
    // `copy_from_slice` calls memmove; the archive needs memcpy and memset alone.
    for i in 0..words {
        rows[i] = table[i];
    }
}
