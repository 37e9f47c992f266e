// Rows of the node table: four numbers to a row.
ghost use Rattle.std.specs.Prelude.{◌+◌, ◌-◌, ◌*◌, ◌≤◌, ◌<◌, length};
ghost use Rattle.grammar.specs.inner.Table.{row};
ghost use Rattle.grammar.specs.Size.{most_bytes};
ghost use Rattle.parser.specs.inner.Rows.{Put};

use grammar::Row;

// Writes row n.
pub fn put(table: &mut [u32], n: usize, r: Row)
    requires { 4 * n + 4 ≤ length table.old }
    ensures { Put table.old n r table.new }
{
    let at = 4 * n;
    table[at] = r.kind;
    table[at + 1] = r.first;
    table[at + 2] = r.second;
    table[at + 3] = r.number;
}

// Writes row n, an operator over the text whose root is the row before.
pub fn put_unary(table: &mut [u32], n: usize, kind: u32)
    requires { (0 < n) × (n ≤ most_bytes) × (4 * n + 4 ≤ length table.old) }
    ensures { Put table.old n (row kind (n - 1) 0 0) table.new }
{
    let child = (n - 1) as u32;
    put(table, n, Row::new(kind, child, 0, 0))
}

// Writes row n, an operator over two texts: that whose root is the row before m, and that whose root is the row before n.
pub fn put_binary(table: &mut [u32], m: usize, n: usize, kind: u32)
    requires { (0 < m) × (m ≤ n) × (n ≤ most_bytes) × (4 * n + 4 ≤ length table.old) }
    ensures { Put table.old n (row kind (m - 1) (n - 1) 0) table.new }
{
    let left = (m - 1) as u32;
    let right = (n - 1) as u32;
    put(table, n, Row::new(kind, left, right, 0))
}
