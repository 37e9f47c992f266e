// The node table: four numbers to a row.
ghost use Rattle.std.specs.Prelude.{◌≡◌, ◌+◌, ◌*◌, ◌≤◌, length};
ghost use Rattle.grammar.specs.inner.Table.{row_at, some_kind};
ghost use Rattle.grammar.specs.Classes.{within};
ghost use Rattle.grammar.specs.Syntax.{Text};
ghost use Rattle.grammar.specs.Size.{temporal, has_listed, mixed};
ghost use Rattle.parser.specs.inner.Rows.{Laid};

use grammar::kinds;

// The kind of node n.
pub fn kind(table: &[u32], n: usize) -> u32
    requires { 4 * n + 4 ≤ length table.now }
    ensures { result ≡ (row_at table.now n).kind }
{
    table[4 * n]
}

// Whether k lies between low and high, both included.
pub fn between(k: u32, low: u32, high: u32) -> bool
    ensures { result ≡ within low high k }
{
    low <= k && k <= high
}

// Whether one of the first n kinds lies between low and high.
fn some_kind(table: &[u32], n: usize, low: u32, high: u32) -> bool
    requires { 4 * n ≤ length table.now }
    ensures { result ≡ some_kind (within low high) table.now 0 n }
{
    for i in 0..n {
        if between(kind(table, i), low, high) {
            return true;
        }
    }
    false
}

// Whether the text writes a listed name.
pub fn has_listed(table: &[u32], n: usize) -> bool
    requires { 4 * n ≤ length table.now }
    ensures { (t : Text) → Laid table.now 0 n t → result ≡ has_listed t }
{
    some_kind(table, n, kinds::HIGH, kinds::LAG)
}

// Whether the text writes F, G, X, U or W.
pub fn is_temporal(table: &[u32], n: usize) -> bool
    requires { 4 * n ≤ length table.now }
    ensures { (t : Text) → Laid table.now 0 n t → result ≡ temporal t }
{
    some_kind(table, n, kinds::NEXT, kinds::GLOBALLY)
        || some_kind(table, n, kinds::UNTIL, kinds::WEAK_UNTIL)
}

// Whether the text writes a listed name beside F, G, X, U or W.
pub fn is_mixed(table: &[u32], n: usize) -> bool
    requires { 4 * n ≤ length table.now }
    ensures { (t : Text) → Laid table.now 0 n t → result ≡ mixed t }
{
    has_listed(table, n) && is_temporal(table, n)
}
