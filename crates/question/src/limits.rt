// Refusal 9: differences between too many tops.
ghost use Rattle.std.specs.Prelude.{◌≡◌, ◌*◌, ◌≤◌, ◌<◌, length};
ghost use Rattle.recording.specs.Recording.{Accepted};
ghost use Rattle.recording.specs.Reading.{curve_of};
ghost use Rattle.grammar.specs.inner.Table as nodes;
ghost use Rattle.meaning.specs.inner.Coded.{coded};
ghost use Rattle.meaning.specs.inner.Truth.{many_tops, asks_too_many, of_listed, refused9};
ghost use Rattle.leaves.specs.inner.Leaf.{leaf_of};

use grammar::{Row, kinds};

// Whether the curve has too many tops for differences.
fn many_tops(rec: &[u8], curve: usize) -> bool
    requires { Accepted rec.now × (curve < 2) }
    ensures { result ≡ many_tops (curve_of curve) (coded rec.now) }
{
    tops::MOST_TOPS < tops::top_count(rec, rec.len() / 16, curve)
}

// Whether a leaf takes differences between too many tops.
fn leaf_asks(rec: &[u8], row: Row) -> bool
    requires { Accepted rec.now × (row.kind < nodes.unary_from) }
    ensures { result ≡ of_listed (asks_too_many (coded rec.now)) (leaf_of row) }
{
    let kind = row.kind;
    if kind < kinds::GAPS {
        return false;
    }
    if kind == kinds::LAG {
        if many_tops(rec, 0) {
            return true;
        }
        return many_tops(rec, 1);
    }
    many_tops(rec, recording::curve(row.first))
}

// Whether node n of a text, or one under it, takes differences between too many tops.
pub fn asks(table: &[u32], count: usize, rec: &[u8], n: usize) -> bool
    requires { Accepted rec.now × nodes.Falling table.now count × (4 * count ≤ length table.now) × (n < count) }
    ensures { result ≡ refused9 (coded rec.now) (nodes.tree_at table.now n) }
{
    let row = evaluation::rows::row_at(table, n);
    let kind = row.kind;
    if kind < kinds::NOT {
        return leaf_asks(rec, row);
    }
    if asks(table, count, rec, row.first as usize) {
        return true;
    }
    if kind < kinds::OR {
        return false;
    }
    asks(table, count, rec, row.second as usize)
}
