// Tables of sets: a slot to each node.
ghost use Rattle.std.specs.Prelude.{◌≡◌, ◌<◌};
ghost use Rattle.runs.specs.Set.{member, Valid};
ghost use Rattle.grammar.specs.Size.{most_nodes};
ghost use Rattle.evaluation.specs.inner.Slots.{slot, Sized, Puts};

use runset::{RunSet, SLOT};

// The words of a table: a slot for each node that a text may have.
pub const TABLE: usize = SLOT * text::MOST_NODES;

// The set in slot m.
pub fn set_in(sets: &[u32], m: usize) -> &[u32]
    requires { Sized sets.now × (m < most_nodes) }
    ensures { result.now ≡ slot sets.now m }
{
    let from = SLOT * m;
    let end = from + SLOT;
    &sets[from..end]
}

// The same set, in slot m.
pub fn put(set: &[u32], sets: &mut [u32], m: usize)
    requires { Valid set.now × Sized sets.old × (m < most_nodes) }
    ensures { Puts (member set.now) sets.old sets.new m (Ok (tt {0})) }
{
    let from = SLOT * m;
    let end = from + SLOT;
    RunSet::copy(set, &mut sets[from..end]);
}
