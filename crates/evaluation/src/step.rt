// The set of a node at one record, from the sets of its children there and the sets of the next record.
ghost use Rattle.std.specs.Prelude.{◌≡◌, Bool, false, ℕ, ◌≤◌, ◌<◌, length};
ghost use Rattle.runs.specs.Set.{slot_words, shared_words, member, Valid, Makes};
ghost use Rattle.grammar.specs.inner.Kinds.{NOT, NEXT, AND};
ghost use Rattle.grammar.specs.inner.Table.{unary_from, binary_from, kinds};
ghost use Rattle.evaluation.specs.inner.Step.{unary_of, binary_of};

use grammar::kinds;
use runs::TooManyRuns;
use runset::RunSet;

// A node with one child, `!`, F or G. p is the child's set, own the node's at the next record.
pub fn one(
    kind: u32,
    last: bool,
    p: &[u32],
    own: &[u32],
    out: &mut [u32],
) -> Result<(), TooManyRuns>
    requires { (unary_from ≤ kind) × (kind < binary_from) × (kind ≡ NEXT → ⊥) × Valid p.now × (last ≡ false → NOT < kind → Valid own.now) × (length out.old ≡ slot_words) }
    ensures { (old : ℕ → Bool) → Makes (λ v. unary_of kind last (member p.now v) (member own.now v) (old v)) out.new result }
{
    if kind == kinds::NOT {
        return RunSet::not(p, out);
    }
    if last {
        RunSet::copy(p, out);
        return Ok(());
    }
    if kind == kinds::FINALLY {
        return RunSet::or(p, own, out);
    }
    RunSet::and(p, own, out)
}

// A node with two children: `|`, `&`, U, W. p and q are the children's sets, own the node's at the next record.
pub fn two(
    kind: u32,
    last: bool,
    p: &[u32],
    q: &[u32],
    own: &[u32],
    shared: &mut [u32],
    out: &mut [u32],
) -> Result<(), TooManyRuns>
    requires { (binary_from ≤ kind) × (kind < kinds) × Valid p.now × Valid q.now × (last ≡ false → AND < kind → Valid own.now) × (length shared.old ≡ shared_words) × (length out.old ≡ slot_words) }
    ensures { Makes (λ v. binary_of kind last (member p.now v) (member q.now v) (member own.now v)) out.new result }
{
    if kind == kinds::OR {
        return RunSet::or(p, q, out);
    }
    if kind == kinds::AND {
        return RunSet::and(p, q, out);
    }
    if last {
        if kind == kinds::UNTIL {
            RunSet::copy(q, out);
            return Ok(());
        }
        return RunSet::or(p, q, out);
    }
    RunSet::or_and(q, p, own, shared, out)
}
