// The reader: functions for or, and, not and primary call each other, and the bytes left to read fall.
// Each writes the nodes of what it reads behind the n rows that stand in the table.
// `|` and `&` have a pair of functions each. One pair for both is no plainer: it needs a type of the two joiners, with a function for
// the byte, one for the kind and one for what each joins.
#![tactic(auto)]

ghost use Rattle.std.specs.Prelude.{◌+◌, ◌≤◌, ◌<◌};
ghost use Rattle.grammar.specs.inner.Table.{unary_from, binary_from, kinds};
ghost use Rattle.grammar.specs.inner.Parse.{bars, ampersands, chain, not_at, prim_at, argument};
ghost use Rattle.parser.specs.inner.Rows.{Room, Parses, AnswersMore, AnswersOpened};

mod table;

use grammar::{Leaf, kinds};

// What was read: where reading stopped, and how many nodes stand in the table.
#[derive(Clone, Copy)]
pub struct Got {
    pub end: usize,
    pub nodes: usize,
}

// Texts joined by `|`.
#[cycle(reader)]
pub fn or_text(text: &[u8], table: &mut [u32], at: usize, n: usize) -> Option<Got>
    requires { Room text.now table.old at n }
    ensures { Parses text.now (chain bars at) at n table.old table.new result }
{
    let Got { end, nodes } = and_text(text, table, at, n)?;
    or_more(text, table, end, nodes)
}

// The rest of texts joined by `|`: those read so far are the tree of the row before n.
#[cycle(reader)]
fn or_more(text: &[u8], table: &mut [u32], at: usize, n: usize) -> Option<Got>
    requires { Room text.now table.old at n × (0 < n) }
    ensures { AnswersMore text.now bars at n table.old table.new result }
{
    if words::peek(text, at) != b'|' {
        return Some(Got { end: at, nodes: n });
    }
    let Got { end, nodes } = and_text(text, table, at + 1, n)?;
    table::put_binary(table, n, nodes, kinds::OR);
    or_more(text, table, end, nodes + 1)
}

// Texts joined by `&`.
#[cycle(reader)]
fn and_text(text: &[u8], table: &mut [u32], at: usize, n: usize) -> Option<Got>
    requires { Room text.now table.old at n }
    ensures { Parses text.now (chain ampersands at) at n table.old table.new result }
{
    let Got { end, nodes } = not_text(text, table, at, n)?;
    and_more(text, table, end, nodes)
}

// The rest of texts joined by `&`.
#[cycle(reader)]
fn and_more(text: &[u8], table: &mut [u32], at: usize, n: usize) -> Option<Got>
    requires { Room text.now table.old at n × (0 < n) }
    ensures { AnswersMore text.now ampersands at n table.old table.new result }
{
    if words::peek(text, at) != b'&' {
        return Some(Got { end: at, nodes: n });
    }
    let Got { end, nodes } = not_text(text, table, at + 1, n)?;
    table::put_binary(table, n, nodes, kinds::AND);
    and_more(text, table, end, nodes + 1)
}

// A text under `!`, which may be repeated.
#[cycle(reader)]
fn not_text(text: &[u8], table: &mut [u32], at: usize, n: usize) -> Option<Got>
    requires { Room text.now table.old at n }
    ensures { Parses text.now (not_at at) at n table.old table.new result }
{
    if words::peek(text, at) != b'!' {
        return primary(text, table, at, n);
    }
    let Got { end, nodes } = not_text(text, table, at + 1, n)?;
    table::put_unary(table, nodes, kinds::NOT);
    Some(Got {
        end,
        nodes: nodes + 1,
    })
}

// A leaf, or an opening and what it holds.
#[cycle(reader)]
fn primary(text: &[u8], table: &mut [u32], at: usize, n: usize) -> Option<Got>
    requires { Room text.now table.old at n }
    ensures { Parses text.now (prim_at at) at n table.old table.new result }
{
    match lexer::leaf(text, at)? {
        Leaf::Node(row, end) => {
            table::put(table, n, row);
            Some(Got { end, nodes: n + 1 })
        }
        Leaf::Open(kind, end) => {
            if kind == kinds::BRACKET {
                argument(text, table, end, n, b')')
            } else if kind < kinds::OR {
                unary(text, table, end, n, kind)
            } else {
                binary(text, table, end, n, kind)
            }
        }
    }
}

// Behind `X(`, `F(` or `G(`: a text and a bracket.
#[cycle(reader)]
fn unary(text: &[u8], table: &mut [u32], at: usize, n: usize, kind: u32) -> Option<Got>
    requires { Room text.now table.old at n × (n < at) × (unary_from ≤ kind) × (kind < binary_from) }
    ensures { AnswersOpened text.now kind at n table.old table.new result }
{
    let Got { end, nodes } = argument(text, table, at, n, b')')?;
    table::put_unary(table, nodes, kind);
    Some(Got {
        end,
        nodes: nodes + 1,
    })
}

// Behind `U(` or `W(`: a text, a comma, a text and a bracket.
#[cycle(reader)]
fn binary(text: &[u8], table: &mut [u32], at: usize, n: usize, kind: u32) -> Option<Got>
    requires { Room text.now table.old at n × (n < at) × (binary_from ≤ kind) × (kind < kinds) }
    ensures { AnswersOpened text.now kind at n table.old table.new result }
{
    let left = argument(text, table, at, n, b',')?;
    let right = argument(text, table, left.end, left.nodes, b')')?;
    table::put_binary(table, left.nodes, right.nodes, kind);
    Some(Got {
        end: right.end,
        nodes: right.nodes + 1,
    })
}

// A whole text, and the byte behind it.
#[cycle(reader)]
fn argument(text: &[u8], table: &mut [u32], at: usize, n: usize, close: u8) -> Option<Got>
    requires { Room text.now table.old at n × (0 < close) }
    ensures { Parses text.now (argument close at) at n table.old table.new result }
{
    let Got { end, nodes } = or_text(text, table, at, n)?;
    if words::peek(text, end) != close {
        return None;
    }
    Some(Got {
        end: end + 1,
        nodes,
    })
}
