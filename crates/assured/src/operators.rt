// What an operator makes of the traits of its parts.
ghost use Rattle.std.specs.Prelude.{◌≡◌};
ghost use Rattle.assured.specs.inner.Traits.{or_traits, and_traits, neg_traits, finally_traits, globally_traits, next_traits, until_traits, unary_traits, binary_traits};

use crate::traits;
use crate::traits::Traits;
use grammar::kinds;

// `|`
fn or(p: Traits, q: Traits) -> Traits
    ensures { result ≡ or_traits p q }
{
    traits::connect(
        p,
        q,
        p.fixed_true | q.fixed_true,
        p.fixed_false & q.fixed_false,
        false,
        p.not_after & q.bound,
    )
}

// `&`
fn and(p: Traits, q: Traits) -> Traits
    ensures { result ≡ and_traits p q }
{
    traits::connect(
        p,
        q,
        p.fixed_true & q.fixed_true,
        p.fixed_false | q.fixed_false,
        p.after & q.bound,
        false,
    )
}

// `!`
fn not(p: Traits) -> Traits
    ensures { result ≡ neg_traits p }
{
    Traits {
        temporal: p.temporal,
        marked: p.marked,
        fixed_true: p.fixed_false,
        fixed_false: p.fixed_true,
        drifts_true: p.drifts_false,
        drifts_false: p.drifts_true,
        steady: p.steady,
        even: (!p.temporal | (p.drifts_false & p.drifts_true | (p.fixed_false | p.fixed_true)))
            & p.even,
        nameless: p.nameless,
        not_slope: p.slope,
        not_after: p.after,
        firstly: p.firstly,
        ..Traits::NONE
    }
}

// F
fn finally(p: Traits) -> Traits
    ensures { result ≡ finally_traits p }
{
    let steady = p.steady & p.drifts_true | p.slope;
    traits::of_temporal(
        true,
        p.marked,
        steady,
        p.even,
        p.nameless,
        false,
        p.somewhere,
    )
}

// G
fn globally(p: Traits) -> Traits
    ensures { result ≡ globally_traits p }
{
    let steady = p.steady & p.drifts_false | p.not_slope;
    traits::of_temporal(
        true,
        p.marked,
        steady,
        p.even,
        p.nameless,
        p.atomic,
        p.throughout,
    )
}

// X
fn next(p: Traits) -> Traits
    ensures { result ≡ next_traits p }
{
    let steady = p.steady & (p.drifts_true & p.drifts_false);
    traits::of_temporal(false, p.marked, steady, p.even, p.nameless, false, false)
}

// U and W
fn until(p: Traits, q: Traits) -> Traits
    ensures { result ≡ until_traits p q }
{
    let stays = q.drifts_true & (p.fixed_true | p.drifts_false & q.drifts_false);
    traits::of_temporal(
        true,
        p.marked & q.marked,
        p.steady & q.steady & stays,
        p.even & q.even,
        p.nameless & q.nameless,
        false,
        false,
    )
}

// An operator over one text, by its kind.
pub fn unary(kind: u32, p: Traits) -> Traits
    ensures { result ≡ unary_traits kind p }
{
    if kind == kinds::NOT {
        return not(p);
    }
    if kind == kinds::NEXT {
        return next(p);
    }
    if kind == kinds::FINALLY {
        return finally(p);
    }
    globally(p)
}

// An operator over two texts, by its kind.
pub fn binary(kind: u32, p: Traits, q: Traits) -> Traits
    ensures { result ≡ binary_traits kind p q }
{
    if kind == kinds::OR {
        return or(p, q);
    }
    if kind == kinds::AND {
        return and(p, q);
    }
    until(p, q)
}
