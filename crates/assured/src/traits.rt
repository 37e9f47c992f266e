// What is held of a node to judge a text: one bool for each notion of the definition.
ghost use Rattle.std.specs.Prelude.{◌≡◌};
ghost use Rattle.assured.specs.inner.Traits.{atom_traits, listed_traits, connected, temporal_traits, assured_by};

#[derive(Clone, Copy)]
pub struct Traits {
    pub temporal: bool,
    pub marked: bool,
    pub fixed_true: bool,
    pub fixed_false: bool,
    pub drifts_true: bool,
    pub drifts_false: bool,
    pub steady: bool,
    pub even: bool,
    pub nameless: bool,
    pub slope: bool,
    pub not_slope: bool,
    pub bound: bool,
    pub after: bool,
    pub not_after: bool,
    pub atomic: bool,
    pub somewhere: bool,
    pub throughout: bool,
    pub firstly: bool,
}

impl Traits {
    // None of them.
    pub const NONE: Self = Traits {
        temporal: false,
        marked: false,
        fixed_true: false,
        fixed_false: false,
        drifts_true: false,
        drifts_false: false,
        steady: false,
        even: false,
        nameless: false,
        slope: false,
        not_slope: false,
        bound: false,
        after: false,
        not_after: false,
        atomic: false,
        somewhere: false,
        throughout: false,
        firstly: false,
    };
}

// An atom, by its kind.
#[derive(Clone, Copy)]
pub struct Kind {
    pub pigment: bool,
    pub side: bool,
    pub up: bool,
    pub down: bool,
    pub slope: bool,
    pub bound: bool,
    pub after: bool,
    pub named: bool,
}

// The traits of an atom.
pub fn of_atom(kind: Kind) -> Traits
    ensures { result ≡ atom_traits kind }
{
    Traits {
        marked: true,
        fixed_false: kind.pigment,
        drifts_true: kind.side | (kind.pigment | kind.up),
        drifts_false: kind.side | kind.down,
        steady: true,
        even: true,
        nameless: !kind.named,
        slope: kind.slope,
        bound: kind.bound,
        after: kind.after,
        atomic: true,
        somewhere: kind.bound,
        throughout: kind.bound,
        firstly: true,
        ..Traits::NONE
    }
}

// The traits of a listed question.
pub fn of_listed(marked: bool) -> Traits
    ensures { result ≡ listed_traits marked }
{
    Traits {
        marked,
        ..Traits::NONE
    }
}

// The traits of `|` and `&`.
pub fn connect(
    p: Traits,
    q: Traits,
    on: bool,
    off: bool,
    somewhere: bool,
    throughout: bool,
) -> Traits
    ensures { result ≡ connected p q on off somewhere throughout }
{
    let temporal = p.temporal | q.temporal;
    let rising = p.drifts_true & q.drifts_true | off;
    let sinking = p.drifts_false & q.drifts_false | on;
    Traits {
        temporal,
        marked: p.marked & q.marked,
        fixed_true: on,
        fixed_false: off,
        drifts_true: rising,
        drifts_false: sinking,
        steady: p.steady & q.steady,
        even: (!temporal | (rising & sinking | (on | off))) & (p.even & q.even),
        nameless: p.nameless & q.nameless,
        somewhere,
        throughout,
        firstly: p.firstly & q.firstly,
        ..Traits::NONE
    }
}

// The traits of F, G, X, U and W.
pub fn of_temporal(
    drifts: bool,
    marked: bool,
    steady: bool,
    even: bool,
    nameless: bool,
    somewhere: bool,
    firstly: bool,
) -> Traits
    ensures { result ≡ temporal_traits drifts marked steady even nameless somewhere firstly }
{
    Traits {
        temporal: true,
        marked,
        drifts_true: drifts,
        drifts_false: drifts,
        steady,
        even,
        nameless,
        somewhere,
        firstly: firstly | steady & nameless,
        ..Traits::NONE
    }
}

// Whether a text with these traits is assured.
pub fn assured(t: Traits) -> bool
    ensures { result ≡ assured_by t }
{
    !t.temporal & t.marked | (t.steady & t.even | t.firstly)
}
