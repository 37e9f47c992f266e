// The kinds of nodes, in the order of the specification's table.

// A field and v, a field and a number, and A and B.
pub const COMPARE_V: u32 = 0;

pub const COMPARE: u32 = 1;

pub const A_TO_B: u32 = 2;

pub const FALL: u32 = 3;

pub const RISE: u32 = 4;

pub const PIGMENT: u32 = 5;

// The listed questions.
pub const HIGH: u32 = 6;

pub const LOW: u32 = 7;

pub const LOWAFTER: u32 = 8;

pub const CAPAFTER: u32 = 9;

pub const PEAKS: u32 = 10;

pub const DIPS: u32 = 11;

pub const CROSS: u32 = 12;

pub const CROSSUP: u32 = 13;

pub const DOSE: u32 = 14;

pub const AMPL: u32 = 15;

pub const GAPS: u32 = 16;

pub const STEPS: u32 = 17;

pub const LAG: u32 = 18;

// Operators over one text: `!`, X, F and G.
pub const NOT: u32 = 19;

pub const NEXT: u32 = 20;

pub const FINALLY: u32 = 21;

pub const GLOBALLY: u32 = 22;

// Operators over two texts: `|`, `&`, U and W.
pub const OR: u32 = 23;

pub const AND: u32 = 24;

pub const UNTIL: u32 = 25;

pub const WEAK_UNTIL: u32 = 26;

// A bracket, which is no node.
pub const BRACKET: u32 = 27;
