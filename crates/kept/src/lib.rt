// The kept readings: the rule and its laws, all in specs/.
#![tactic(auto)]

// The number of the rule, which a stored report or run names.
pub const RULE: u32 = 4;
