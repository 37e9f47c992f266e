// Targets: whole numbers that may lie off the axis.
#![tactic(auto)]

ghost use Rattle.targets.specs.Target.{Placed};

use number::ORIGIN;

// The ends of the axis.
const LOWEST: i64 = -(ORIGIN as i64);

const HIGHEST: i64 = ORIGIN as i64;

// The index of a whole number on the axis; none where it is off it.
pub fn on_axis(target: i64) -> Option<u32>
    ensures { Placed target result }
{
    if target < LOWEST {
        return None;
    }
    if HIGHEST < target {
        return None;
    }
    Some((target - LOWEST) as u32)
}
