// Whether a figure passes its limit: Y or N (document 01, Load sets). OP, OM and SL are to reach it, PR and RK not to pass it.
ghost use Rattle.arithmetic.specs.decides.Decides.{Decides};
ghost use Rattle.checks.specs.Order.{side};
ghost use Rattle.checks.specs.passing.Passing.{Passes};

use crate::{Check, Figure};

// Whether a line says Y: its number is at or above the limit for OP, OM, SL, or at or below it for PR, RK.
pub fn passes(check: Check, limit: u64, figure: Figure) -> bool
    ensures { Decides result (Passes (side check) limit figure) }
{
    match figure {
        Figure::Nothing => true,
        Figure::Number(v) => match check {
            Check::OP | Check::OM | Check::SL => limit <= v,
            Check::PR | Check::RK => v <= limit,
        },
        Figure::Off => false,
    }
}
