// The checks of a base, the figures that they print, and which of two figures is the worse (document 01, Load sets).
//
// What is hard is that the search compares figures as numbers: a figure's rank is one number of 64 bits whose order is that of the
// figures, the worst first, with "none" at one end and "off" at the other, and the figure is read back from it.
#![tactic(auto)]

pub mod limits;
pub mod passing;
pub mod ranks;
pub mod service;
pub mod set_figures;

ghost use Rattle.std.specs.Prelude.{◌≡◌};
ghost use Rattle.checks.specs.Order.{side};
ghost use Rattle.checks.specs.steps.Ranks.{HasRank, rank};

// The base: its width along the axis and its length in mm, the allowable pressure in kN/m², the friction in thousandths, and whether it
// stands on rock.
#[derive(Clone, Copy)]
pub struct Base {
    pub width: u64,
    pub length: u64,
    pub allowable: u64,
    pub friction: u64,
    pub rock: bool,
}

// Overturning about the edge at +x and at -x, sliding, the greatest pressure, and on rock how far the load stands from the middle.
#[derive(Clone, Copy)]
pub enum Check {
    OP,
    OM,
    SL,
    PR,
    RK,
}

// A printed figure: "none", a number, "off".
#[derive(Clone, Copy)]
pub enum Figure {
    Nothing,
    Number(u64),
    Off,
}

// The rank of "none", past every number's. Ranks are plain numbers, as `rank` defines them: the bounds of a search multiply them out, where an enum would be opened.
// The number of PR or RK is what its rank leaves of this.
pub const TOP: u64 = 18446744073709551615;

// The figure of a rank: for OP, OM and SL a number is its own rank; for PR and RK the rank falls as the number grows, down to "off".
pub fn figure_at(check: Check, r: u64) -> Figure
    ensures { HasRank (side check) result × (rank (side check) result ≡ r) }
{
    match check {
        Check::OP | Check::OM | Check::SL => if r == TOP {
            Figure::Nothing
        } else {
            Figure::Number(r)
        },
        Check::PR | Check::RK => if r == 0 {
            Figure::Off
        } else {
            Figure::Number(TOP - r)
        },
    }
}
