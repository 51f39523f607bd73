// Which combinations are of service (document 01, Load sets): these have OP, OM and SL. All have PR, and on rock RK.
ghost use Rattle.arithmetic.specs.decides.Decides.{Decides};
ghost use Rattle.checks.specs.service.Service.{Service};

use sets::Combination;

// Whether a combination is one of service, I to III. (`combination != Combination::IV` left its goal open.)
pub fn serves(combination: Combination) -> bool
    ensures { Decides result (Service combination) }
{
    match combination {
        Combination::I | Combination::II | Combination::III => true,
        Combination::IV => false,
    }
}
