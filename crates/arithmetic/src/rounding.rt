// Quotients of whole numbers, rounded up and rounded down (document 01: "rounded up", "rounded down"), and whether that was exact (document 02,
// P7: "Every rounding is to tell also whether it was exact").
//
// Rounding is stated by what it means, the least and the greatest whole number with a property, and exactness by a product, once for the whole
// project; nobody rounds, and nobody tests a remainder, elsewhere.
ghost use Rattle.std.specs.Prelude.{◌<◌};
ghost use Rattle.arithmetic.specs.rounding.Least.{RoundedDown};
ghost use Rattle.arithmetic.specs.rounding.Rounding.{Rounding, Exactly, RoundsUp};

// A rounded number, and whether nothing was rounded away. Not an Option, since `Rounding` promises the value either way.
#[derive(Clone, Copy)]
pub struct Rounded {
    pub value: u64,
    pub exact: bool,
}

// a / b rounded up.
pub fn up(a: u64, b: u64) -> Rounded
    requires { 0 < b }
    ensures { RoundsUp a b result.value result.exact }
{
    Rounded {
        value: a.div_ceil(b),
        exact: a.is_multiple_of(b),
    }
}

// a / b rounded down.
pub fn down(a: u64, b: u64) -> Rounded
    requires { 0 < b }
    ensures { Rounding (RoundedDown a b) (Exactly a b) result.value result.exact }
{
    Rounded {
        value: a / b,
        exact: a % b == 0,
    }
}
