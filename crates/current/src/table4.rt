// Document 002's Table 4 (clause 5.9.2.2; document 02, P1): the constant K of a shaft, for a shape.
//
// The table is an array by shape; one computed equation says that it is the definition's.
ghost use Rattle.std.specs.Prelude.{◌≡◌, ◌≤◌};
ghost use Rattle.current.specs.table4.Table4.{table4_constant};

// Table 4, by its serial numbers 1 to 6.
const TABLE4: [u64; 6] = [79, 35, 37, 47, 24, 26];

// What Table 4 holds for a shape.
pub(crate) fn constant_of(shape: u64) -> u64
    requires { (1 ≤ shape) × (shape ≤ 6) }
    ensures { result ≡ table4_constant shape }
{
    TABLE4[(shape - 1) as usize]
}
