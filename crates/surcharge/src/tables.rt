// Document 002's Table 3 (clause 5.8.1) and the coefficients of its clause 5.8.5 (document 02, P5).
//
// Each is an array; one computed equation says that it is the definition's.
ghost use Rattle.std.specs.Prelude.{◌≡◌, ◌≤◌};
ghost use Rattle.surcharge.specs.tables.Tables.{table3_surcharge, table3_width, active};

// Table 3, by its lines 1 to 7: the live surcharge in kg/m, and the width over which it is spread at formation level, in mm.
const SURCHARGES: [u64; 7] = [16_300, 13_700, 15_800, 13_700, 9_800, 9_800, 8_300];

const WIDTHS: [u64; 7] = [3_000, 3_000, 3_000, 3_000, 2_100, 2_100, 1_800];

// Ka in hundredths, by the soils a to d.
const ACTIVES: [u64; 4] = [27, 30, 39, 100];

// One function that takes a table would be three calls with a table, a bound and a place, no plainer than these.

// The live surcharge of a standard of loading.
pub(crate) fn surcharge_of(standard: u64) -> u64
    requires { (1 ≤ standard) × (standard ≤ 7) }
    ensures { result ≡ table3_surcharge standard }
{
    SURCHARGES[(standard - 1) as usize]
}

// The width over which it is spread.
pub(crate) fn width_of(standard: u64) -> u64
    requires { (1 ≤ standard) × (standard ≤ 7) }
    ensures { result ≡ table3_width standard }
{
    WIDTHS[(standard - 1) as usize]
}

// The coefficient of a soil that has one.
pub(crate) fn active_of(soil: u64) -> u64
    requires { (1 ≤ soil) × (soil ≤ 4) }
    ensures { result ≡ active soil }
{
    ACTIVES[(soil - 1) as usize]
}
