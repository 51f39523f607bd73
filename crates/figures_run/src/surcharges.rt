// The figures of surcharge (document 02, P5), which docs/DECISIONS.md works out by hand.
//
// A row that is refused has its number for its first force, and 0 for the other figures: none of the forces here is 11, 19 or 20.
use crate::asked::Tally;
use crate::forces;
use kinds::Numbers;
use kinds::refusals::JobRefusal;

// A G row's standard, dead surcharge, soil, depth and length; and its first force and arm, and its second, by hand. Every standard and every soil, both cases
// and where they meet, what is rounded when, the largest rows and the smallest, and each refusal, on both sides where it has two.
const ROWS: [[u32; 9]; 30] = [
    [1, 3000, 1, 5000, 10000, 320, 2500, 267, 3334],
    [2, 3000, 1, 5000, 10000, 277, 2500, 231, 3334],
    [3, 3000, 1, 5000, 10000, 312, 2500, 260, 3334],
    [4, 3000, 1, 5000, 10000, 277, 2500, 231, 3334],
    [5, 3000, 1, 5000, 10000, 239, 2500, 285, 3334],
    [6, 3000, 1, 5000, 10000, 239, 2500, 285, 3334],
    [7, 3000, 1, 5000, 10000, 221, 2500, 306, 3334],
    [1, 3000, 2, 5000, 10000, 355, 2500, 296, 3334],
    [1, 3000, 3, 5000, 10000, 462, 2500, 385, 3334],
    [1, 3000, 4, 5000, 10000, 1183, 2500, 986, 3334],
    [1, 20000, 4, 5999, 9000, 2136, 3000, 2136, 4000],
    [1, 20000, 4, 6000, 9000, 2136, 3000, 2136, 4000],
    [1, 20000, 4, 6001, 9000, 2137, 3001, 2136, 4001],
    [7, 0, 2, 8000, 6000, 196, 4000, 120, 6600],
    [1, 0, 1, 4000, 9000, 222, 2000, 149, 2667],
    [1, 0, 1, 1000, 5000, 54, 500, 10, 667],
    [1, 20000, 4, 15000, 60000, 17800, 7500, 44498, 10000],
    [7, 20000, 4, 15000, 60000, 14868, 7500, 61949, 10000],
    [1, 0, 1, 1, 3001, 1, 1, 1, 1],
    [1, 0, 1, 1000, 3000, 19, 0, 0, 0],
    [5, 0, 1, 1000, 2100, 19, 0, 0, 0],
    [5, 0, 1, 1000, 2101, 26, 500, 1, 1000],
    [1, 0, 5, 1000, 3001, 20, 0, 0, 0],
    [1, 0, 5, 1000, 3000, 19, 0, 0, 0],
    [8, 0, 1, 1000, 5000, 11, 0, 0, 0],
    [1, 20001, 1, 1000, 5000, 11, 0, 0, 0],
    [1, 0, 6, 1000, 5000, 11, 0, 0, 0],
    [1, 0, 1, 0, 5000, 11, 0, 0, 0],
    [1, 0, 1, 15001, 60000, 11, 0, 0, 0],
    [1, 0, 1, 1000, 60001, 11, 0, 0, 0],
];

// A G row, in service.
fn row(standard: u32, dead: u32, soil: u32, depth: u32, length: u32) -> Numbers {
    Numbers {
        n1: forces::filled(standard),
        n2: forces::filled(dead),
        n3: forces::filled(soil),
        n4: forces::filled(depth),
        n5: forces::filled(length),
        n6: forces::filled(0),
    }
}

// The two forces and arms of a row.
fn pushes_of(row: Numbers) -> [u64; 4] {
    match surcharge::pressure(row) {
        Ok(parts) => [
            parts.first.force,
            parts.first.arm,
            parts.second.force,
            parts.second.arm,
        ],
        Err(refusal) => [u64::from(u8::from(JobRefusal::from(refusal))), 0, 0, 0],
    }
}

// Surcharge, row by row, of which all four figures are to agree.
pub(crate) fn laden(tally: &mut Tally<'_, impl Print>) {
    for [
        standard,
        dead,
        soil,
        depth,
        length,
        force,
        arm,
        second,
        second_arm,
    ] in ROWS {
        let came = pushes_of(row(standard, dead, soil, depth, length));
        let [a, b, c, d] = came;
        let _ = println!(tally.to;
            "G {standard} {dead} {soil} {depth} {length} came {a} {b} {c} {d}, by hand {force} {arm} {second} {second_arm}"
        );
        tally.count(came == [force, arm, second, second_arm].map(u64::from));
    }
}
