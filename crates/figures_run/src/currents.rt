// The figures of water current (document 02, P1), which docs/DECISIONS.md works out by hand.
//
// A row that is refused has its number for its figure: none of the forces and heights here is 11 or 17.
use crate::asked::Tally;
use crate::forces;
use kinds::Numbers;
use kinds::refusals::JobRefusal;

// Rows wetted from 3,000 to 9,000 by shape, area and velocity, and their forces: the six shapes of Table 4 at 3 m/s, on 10 m²; then the sides of a
// rounding, one rounding and not two, the largest force, and none.
const FORCES: [(u32, u32, u32, u64); 11] = [
    (1, 1000, 3000, 70),
    (2, 1000, 3000, 31),
    (3, 1000, 3000, 33),
    (4, 1000, 3000, 42),
    (5, 1000, 3000, 22),
    (6, 1000, 3000, 23),
    (2, 1000, 3005, 31),
    (2, 1000, 3006, 32),
    (1, 16, 2831, 1),
    (1, 20000, 6000, 5579),
    (1, 1000, 0, 0),
];

// Rows of shape 1 and 10 m², at 3 m/s, by what is asked and by their upper and lower wetted heights, and the heights of their forces.
const HEIGHTS: [(&'static str, u32, u32, u64); 6] = [
    ("y", 3000, 0, 2000),
    ("y", 3000, 1, 2001),
    ("y", 1, 0, 1),
    ("y", 60000, 60000, 60000),
    ("y", 5000, 5000, 5000),
    ("refusal", 2999, 3000, 17),
];

// A W row, in service.
fn row(shape: u32, area: u32, velocity: u32, upper: u32, lower: u32) -> Numbers {
    Numbers {
        n1: forces::filled(shape),
        n2: forces::filled(area),
        n3: forces::filled(velocity),
        n4: forces::filled(upper),
        n5: forces::filled(lower),
        n6: forces::filled(0),
    }
}

// The force of a row, and its height.
fn push_of(row: Numbers) -> (u64, u64) {
    match current::pressure(row) {
        Ok(push) => (push.force, push.arm),
        Err(refusal) => {
            let number = u64::from(u8::from(JobRefusal::from(refusal)));
            (number, number)
        }
    }
}

// Water current, figure by figure.
pub(crate) fn washed(tally: &mut Tally<'_, impl Print>) {
    for (shape, area, velocity, says) in FORCES {
        let (force, _) = push_of(row(shape, area, velocity, 9000, 3000));
        tally.worked(
            format_args!("H of W, shape {shape}, area {area}, v {velocity}"),
            force,
            says,
        );
    }
    for (what, upper, lower, says) in HEIGHTS {
        let (_, arm) = push_of(row(1, 1000, 3000, upper, lower));
        tally.worked(
            format_args!("{what} of W, upper {upper}, lower {lower}"),
            arm,
            says,
        );
    }
}
