// The figures of earth, OP and PR.
//
// "By either rule" is one line: the program takes one of PR's two rules there, and that both give 57 is a starred figure.
ghost use Rattle.std.specs.Prelude.{IfSome};
ghost use Rattle.sets.specs.Bounded.{Bounded};
ghost use Rattle.checks.specs.Sized.{Sized};

use crate::asked::Tally;
use checks::{Base, Check, Figure};
use fields::Entry;
use kinds::{Kind, Numbers, Row};
use sets::{Combination, Loads};

// Table 2 in N, soils a to e by slopes level, 6:1, 3:1, 2:1, 1½:1; 0 where it is blank (document 01, Earth pressure).
const TABLE2: [[u32; 5]; 5] = [
    [4609, 4471, 4707, 5962, 8786],
    [6178, 5805, 6276, 7649, 10787],
    [7355, 7511, 8090, 9571, 13494],
    [15690, 16186, 17893, 0, 0],
    [18828, 20306, 21189, 0, 0],
];

pub(crate) fn filled(size: u32) -> Entry {
    Entry {
        filled: true,
        minus: false,
        size,
    }
}

// A row of four numbers, in service.
fn row(a: u32, b: u32, c: u32, d: u32) -> Numbers {
    Numbers {
        n1: filled(a),
        n2: filled(b),
        n3: filled(c),
        n4: filled(d),
        n5: filled(0),
        n6: fields::blank_entry(),
    }
}

// The thrust and the height of a fill of soil a, level; no line where it is refused.
fn pushed(tally: &mut Tally<'_, impl Print>) {
    if let Ok(push) = earth::pressure(TABLE2, row(1, 1, 6000, 8000)) {
        tally.figure("H of soil a, level, 6000 by 8000", push.force, 664);
        tally.figure("y of the same, 6000 by 8000", push.arm, 2000);
    }
}

// A figure that is a number, and 0 for "none" and "off".
fn figure_number(figure: Figure) -> u64 {
    match figure {
        Figure::Nothing => 0,
        Figure::Number(n) => n,
        Figure::Off => 0,
    }
}

// A base of B 4,000 and L 8,000.
fn example_base() -> Base
    ensures { Sized result }
{
    Base {
        width: 4000,
        length: 8000,
        allowable: 300,
        friction: 600,
        rock: false,
    }
}

// The loads of one DL row; none where it is refused.
fn loads_of_row(numbers: Numbers) -> Option<Loads>
    ensures { IfSome result Bounded }
{
    let row = Row {
        kind: Kind::DL,
        numbers,
    };
    let rows = [row; 16];
    loads::loads_of(TABLE2, rows, 1).ok()
}

// A figure of the set of one DL row on that base; 0 where it is refused, or I does not permit it.
fn figure_of_row(check: Check, numbers: Numbers) -> u64 {
    let Some(loads) = loads_of_row(numbers) else {
        return 0;
    };
    if !sums::permitted::permitted(Combination::I, loads, 1) {
        return 0;
    }
    figure_number(checks::set_figures::figure_of(check, example_base(), loads, 1))
}

// Earth pressure, OP and PR, figure by figure; in PR an H at 1,000 mm makes M.
pub(crate) fn borne(tally: &mut Tally<'_, impl Print>) {
    pushed(tally);
    for (y, says) in [(10_000, 200), (10_001, 199)] {
        let came = figure_of_row(Check::OP, row(1000, 0, 100, y));
        tally.figure(
            format_args!("OP on B 4000 of V 1000, x 0, H 100, y {y}"),
            came,
            says,
        );
    }
    for (words, v, h, says) in [
        ("B 4000, L 8000 of N 1000", 1000, 1000, 84),
        ("the same of N 900", 900, 600, 57),
    ] {
        let numbers = row(v, 0, h, 1000);
        if let Some(loads) = loads_of_row(numbers) {
            let totals = sums::set_sums::totals_of(4000, loads, 1);
            let came = figure_of_row(Check::PR, numbers);
            tally.figure(
                format_args!("PR on {words}, M {}", totals.m.size),
                came,
                says,
            );
        }
    }
}
