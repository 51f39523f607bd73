// The columns of a row by their names and units (document 01, the job book; 02, P1, P3 and P5), and how a kind is written.
use kinds::Kind;
use std::fmt;

// How a kind is written.
pub(crate) fn letters(kind: Kind) -> &'static str {
    match kind {
        Kind::B => "B",
        Kind::S => "S",
        Kind::C => "C",
        Kind::E => "E",
        Kind::W => "W",
        Kind::G => "G",
        Kind::DL => "DL",
        Kind::EP => "EP",
        Kind::LL => "LL",
        Kind::LF => "LF",
        Kind::CF => "CF",
        Kind::WC => "WC",
        Kind::BU => "BU",
        Kind::TM => "TM",
        Kind::EX => "EX",
        Kind::WL => "WL",
        Kind::SF => "SF",
    }
}

// The columns n1 to n6 of a kind by name, each with its unit as it is told behind the kind.
type Headings = [(&'static str, &'static str); 6];

const BASE: Headings = [
    ("width B", " in mm"),
    ("length L", " in mm"),
    ("allowable pressure", " in kN/m2"),
    ("friction", " in thousandths"),
    ("strata", ", 0 soil, 1 rock"),
    ("n6", ""),
];

const SCOUR: Headings = [
    ("discharge Q", " in l/s"),
    ("catchment", " in km2"),
    ("silt factor", " in thousandths"),
    ("waterway W", " in mm"),
    ("reach", ""),
    ("foundation depth", " in mm below flood"),
];

const CLEARANCE: Headings = [
    ("velocity", " in mm/s"),
    ("area A", " in tenths of m2"),
    ("obstructed area a", " in tenths of m2"),
    ("underside level", " in mm"),
    ("flood level", " in mm"),
    ("n6", ""),
];

const EARTH: Headings = [
    ("soil", ""),
    ("slope", ""),
    ("height", " in mm"),
    ("length", " in mm"),
    ("phase", ""),
    ("n6", ""),
];

const CURRENT: Headings = [
    ("shape", ""),
    ("exposed area", " in hundredths of m2"),
    ("velocity", " in mm/s"),
    ("upper wetted height", " in mm"),
    ("lower wetted height", " in mm"),
    ("phase", ""),
];

const SURCHARGE: Headings = [
    ("loading standard", ""),
    ("dead surcharge", " in kg/m"),
    ("soil", ""),
    ("depth h", " in mm"),
    ("abutment length L", " in mm"),
    ("phase", ""),
];

// Of the rows that give their own forces, with a train and without.
const TRAIN: Headings = [
    ("V", " in kN"),
    ("x", " in mm"),
    ("H", " in kN"),
    ("y", " in mm"),
    ("phase", ""),
    ("LL row", ""),
];

const FORCES: Headings = [
    ("V", " in kN"),
    ("x", " in mm"),
    ("H", " in kN"),
    ("y", " in mm"),
    ("phase", ""),
    ("n6", ""),
];

fn headings(kind: Kind) -> Headings {
    match kind {
        Kind::B => BASE,
        Kind::S => SCOUR,
        Kind::C => CLEARANCE,
        Kind::E => EARTH,
        Kind::W => CURRENT,
        Kind::G => SURCHARGE,
        Kind::LF | Kind::CF => TRAIN,
        Kind::DL
        | Kind::EP
        | Kind::LL
        | Kind::WC
        | Kind::BU
        | Kind::TM
        | Kind::EX
        | Kind::WL
        | Kind::SF => FORCES,
    }
}

// The column of a number, from 4 to 9, of a row of a kind.
#[derive(Clone, Copy)]
pub(crate) struct ColumnOf {
    pub(crate) kind: Kind,
    pub(crate) column: usize,
}

// Its name, the kind, its unit.
impl fmt::Display for ColumnOf {
    fn fmt<W: fmt::Write>(&self, f: &mut fmt::Formatter<W>) -> fmt::Result {
        let headings = headings(self.kind);
        match self
            .column
            .checked_sub(4)
            .and_then(|place| headings.get(place))
        {
            Some((name, unit)) => write!(f, "{name} of {}{unit}", letters(self.kind)),
            None => Ok(()),
        }
    }
}
