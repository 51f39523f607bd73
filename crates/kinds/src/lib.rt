// The table of kinds (document 01, the job book; 02, P1, P3 and P5), as data: the form (refusal 3) and the ranges (refusal 11) of a row's numbers.
//
// Which columns are filled and in what range, how the kind is written, what a row of it is to its job, and where its phase and its train
// stand, is stated in one table (`specs/Table.antt`), its class and the source of its forces with `classes`. A kind that is added joins both. The code's copies are
// shown to be the definitions'.
#![tactic(auto)]

pub mod classes;
pub mod letters;
pub mod pushes;
pub mod ranges;
pub mod refusals;

ghost use Rattle.std.specs.Prelude.{◌≡◌};
ghost use Rattle.kinds.specs.Table.{columns, role, phase, train};

use fields::Entry;

// The kinds of a row: the base, the two river rows, earth pressure, water current, surcharge, and the load rows that give their own forces.
#[derive(Clone, Copy, PartialEq, Eq)]
pub enum Kind {
    B,
    S,
    C,
    E,
    W,
    G,
    DL,
    EP,
    LL,
    LF,
    CF,
    WC,
    BU,
    TM,
    EX,
    WL,
    SF,
}

// What a row of a kind is to its job.
#[derive(Clone, Copy, PartialEq, Eq)]
pub enum Role {
    Base,
    Scour,
    Clearance,
    Load,
}

// A column of the table: left empty; a number from low to high; or one from so far below zero to so far above.
#[derive(Clone, Copy)]
pub enum Column {
    Empty,
    Filled(u32, u32),
    Signed(u32, u32),
}

// The columns n1 to n6 of a kind.
#[derive(Clone, Copy)]
pub struct Columns {
    pub n1: Column,
    pub n2: Column,
    pub n3: Column,
    pub n4: Column,
    pub n5: Column,
    pub n6: Column,
}

// The numbers of a row.
#[derive(Clone, Copy)]
pub struct Numbers {
    pub n1: Entry,
    pub n2: Entry,
    pub n3: Entry,
    pub n4: Entry,
    pub n5: Entry,
    pub n6: Entry,
}

// A row by its kind and its numbers; its key is its job's, and its note is not interpreted.
#[derive(Clone, Copy)]
pub struct Row {
    pub kind: Kind,
    pub numbers: Numbers,
}

// The columns of each kind, as the table gives them; the last two are those of the rows that give their own forces, with a train and without.
const BASE_COLUMNS: Columns = Columns {
    n1: Column::Filled(500, 30000),
    n2: Column::Filled(500, 60000),
    n3: Column::Filled(1, 10000),
    n4: Column::Filled(1, 1000),
    n5: Column::Filled(0, 1),
    n6: Column::Empty,
};

const SCOUR_COLUMNS: Columns = Columns {
    n1: Column::Filled(1, 50000000),
    n2: Column::Filled(1, 3000000),
    n3: Column::Filled(100, 3000),
    n4: Column::Filled(1000, 1300000),
    n5: Column::Filled(1, 5),
    n6: Column::Filled(0, 200000),
};

const CLEARANCE_COLUMNS: Columns = Columns {
    n1: Column::Filled(0, 10000),
    n2: Column::Filled(1, 100000),
    n3: Column::Filled(1, 100000),
    n4: Column::Signed(500000, 9000000),
    n5: Column::Signed(500000, 9000000),
    n6: Column::Empty,
};

const EARTH_COLUMNS: Columns = Columns {
    n1: Column::Filled(1, 5),
    n2: Column::Filled(1, 5),
    n3: Column::Filled(1, 15000),
    n4: Column::Filled(1, 60000),
    n5: Column::Filled(0, 2),
    n6: Column::Empty,
};

const CURRENT_COLUMNS: Columns = Columns {
    n1: Column::Filled(1, 6),
    n2: Column::Filled(1, 20000),
    n3: Column::Filled(0, 6000),
    n4: Column::Filled(0, 60000),
    n5: Column::Filled(0, 60000),
    n6: Column::Filled(0, 2),
};

const SURCHARGE_COLUMNS: Columns = Columns {
    n1: Column::Filled(1, 7),
    n2: Column::Filled(0, 20000),
    n3: Column::Filled(1, 5),
    n4: Column::Filled(1, 15000),
    n5: Column::Filled(1, 60000),
    n6: Column::Filled(0, 2),
};

const TRAIN_COLUMNS: Columns = Columns {
    n1: Column::Signed(50000, 50000),
    n2: Column::Signed(30000, 30000),
    n3: Column::Signed(50000, 50000),
    n4: Column::Filled(0, 60000),
    n5: Column::Filled(0, 2),
    n6: Column::Filled(1, 16),
};

const FORCE_COLUMNS: Columns = Columns {
    n1: Column::Signed(50000, 50000),
    n2: Column::Signed(30000, 30000),
    n3: Column::Signed(50000, 50000),
    n4: Column::Filled(0, 60000),
    n5: Column::Filled(0, 2),
    n6: Column::Empty,
};

// The columns of a kind.
pub fn columns_of(kind: Kind) -> Columns
    ensures { result ≡ columns kind }
{
    match kind {
        Kind::B => BASE_COLUMNS,
        Kind::S => SCOUR_COLUMNS,
        Kind::C => CLEARANCE_COLUMNS,
        Kind::E => EARTH_COLUMNS,
        Kind::W => CURRENT_COLUMNS,
        Kind::G => SURCHARGE_COLUMNS,
        Kind::LF | Kind::CF => TRAIN_COLUMNS,
        Kind::DL
        | Kind::EP
        | Kind::LL
        | Kind::WC
        | Kind::BU
        | Kind::TM
        | Kind::EX
        | Kind::WL
        | Kind::SF => FORCE_COLUMNS,
    }
}

// What a row of a kind is to its job.
pub fn role_of(kind: Kind) -> Role
    ensures { result ≡ role kind }
{
    match kind {
        Kind::B => Role::Base,
        Kind::S => Role::Scour,
        Kind::C => Role::Clearance,
        Kind::E
        | Kind::W
        | Kind::G
        | Kind::DL
        | Kind::EP
        | Kind::LL
        | Kind::LF
        | Kind::CF
        | Kind::WC
        | Kind::BU
        | Kind::TM
        | Kind::EX
        | Kind::WL
        | Kind::SF => Role::Load,
    }
}

// The phase of a load row, by its kind: a W or a G row has it in n6, every other in n5.
pub fn phase_of(row: Row) -> u32
    ensures { result ≡ phase row.kind row.numbers }
{
    let kind = row.kind;
    match kind {
        Kind::W | Kind::G => row.numbers.n6.size,
        Kind::B
        | Kind::S
        | Kind::C
        | Kind::E
        | Kind::DL
        | Kind::EP
        | Kind::LL
        | Kind::LF
        | Kind::CF
        | Kind::WC
        | Kind::BU
        | Kind::TM
        | Kind::EX
        | Kind::WL
        | Kind::SF => row.numbers.n5.size,
    }
}

// The LL row that a load row comes with, by its position from 1 among the job's load rows: LF and CF have it in n6, and 0 is none (02, P3).
pub fn train_of(row: Row) -> u32
    ensures { result ≡ train row.kind row.numbers }
{
    let kind = row.kind;
    match kind {
        Kind::LF | Kind::CF => row.numbers.n6.size,
        Kind::B
        | Kind::S
        | Kind::C
        | Kind::E
        | Kind::W
        | Kind::G
        | Kind::DL
        | Kind::EP
        | Kind::LL
        | Kind::WC
        | Kind::BU
        | Kind::TM
        | Kind::EX
        | Kind::WL
        | Kind::SF => 0,
    }
}
