// What a row of a kind is to a combination, and where its forces come from (document 01, the job book and Load sets; 02, P1 and P5).
ghost use Rattle.std.specs.Prelude.{◌≡◌};
ghost use Rattle.kinds.specs.classes.Classes.{class_of, source, optional};

use crate::Kind;
use sets::Class;

// Where a row's forces come from: nowhere, a fill, a water current, a surcharge, or its own numbers.
#[derive(Clone, Copy, PartialEq, Eq)]
pub enum Source {
    Absent,
    Earth,
    Current,
    Surcharge,
    Own,
}

// What a row of a kind is to a combination.
pub fn class_of(kind: Kind) -> Class
    ensures { result ≡ class_of kind }
{
    match kind {
        Kind::B | Kind::S | Kind::C | Kind::E | Kind::DL | Kind::EP => Class::Permanent,
        Kind::W
        | Kind::G
        | Kind::LL
        | Kind::LF
        | Kind::CF
        | Kind::WC
        | Kind::BU
        | Kind::TM
        | Kind::EX => Class::Free,
        Kind::WL => Class::Wind,
        Kind::SF => Class::Earthquake,
    }
}

// Where a row's forces come from.
pub fn source_of(kind: Kind) -> Source
    ensures { result ≡ source kind }
{
    match kind {
        Kind::B | Kind::S | Kind::C => Source::Absent,
        Kind::E => Source::Earth,
        Kind::W => Source::Current,
        Kind::G => Source::Surcharge,
        Kind::DL
        | Kind::EP
        | Kind::LL
        | Kind::LF
        | Kind::CF
        | Kind::WC
        | Kind::BU
        | Kind::TM
        | Kind::EX
        | Kind::WL
        | Kind::SF => Source::Own,
    }
}

// How many optional rows a row of a class is: 0 or 1 (document 01, refusal 16).
pub fn optional_count(class: Class) -> u64
    ensures { result ≡ optional class }
{
    match class {
        Class::Permanent => 0,
        Class::Free | Class::Wind | Class::Earthquake => 1,
    }
}
