// What one load row exerts (document 01, the job book and Earth pressure; 02, P1, P3, P4 and P5): its class, its phase, its train, and its forces, from
// its own numbers, from its fill, from the water current or from its surcharge; or why its job is refused, with 11, 15, 17, 19 or 20.
ghost use Rattle.std.specs.Prelude.{◌≡◌, false, ◌≤◌};
ghost use Rattle.surcharge.specs.force.steps.Moderate.{Moderate};
ghost use Rattle.earth.specs.coefficients.Lent.{fill_of};
ghost use Rattle.arithmetic.specs.signed.Whole.{signed, amount};
ghost use Rattle.kinds.specs.classes.Classes.{class_of};
ghost use Rattle.loads.specs.forces.Exerts.{OwnForces, PushLoad, PartsLoad};
ghost use Rattle.loads.specs.steps.Exerted.{Belongs, LoadOf};

use arithmetic::signed::Amount;
use kinds::classes::Source;
use kinds::refusals::JobRefusal;
use kinds::{Numbers, Row};
use sets::{Class, Load};
use surcharge::Parts;

// What a row's load has of the row beside its forces: its class, its phase and its train.
#[derive(Clone, Copy)]
struct Membership {
    class: Class,
    phase: u32,
    train: u32,
}

// The amount of a sign and a size; zero has no sign.
fn amount_of(minus: bool, size: u64) -> Amount
    ensures { result ≡ amount (signed minus size) }
{
    Amount {
        minus: minus & (size != 0),
        size,
    }
}

// The load of a push toward +x with its twist, and no V.
fn push_load(of: Membership, force: u64, twist: u64) -> Load
    ensures { Belongs of result × PushLoad force twist result }
{
    let none = amount_of(false, 0);
    Load {
        class: of.class,
        phase: of.phase,
        train: of.train,
        v: none,
        x: none,
        h: amount_of(false, force),
        twist: amount_of(false, twist),
    }
}

// The load of both parts of a surcharge, each at its own arm.
fn surcharge_load(of: Membership, parts: Parts) -> Load
    requires { Moderate parts }
    ensures { Belongs of result × PartsLoad parts result }
{
    let first = parts.first;
    let second = parts.second;
    push_load(
        of,
        first.force + second.force,
        first.force * first.arm + second.force * second.arm,
    )
}

// The load of a row's own numbers.
fn own_load(of: Membership, numbers: Numbers) -> Load
    requires { (numbers.n3.size ≤ 50000) × (numbers.n4.size ≤ 60000) × (numbers.n4.minus ≡ false) }
    ensures { Belongs of result × OwnForces numbers result }
{
    Load {
        class: of.class,
        phase: of.phase,
        train: of.train,
        v: amount_of(numbers.n1.minus, u64::from(numbers.n1.size)),
        x: amount_of(numbers.n2.minus, u64::from(numbers.n2.size)),
        h: amount_of(numbers.n3.minus, u64::from(numbers.n3.size)),
        twist: amount_of(
            numbers.n3.minus,
            u64::from(numbers.n3.size) * u64::from(numbers.n4.size),
        ),
    }
}

// What a load row of a class exerts, or the lowest of its own refusals. Whether its numbers are in range is asked once, by the rule that its forces come from.
pub(crate) fn load_of(held: [[u32; 5]; 5], row: Row, class: Class) -> Result<Load, JobRefusal>
    requires { class ≡ class_of row.kind }
    ensures { LoadOf (fill_of held) row result }
{
    let numbers = row.numbers;
    let of = Membership {
        class,
        phase: kinds::phase_of(row),
        train: kinds::train_of(row),
    };
    let source = kinds::classes::source_of(row.kind);
    match source {
        Source::Earth => {
            let fill = earth::pressure(held, numbers)?;
            Ok(push_load(of, fill.force, fill.force * fill.arm))
        }
        Source::Current => {
            let current = current::pressure(numbers)?;
            Ok(push_load(of, current.force, current.force * current.arm))
        }
        Source::Surcharge => {
            let parts = surcharge::pressure(numbers)?;
            Ok(surcharge_load(of, parts))
        }
        Source::Own | Source::Absent => {
            if !kinds::ranges::is_ranged(row.kind, numbers) {
                return Err(JobRefusal::OutOfRange);
            }
            // a row of no source: no job has one among its load rows
            if source == Source::Absent {
                return Ok(push_load(of, 0, 0));
            }
            Ok(own_load(of, numbers))
        }
    }
}
