// Runs the figures of document 01's "Figures on each side", starred or not, through the public functions, and those of document 02's requests,
// worked out by hand. One line a figure, in 01's order and then 02's: what was asked, what came and what it should be; and a last line with how
// many of them agree.
#![tactic(auto)]

mod asked;
mod currents;
mod forces;
mod surcharges;

ghost use Rattle.std.specs.Prelude.{◌≤◌};

use asked::Tally;
use kinds::Numbers;
use kinds::refusals::JobRefusal;

fn discharged(tally: &mut Tally<'_, impl Print>, catchment: u64, says: u64)
    requires { catchment ≤ 25000 }
{
    let came = scour::discharge::foundation_discharge(1_000_000, catchment);
    tally.figure(format_args!("Qf of Q 1000000, Z {catchment}"), came, says);
}

// The number of an S row's refusal, and 0 where it is not refused.
fn catchment_refused(tally: &mut Tally<'_, impl Print>, catchment: u32, says: u64) {
    let answer = scour::scour(Numbers {
        n1: forces::filled(1_000_000),
        n2: forces::filled(catchment),
        n3: forces::filled(1000),
        n4: forces::filled(200_000),
        n5: forces::filled(4),
        n6: forces::filled(0),
    });
    let came = match answer {
        Ok(_) => 0,
        Err(refusal) => u64::from(u8::from(JobRefusal::from(refusal))),
    };
    tally.figure(
        format_args!("refusal of Q 1000000, Z {catchment}"),
        came,
        says,
    );
}

// 1 where the regime width is met, and 0 where it is not.
fn wide(tally: &mut Tally<'_, impl Print>, waterway: u64, says: u64)
    requires { waterway ≤ 1300000 }
{
    let came = u64::from(scour::lacey::meets_regime(1_000_000, waterway));
    tally.figure(
        format_args!("regime width of Q 1000000, met (1) or not (0), W {waterway}"),
        came,
        says,
    );
}

fn regime(tally: &mut Tally<'_, impl Print>) {
    let depth = scour::lacey::regime_depth(1_300_000, 1000).value;
    tally.figure("D of Qf 1300000, f 1000", depth, 5163);
    let needed = scour::lacey::depth_needed(depth, 4).value;
    tally.figure("depth needed of that D, reach 4", needed, 13_734);
}

fn constricted(tally: &mut Tally<'_, impl Print>, q: u64, says: u64)
    requires { q ≤ 50000 }
{
    let came = scour::lacey::constricted_depth(q, 1000).value;
    tally.figure(format_args!("D of f 1000, q {q}"), came, says);
}

fn raised(tally: &mut Tally<'_, impl Print>, obstructed: u64, says: u64)
    requires { (1 ≤ obstructed) × (obstructed ≤ 1200) }
{
    let came = clearance::afflux::afflux(3000, 1200, obstructed).value;
    tally.figure(
        format_args!("afflux of v 3000, A 1200, a {obstructed}"),
        came,
        says,
    );
}

fn cleared(tally: &mut Tally<'_, impl Print>, q: u64, says: u64) {
    let came = clearance::afflux::clearance_needed(q);
    tally.figure(format_args!("clearance needed of Q {q}"), came, says);
}

fn scoured(tally: &mut Tally<'_, impl Print>) {
    discharged(tally, 500, 1_300_000);
    discharged(tally, 5000, 1_200_000);
    discharged(tally, 25_000, 1_100_000);
    catchment_refused(tally, 25_001, 12);
    wide(tally, 152_908, 1);
    wide(tally, 152_907, 0);
    regime(tally);
    constricted(tally, 8000, 5352);
    constricted(tally, 8001, 5353);
}

fn main(rt: HostRuntime) {
    if files::arg_count(&rt) > 1 {
        files::put(&rt.stderr(), b"figures_run: it takes no argument\n");
        return;
    }
    let mut tally = Tally { to: &rt, agree: 0 };
    scoured(&mut tally);
    raised(&mut tally, 1000, 229);
    raised(&mut tally, 1200, 0);
    forces::borne(&mut tally);
    cleared(&mut tally, 30_000, 600);
    cleared(&mut tally, 30_001, 601);
    cleared(&mut tally, 300_001, 1500);
    currents::washed(&mut tally);
    surcharges::laden(&mut tally);
    let agree = tally.agree;
    let _ = println!(&rt; "{agree} of 68 figures agree");
}
