// What is looked at of the partitions before a command acts.
ghost use Rattle.std.specs.Prelude.{◌≡◌, true};
ghost use Rattle.record.specs.Record.{well_formed};
ghost use Rattle.commands.specs.Call.{partition, inserted};
ghost use Rattle.step.specs.Served.{guarded_now};

use record::Drive;

// The partition that the drive stands in.
fn current<'a>(d: Drive, p0: &'a [u8], p1: &'a [u8]) -> &'a [u8]
    ensures { result.now ≡ partition d.current p0.now p1.now }
{
    match d.current {
        1 => p1,
        _ => p0,
    }
}

// Number 4 beyond the record: while loaded, the partitions lent are those that the drive tells of, each sound, with the position in the current one. The
// one pass over each.
#[tactic(auto, using(crate::proofs::Looked::one_loaded), unfolding(commands::specs::Call::inserted))]
pub fn is_inserted(d: Drive, p0: &[u8], p1: &[u8]) -> bool
    requires { well_formed d ≡ true }
    ensures { result ≡ inserted d p0.now p1.now }
{
    d.loaded == 0
        || image::is_sound(p0)
            && match d.partitions {
                1 => p1.is_empty(),
                _ => image::is_sound(p1),
            }
            && d.position <= image::count_of(current(d, p0, p1))
}

// Whether the current partition is protected; not so while unloaded.
#[tactic(auto, using(crate::proofs::Looked::current_there), unfolding(crate::specs::Served::guarded_now))]
pub fn is_guarded(d: Drive, p0: &[u8], p1: &[u8]) -> bool
    requires { (well_formed d ≡ true) × (inserted d p0.now p1.now ≡ true) }
    ensures { result ≡ guarded_now d p0.now p1.now }
{
    d.loaded != 0 && image::is_protected(current(d, p0, p1))
}
