// A cartridge of one or two partition slices: its lengths, its soundness, and whether a record may mount it.
ghost use Rattle.std.specs.Prelude.{◌≡◌, ◌&&◌, ◌||◌, Bool, List, ℕ};
ghost use Rattle.answers.specs.Answers.{fault_number};
ghost use Rattle.image.specs.Image.{absent};
ghost use Rattle.house.specs.Mount.{right_lengths, both_sound, partitions_of, mount_fault};

use answers::Refusal;

// How many partitions are lent: an empty second slice is absent.
pub fn partitions_of(p1: &[u8]) -> u8
    ensures { result ≡ partitions_of p1.now }
{
    if p1.is_empty() { 1 } else { 2 }
}

// Whether both slices pass a test, as far as they are lent; `rule` is what the test computes.
fn both_pass<F: Fn(&[u8]) -> bool>(p0: &[u8], p1: &[u8], test: F) -> bool
    requires { F.IsAlwaysCallable test }
    ensures { (rule : List ℕ → Bool)
        → ((p : _) (passes : _) → F.post test p passes → passes ≡ rule p.now)
        → result ≡ (rule p0.now && (absent p1.now || rule p1.now)) }
{
    test(p0) && (p1.is_empty() || test(p1))
}

// The refusal of a mount: for the record, while loaded, for a length of the slices, then where one is not sound.
#[tactic(auto, using(crate::proofs::Mounted::faults, record::proofs::Judged::record_parts), unfolding(answers::specs::Answers::first))]
pub fn mount_fault(rec: &[u8], p0: &[u8], p1: &[u8]) -> Result<(), Refusal>
    ensures { fault_number result ≡ mount_fault rec.now p0.now p1.now }
{
    if !record::is_record(rec) {
        return Err(Refusal::RecordFault);
    }
    if rec[record::LOADED] == 1 {
        return Err(Refusal::AlreadyLoaded);
    }
    if !both_pass(p0, p1, |p| image::has_right_length(p)) {
        return Err(Refusal::WrongLength);
    }
    if !both_pass(p0, p1, |p| image::is_sound(p)) {
        return Err(Refusal::UnsoundImage);
    }
    Ok(())
}
