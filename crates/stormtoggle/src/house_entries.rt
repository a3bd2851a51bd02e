// The house services for C: each answer packed into one number.
ghost use Rattle.std.specs.Prelude.{◌≡◌, not, eqb};
ghost use Rattle.house.specs.Mount.{fresh_call, mount_call};
ghost use Rattle.house.specs.Images.{blank_call, protect_call};
ghost use Rattle.answers.specs.Answers.{numbered};
ghost use Rattle.views.specs.Views.{view_number};

#[unsafe(no_mangle)]
pub extern "C" fn stormtoggle_fresh(rec: &mut [u8]) -> u64
    ensures { (result, rec.new) ≡ numbered (fresh_call rec.old) }
{
    answers::pack(house::fresh(rec).into())
}

#[unsafe(no_mangle)]
pub extern "C" fn stormtoggle_mount(rec: &mut [u8], p0: &[u8], p1: &[u8]) -> u64
    ensures { (result, rec.new) ≡ numbered (mount_call rec.old p0.now p1.now) }
{
    answers::pack(house::mount(rec, p0, p1).into())
}

#[unsafe(no_mangle)]
pub extern "C" fn stormtoggle_blank(s: &mut [u8]) -> u64
    ensures { (result, s.new) ≡ numbered (blank_call s.old) }
{
    answers::pack(house::blank(s).into())
}

// 0 clears, any other number sets.
#[unsafe(no_mangle)]
pub extern "C" fn stormtoggle_protect(s: &mut [u8], on: u64) -> u64
    ensures { (result, s.new) ≡ numbered (protect_call (not (eqb on 0)) s.old) }
{
    answers::pack(house::protect(s, on != 0).into())
}

#[tactic(auto, unfolding(answers::specs::Answers::packed_part))]
#[unsafe(no_mangle)]
pub extern "C" fn stormtoggle_view(p0: &[u8], p1: &[u8], partition: u64, object: u64) -> u64
    ensures { result ≡ view_number p0.now p1.now partition object }
{
    match views::view_part(p0, p1, partition, object) {
        Some(p) => answers::pack_part(p.start, p.len),
        None => 0,
    }
}
