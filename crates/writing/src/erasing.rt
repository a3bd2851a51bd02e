// ERASE, and with LONG the free part zeroed.
ghost use Rattle.std.specs.Prelude.{◌≡◌, true, [], ◌≤◌, length};
ghost use Rattle.image.specs.Image.{count, sound};
ghost use Rattle.codes.specs.declared.operation.Operation.TheVariants.{Erase};
ghost use Rattle.commands.specs.Act.{act};
ghost use Rattle.commands.specs.Step.{acted};
ghost use Rattle.commands.specs.Call.{seen_of, laid_out};
ghost use Rattle.deeds.specs.Left.{left_by};

use deeds::Left;
use record::Drive;

// ERASE at the position of a sound partition.
pub fn erase(s: &mut [u8], d: Drive, cmd: &[u8]) -> Left
    requires { (sound s.old ≡ true) × (d.position ≤ count s.old) × (5 ≤ length cmd.now) }
    ensures { (result ≡ left_by (act Erase d cmd.now [] (seen_of s.old))) × (s.new ≡ laid_out (acted Erase d cmd.now [] (seen_of s.old)) s.old) }
{
    let n = d.position as usize;
    if codes::long(cmd) {
        changes::cut_clearing(s, n);
        return deeds::good(d, 0);
    }
    changes::cut(s, n);
    deeds::good(d, 0)
}
