// What a record's row shows.
ghost use Rattle.std.specs.Prelude.{◌≡◌};
ghost use Rattle.rules.proofs.Limits.{Limits};
ghost use Rattle.trace.specs.Step.{row_of};

use machine::{Machine, Told};
use text::Row;

// The row of a record, once the machine has counted it: the totals are used + ghost.
pub fn row_of(m: &Machine, told: Told) -> Row
    requires { Limits m.now.state }
    ensures { result ≡ row_of m.now told }
{
    let a = m.state;
    Row {
        n: m.shown,
        code: told.code,
        node: told.node,
        atoms: a.used.atoms + a.ghosts.atoms,
        pairs: a.used.pairs + a.ghosts.pairs,
        heap: a.used.bytes + a.ghosts.bytes,
    }
}
