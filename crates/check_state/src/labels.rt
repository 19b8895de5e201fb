// The numbers of the nodes in job order, behind the machine.
ghost use Rattle.std.specs.Prelude.{◌≡◌};
ghost use Rattle.rules.specs.Check.{labels_ok};
ghost use Rattle.tables.specs.View.{labels_at, Published};

use tables::front;

// Whether the numbers of the job's nodes rise, below 24. Those behind them are not looked at.
pub(crate) fn labels_ok(s: &[u8]) -> bool
    requires { Published s.now }
    ensures { result ≡ labels_ok (labels_at s.now) }
{
    let n = table_job::counts::node_count(front::machine(s));
    let mut least = 0;
    for i in 0..n {
        let x = s[tables::MACHINE_LEN + i];
        if x < least || 24 <= x {
            return false;
        }
        least = x + 1;
    }
    true
}
