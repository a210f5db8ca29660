//! The multiplier of a separation's cost.
ghost use Rattle.std.specs.Prelude.{◌≡◌, ◌≤◌, ◌+◌, length};
ghost use Rattle.bz_num.specs.Dense.{entry};
ghost use Rattle.bz_std.specs.CutsFrom.{cost_multiplier};
ghost use Rattle.bz_sep.specs.Outcomes.{cost_rows};

use bz_cut::Mode;

/// What multipliers of a separation give the eta of its block: in mode Cost that of the cost's row, which stands behind
/// the inequalities.
pub(crate) fn eta_multiplier(mode: Mode, inequalities: usize, y: &[i128]) -> i128
    requires { inequalities + cost_rows mode ≤ length y.now }
    ensures { result ≡ cost_multiplier mode inequalities (entry y.now) }
{
    match mode {
        Mode::Cost => y[inequalities],
        Mode::Point => 0,
    }
}
