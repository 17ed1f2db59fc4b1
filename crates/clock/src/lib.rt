// The trials counted against the budget (01: "Trials are counted one by one against the budget"). A trial past the
// budget leaves it spent, at the budget. Total: no sum wraps, whatever was counted before.
#![tactic(auto)]

ghost use Rattle.std.specs.Prelude.{◌-◌, ◌≡◌};
ghost use Rattle.clock.specs.Clock.{charged};

// The trials counted, whether the budget is spent, and whether some evaluated set is too large. The flags stay flags: both
// can be up, and each alone.
#[derive(Clone, Copy)]
pub struct Progress {
    pub trials: u64,
    pub spent: bool,
    pub large: bool,
}

// n more trials; past the budget it is spent.
#[tactic(auto, unfolding(crate::specs::Clock::charged))]
pub fn charge_all(p: Progress, budget: u64, n: u64) -> Progress
    ensures { result ≡ charged budget p n }
{
    match budget.checked_sub(p.trials) {
        Some(left) if n <= left => Progress {
            trials: p.trials + n,
            ..p
        },
        _ => Progress {
            trials: budget,
            spent: true,
            ..p
        },
    }
}

// The same, of the rows of one table.
pub fn charge(p: Progress, budget: u64, n: u16) -> Progress
    ensures { result ≡ charged budget p n }
{
    charge_all(p, budget, u64::from(n))
}

// How many trials came since, 0 where there were more before.
pub fn since(old: u64, new: u64) -> u64
    ensures { result ≡ new - old }
{
    new.saturating_sub(old)
}
