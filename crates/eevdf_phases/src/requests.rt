//! How late requests were served.

ghost use Rattle.std.specs.Prelude.{◌≡◌, ◌≤◌, ◌<◌, ◌+◌, ◌-◌, ◌*◌, ◌/◌, ◌^◌, ◌-ℤ◌, pos, max};
ghost use Rattle.std.specs.Int.{int_max};

/// Requests that were used up. Each ought to be so no later than when the virtual time of its CPU comes to its deadline.
#[derive(Drop)]
pub(crate) struct Requests {
    /// How many there were.
    pub number: u64,
    /// How many of these were late.
    pub late: u64,
    /// By how much one was late at most, in virtual time.
    pub latest: u64,
}

impl Requests {
    /// None so far.
    pub fn none() -> Requests {
        Requests {
            number: 0,
            late: 0,
            latest: 0,
        }
    }

    /// One more is used up, late by so much, or by 0 where it isn't late.
    pub fn add(&mut self, late_by: u64)
        ensures number { self.old.number + 1 < 2 ^ 64 → self.new.number ≡ self.old.number + 1 }
        ensures late { 1 ≤ late_by → self.old.late + 1 < 2 ^ 64 → self.new.late ≡ self.old.late + 1 }
        ensures punctual { late_by ≡ 0 → self.new.late ≡ self.old.late }
        ensures latest { self.new.latest ≡ max self.old.latest late_by }
    {
        self.number = self.number.saturating_add(1);
        if late_by > 0 {
            self.late = self.late.saturating_add(1);
        }
        self.latest = self.latest.max(late_by);
    }
}

/// By how much a request was late that a tick has used up, or 0: of a virtual time after the tick, which the rest of the tick has moved by
/// so much, and of the deadline of the request.
pub(crate) fn late_by(time: i64, moved: u64, deadline: i64) -> u64
    ensures { pos result ≡ int_max (pos 0) ((time -ℤ deadline) -ℤ pos moved) }
{
    if deadline < time {
        time.abs_diff(deadline).saturating_sub(moved)
    } else {
        0
    }
}

/// How far the virtual time of tasks of so much weight in all moves, rounded up, where one of them, of this weight, ages by so much.
pub(crate) fn moved_by(aged: u64, weight: u64, load: u64) -> u64
    ensures { 1 ≤ load → aged * weight + load < 2 ^ 64
        → result ≡ (aged * weight + (load - 1)) / load }
{
    aged.saturating_mul(weight)
        .saturating_add(load.saturating_sub(1))
        .checked_div(load)
        .unwrap_or(0)
}
