// Reaching by steps, over 64 sets: row a has the numbers that a steps to. Every row goes through one number after the other: once it has
// gone through those below c, row a has what is reached from a through numbers below c.
ghost use Rattle.std.specs.Prelude.{◌≡◌, ◌||◌, ◌&&◌, ℕ, ◌≤◌, ◌<◌};
ghost use Rattle.type_hierarchy.specs.Sets.{member, step_of};
ghost use Rattle.rules_required_cycle.specs.Closing.{Through, Closed};

use type_hierarchy::type_sets::in_set;

// The row, and row c where c is in the set.
pub fn with_row(rows: &[u64; 64], set: u64, row: u64, c: u16) -> u64
    requires { c < 64 }
    ensures { (b : ℕ) → b < 64 → member result b ≡ (member row b || (member set c && step_of rows.now c b)) }
{
    if in_set(set, c) {
        return row | rows[c as usize];
    }
    row
}

// The rows below n go through c too.
fn go_through(rows: &mut [u64; 64], n: u16, c: u16)
    requires { (n ≤ 64) × (c < n) }
    ensures { Through n c rows.old rows.new }
{
    for a in 0..n {
        let row = rows[a as usize];
        rows[a as usize] = with_row(rows, row, row, c);
    }
}

// The rows below n get what their numbers reach in one or more steps.
pub(crate) fn close_rows(rows: &mut [u64; 64], n: u16)
    requires { n ≤ 64 }
    ensures { Closed n rows.old rows.new }
{
    for c in 0..n {
        go_through(rows, n, c);
    }
}
