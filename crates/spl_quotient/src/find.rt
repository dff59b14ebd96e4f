//! The search for a remainder in a table.
//!
//! The home of a quotient is the position of the slot with its number. Its run may begin later, behind the runs of
//! quotients before it, and the search stays within one cluster: it goes back over the shifted slots to where the
//! cluster starts, and counts the occupied homes on the way. The wanted run has that number in the cluster, since runs
//! lie in the order of their homes.
ghost use Rattle.std.specs.Prelude.{◌≡◌, ◌≤◌, ◌<◌, ◌+◌, suc, length, true, false};
ghost use Rattle.spl_quotient.specs.Counts.{some_below};
ghost use Rattle.spl_quotient.specs.Table.{at, occupied_at, begins_at, homes, runs, has_at, has, IsLaid};

use crate::table::Table;

/// Whether the table has the remainder in the run of the home.
pub(crate) fn has(table: &Table, home: usize, remainder: u16) -> bool
    requires laid { IsLaid table.now.slots }
    requires within { home < length table.now.slots }
    ensures { result ≡ has table.now.slots home remainder }
{
    table.slot_at(home).is_occupied() && run_has(table, run_of(table, home), remainder)
}

/// The first position of the run of an occupied home.
fn run_of(table: &Table, home: usize) -> usize
    requires laid { IsLaid table.now.slots }
    requires within { home < length table.now.slots }
    requires occupied { occupied_at table.now.slots home ≡ true }
    ensures within { result < length table.now.slots }
    ensures begins { begins_at table.now.slots result ≡ true }
    ensures number { runs table.now.slots (suc result) ≡ homes table.now.slots (suc home) }
{
    let cluster = cluster_of(table, home);
    nth_run(table, cluster.start, cluster.homes)
}

/// Where a cluster starts, and how many of its slots are occupied up to a home.
#[derive(Clone, Copy)]
struct Cluster {
    start: usize,
    homes: usize,
}

fn cluster_of(table: &Table, home: usize) -> Cluster
    requires laid { IsLaid table.now.slots }
    requires within { home < length table.now.slots }
    requires occupied { occupied_at table.now.slots home ≡ true }
    ensures start { result.start ≤ home }
    ensures unshifted { (at table.now.slots result.start).shifted ≡ false }
    ensures some { 0 < result.homes }
    ensures homes { homes table.now.slots result.start + result.homes ≡ homes table.now.slots (suc home) }
{
    let mut start = home;
    let mut homes = 1;
    let mut slot = table.slot_at(home);
    while slot.is_shifted() {
        start -= 1;
        slot = table.slot_at(start);
        if slot.is_occupied() {
            homes += 1;
        }
    }
    Cluster { start, homes }
}

/// The position where the run with this number begins, counted from 1 at the start.
fn nth_run(table: &Table, start: usize, number: usize) -> usize
    requires some { 0 < number }
    requires start { start ≤ length table.now.slots }
    requires enough { runs table.now.slots start + number ≤ runs table.now.slots (length table.now.slots) }
    ensures within { result < length table.now.slots }
    ensures begins { begins_at table.now.slots result ≡ true }
    ensures number { runs table.now.slots (suc result) ≡ runs table.now.slots start + number }
{
    let mut left = number;
    for position in start..table.len() {
        if table.slot_at(position).begins_run() {
            left -= 1;
            if left == 0 {
                return position;
            }
        }
    }
    unreachable!()
}

/// Whether the run that begins at the position has the remainder.
fn run_has(table: &Table, run: usize, remainder: u16) -> bool
    requires laid { IsLaid table.now.slots }
    requires within { run < length table.now.slots }
    requires begins { begins_at table.now.slots run ≡ true }
    ensures { result ≡ some_below (has_at table.now.slots (runs table.now.slots (suc run)) remainder) (length table.now.slots) }
{
    if table.slot_at(run).remainder() == remainder {
        return true;
    }
    let end = table.len();
    for position in run + 1..end {
        let slot = table.slot_at(position);
        if !slot.is_continuation() {
            return false;
        }
        if slot.remainder() == remainder {
            return true;
        }
    }
    false
}
