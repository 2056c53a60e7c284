// The refusals of fitting alone before it fits: numbers 1, 7 and 10, in this order.
#![tactic(auto)]

ghost use Rattle.std.specs.Prelude.{◌≡◌, ◌≤◌};
ghost use Rattle.words.specs.Widths.{range_count, want_count};
ghost use Rattle.want_checks.specs.Checks.{wants_verdict, over_limit, bad_count, bad_space, verdict};

use refusals::{Refusal, Refused, Verdict};
use words::widths::{cell, item, range, want};

// The most wants of locals and of slots, ranges, and probes.
const WANTS: usize = 2048;

const RANGES: usize = 65536;

const BUDGET: u32 = 1048576;

// The first want whose part is bad.
fn bad_wants(wants: &[u32], areas: &[u32]) -> Verdict
    ensures { result ≡ wants_verdict areas.now wants.now }
{
    let n = wants.len() / want::WIDTH;
    for i in 0..n {
        let at = want::WIDTH * i;
        let look = range_walk::walk(
            areas,
            wants[at + want::PRESENT],
            wants[at + want::FIRST],
            wants[at + want::RANGES],
        );
        if !look.fine {
            return Err(Refused(Refusal::Want, i));
        }
    }
    Ok(())
}

// Whether a list is no whole rows, or a count is over its limit.
pub fn bad_count(
    wants: &[u32],
    areas: &[u32],
    locals: u32,
    budget: u32,
    cells: usize,
    items: usize,
) -> bool
    ensures { result ≡ bad_count wants.now areas.now locals budget cells items }
{
    if wants.len() % want::WIDTH != 0 {
        return true;
    }
    if areas.len() % range::WIDTH != 0 {
        return true;
    }
    if cells % cell::WIDTH != 0 {
        return true;
    }
    if items % item::WIDTH != 0 {
        return true;
    }
    over_limit(
        wants.len() / want::WIDTH,
        areas.len() / range::WIDTH,
        locals as usize,
        budget,
    )
}

fn over_limit(wants: usize, ranges: usize, locals: usize, budget: u32) -> bool
    ensures { result ≡ over_limit wants ranges locals budget }
{
    if wants < locals {
        return true;
    }
    if WANTS < locals {
        return true;
    }
    if WANTS < wants - locals {
        return true;
    }
    if RANGES < ranges {
        return true;
    }
    BUDGET < budget
}

// Whether the work space or an answer list is too short.
fn bad_space(
    wants: &[u32],
    areas: &[u32],
    cells: usize,
    items: usize,
    offsets: usize,
    work: usize,
) -> bool
    requires { (want_count wants.now ≤ 4096) × (range_count areas.now ≤ 65536) }
    ensures { result ≡ bad_space wants.now areas.now cells items offsets work }
{
    let n = wants.len() / want::WIDTH;
    if work < 8 * (n + areas.len() / range::WIDTH) {
        return true;
    }
    if cells / cell::WIDTH < n {
        return true;
    }
    if items / item::WIDTH < n {
        return true;
    }
    offsets < n
}

// Of the entry, by the lent lists and the lengths of the answer lists and the work space.
pub fn refusal(
    wants: &[u32],
    areas: &[u32],
    locals: u32,
    budget: u32,
    cells: usize,
    items: usize,
    offsets: usize,
    work: usize,
) -> Verdict
    ensures { result ≡ verdict wants.now areas.now locals budget cells items offsets work }
{
    if bad_count(wants, areas, locals, budget, cells, items) {
        return Err(Refused(Refusal::Count, 0));
    }
    if bad_space(wants, areas, cells, items, offsets, work) {
        return Err(Refused(Refusal::Space, 0));
    }
    bad_wants(wants, areas)
}
