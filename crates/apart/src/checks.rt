// The refusals of `apart`: numbers 1 and 7, in this order.
ghost use Rattle.std.specs.Prelude.{◌≡◌};
ghost use Rattle.apart.specs.Apart.{apart_count, apart_space, apart_verdict};

use refusals::{Refusal, Refused, Verdict};
use words::widths::{cell, item, local};

// The most locals and slots.
const MOST: usize = 2048;

fn apart_count(locals: &[u32], slots: &[u32], cells: usize, items: usize) -> bool
    ensures { result ≡ apart_count locals.now slots.now cells items }
{
    if locals.len() % local::WIDTH != 0 {
        return true;
    }
    if cells % cell::WIDTH != 0 {
        return true;
    }
    if items % item::WIDTH != 0 {
        return true;
    }
    if MOST < locals.len() / local::WIDTH {
        return true;
    }
    MOST < slots.len()
}

fn apart_space(n: usize, cells: usize, items: usize) -> bool
    ensures { result ≡ apart_space n cells items }
{
    if cells / cell::WIDTH < n {
        return true;
    }
    items / item::WIDTH < n
}

// Of `apart`, by the lengths of its answer lists.
pub fn apart(locals: &[u32], slots: &[u32], cells: usize, items: usize) -> Verdict
    ensures { result ≡ apart_verdict locals.now slots.now cells items }
{
    if apart_count(locals, slots, cells, items) {
        return Err(Refused(Refusal::Count, 0));
    }
    if apart_space(locals.len() / local::WIDTH + slots.len(), cells, items) {
        return Err(Refused(Refusal::Space, 0));
    }
    Ok(())
}
