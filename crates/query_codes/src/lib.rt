// The queries' answers in one number.
#![tactic(auto)]

ghost use Rattle.std.specs.Prelude.{◌≡◌, ◌≤◌, length};
ghost use Rattle.queries.specs.Entry.{local_of, slot_of};
ghost use Rattle.codes.specs.Codes.{option_code};
ghost use Rattle.query_codes.specs.Codes.{told_of, PartTold};
ghost use Rattle.refusals.specs.Outcomes.{found};

use codes::{ABSENT, refused};
use queries::Stretch;
use refusals::{Refusal, Refused};

// The cell of a local.
pub fn local(cells: &[u32], items: &[u32], locals: u32, i: u32) -> u64
    ensures { result ≡ option_code (local_of cells.now items.now locals i) }
{
    codes::found(queries::local(cells, items, locals, i))
}

// The cell of a slot.
pub fn slot(cells: &[u32], items: &[u32], locals: u32, i: u32) -> u64
    ensures { result ≡ option_code (slot_of cells.now items.now locals i) }
{
    codes::found(queries::slot(cells, items, locals, i))
}

// `queries::shared`, its part told as the first range and how many. Refuses as that does, and a list under two numbers (7), after number 1 and before 10.
pub fn shared(
    cells: &[u32],
    items: &[u32],
    areas: &[u32],
    locals: u32,
    i: u32,
    part: &mut [u64],
) -> u64
    ensures { PartTold (told_of cells.now items.now areas.now locals i (length part.old)) part.old result part.new }
{
    if part.len() < 2 {
        if query_checks::counts(cells, items, areas, locals) {
            return refused(Refusal::Count, 0);
        }
        return refused(Refusal::Space, 0);
    }
    let s = queries::shared(cells, items, areas, locals, i);
    tell(part, s)
}

#[tactic(auto, using(crate::proofs::CodeLaws::part_told, crate::proofs::CodeLaws::part_absent))]
fn tell(part: &mut [u64], s: Result<Option<Stretch>, Refused>) -> u64
    requires { 2 ≤ length part.old }
    ensures { PartTold (found s) part.old result part.new }
{
    match s {
        Ok(Some(Stretch { first, count })) => {
            part[0] = first as u64;
            part[1] = count as u64;
            0
        }
        Ok(None) => ABSENT,
        Err(Refused(r, i)) => refused(r, i),
    }
}
