//! Reading a level of a pass's frame.

ghost use Rattle.std.specs.Prelude.{◌≡◌, ◌<◌, ◌≤◌, map, vec_capacity, IsSome};
ghost use Rattle.clip_regions.specs.Regions.{area, cells};
ghost use Rattle.terrain_model.specs.Terrain.{level_height};
ghost use Rattle.plan_model.specs.States.{frame_of};
ghost use Rattle.clip_gate.specs.Passes.{part_of, shown_by};
ghost use Rattle.clip_gate.specs.Calls.{HasWaited};
ghost use Rattle.clip_gate.specs.Reading.{IsShown};

use crate::cells::{cell_at, columns, rows};
use crate::clip::Clip;
use crate::pass::Pass;
use clip_book::{Book, read_by_places_are_listed};
use clip_regions::Region;
use gate_rule::{enter, leave};
use plan_holds::steps_go_on;
use plan_laws::actives_are_as_many;
use std::sync::Wait;

impl Clip {
    /// Replaces `out` by the heights of a level in the pass's frame, in metres: those of the cells of its active
    /// region, row by row. It takes no memory, and makes no entry.
    pub fn read_level(&self, rt: &impl Wait, pass: &mut Pass, level: u8, out: &mut Vec<i16>)
        requires clip { pass.old.clip ≡ self.now }
        requires level { level < self.now.land.levels }
        requires frame { IsSome (frame_of (part_of pass.old)) }
        requires room { area (shown_by pass.old level) ≤ vec_capacity out.old }
        ensures heights { out.new.items ≡
            map (λ c. level_height self.now.land.terrain level c.0 c.1) (cells (shown_by pass.old level)) }
        ensures waited { HasWaited pass.old pass.new }
    {
        actives_are_as_many();
        steps_go_on();
        let desk = enter(rt, &self.table, &mut pass.seat);
        let frame = desk.book.frame_of(pass.number).unwrap();
        let region = frame.actives.at(level);
        read_region(&desk.book, pass.number, level, region, out);
        leave(&self.table, &mut pass.seat, desk);
    }
}

// Reads the heights of a region that the frame of a pass shows, row by row.
fn read_region(book: &Book, pass: u8, level: u8, region: Region, out: &mut Vec<i16>)
    requires shown { IsShown book.now pass level region }
    requires room { area region ≤ vec_capacity out.old }
    ensures { out.new.items ≡ map (λ c. level_height book.now.land.terrain level c.0 c.1) (cells region) }
{
    read_by_places_are_listed();
    out.clear();
    let columns = columns(region);
    let rows = rows(region);
    for place in 0..u64::from(columns) * u64::from(rows) {
        let cell = cell_at(region, columns, rows, place);
        out.push_reserved(book.height(pass, level, cell.i, cell.j));
    }
}
