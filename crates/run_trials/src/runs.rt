//! Runs of a course over a shelf and a sink in memory.

ghost use Rattle.std.specs.Prelude.{◌≡◌, IfOk};
ghost use Rattle.plan_model.specs.Limits.{IsLevelCount};
ghost use Rattle.clip_script.specs.Scripts.{fly_view, play_view};
ghost use Rattle.clip_runs.specs.Courses.{IsCourseInRange, IsFlyInRange, IsPlayInRange, course_view};
ghost use Rattle.terrain_store.specs.Stores.{land_of};

use clip_runs::{Course, Filler, run_course};
use clip_script::{FlyScript, PlayScript, read_fly, read_play};
use height_pyramid::Grid;
use outer_shelf::{MemoryShelf, MemorySink};
use std::alloc::Global;
use std::test::Fail;
use std::thread::Threads;
use terrain_store::{Store, pack};

// The store of the heights 1 to 9 in 3 × 3 samples, in so many levels.
pub(crate) fn nine(alloc: Global, levels: u8) -> Result<Store, Fail>
    requires { IsLevelCount levels }
    ensures { IfOk result (λ store. (land_of store).levels ≡ levels) }
{
    let grid = Grid::new(3, 3, vec![in alloc; 1i16, 2, 3, 4, 5, 6, 7, 8, 9]?);
    Ok(pack(alloc, &grid, levels)?)
}

// The store of 3 × 3 samples that are 0, in so many levels.
pub(crate) fn flat(alloc: Global, levels: u8) -> Result<Store, Fail>
    requires { IsLevelCount levels }
    ensures { IfOk result (λ store. (land_of store).levels ≡ levels) }
{
    let grid = Grid::new(3, 3, vec![in alloc; 0i16; 9]?);
    Ok(pack(alloc, &grid, levels)?)
}

// Hills without a pattern, 60 × 50 samples, of a seed.
pub(crate) fn hills(alloc: Global, seed: u64) -> Result<Grid, Fail> {
    let mut heights = vec![in alloc; 0i16; 3000]?;
    let mut n = seed;
    for height in &mut heights {
        n = n
            .wrapping_mul(6364136223846793005)
            .wrapping_add(1442695040888963407);
        *height = (n >> 51) as i16;
    }
    Ok(Grid::new(60, 50, heights))
}

// The store of a terrain, in so many levels.
pub(crate) fn packed(alloc: Global, grid: &Grid, levels: u8) -> Result<Store, Fail>
    requires { IsLevelCount levels }
    ensures { IfOk result (λ store. (land_of store).levels ≡ levels) }
{
    Ok(pack(alloc, grid, levels)?)
}

// What a run left: the shelf and the sink.
#[derive(Drop)]
pub(crate) struct Left {
    shelf: MemoryShelf,
    sink: MemorySink,
}

impl Left {
    // The lines that were written.
    pub(crate) fn log(&self) -> &[u8] {
        self.sink.bytes()
    }

    // The bytes of a file, or nothing.
    pub(crate) fn file(&self, name: &str) -> &[u8] {
        self.shelf.file(name).unwrap_or(b"")
    }
}

// Runs a course, under the name `out`, which must end with status 0.
pub(crate) fn run<R: Threads + Sync + AllocGlobal, F: Filler + Sync>(
    rt: &R,
    filler: &F,
    course: &Course<'_>,
) -> Result<Left, Fail>
    requires in_range { IsCourseInRange (F.land filler.now).levels (course_view course.now) }
{
    let alloc = rt.alloc();
    let mut shelf = MemoryShelf::new(alloc, Vec::new(alloc), Vec::new(alloc))?;
    let mut sink = MemorySink::new(alloc, Vec::new(alloc));
    let status = run_course(rt, alloc, filler, course, "out", &mut shelf, &mut sink);
    if status != 0 {
        return Err("a run wasn't done".into());
    }
    Ok(Left { shelf, sink })
}

// A play script that is read, of so many levels.
pub(crate) fn script_of(alloc: Global, text: &[u8], levels: u8) -> Result<PlayScript, Fail>
    ensures { IfOk result (λ script. IsPlayInRange levels (play_view script)) }
{
    let script = read_play(alloc, text)?;
    if script.levels != levels {
        return Err("other levels".into());
    }
    Ok(script)
}

// A fly script that is read, of so many levels.
pub(crate) fn flight_of(alloc: Global, text: &[u8], levels: u8) -> Result<FlyScript, Fail>
    ensures { IfOk result (λ script. IsFlyInRange levels (fly_view script)) }
{
    let script = read_fly(alloc, text)?;
    if script.levels != levels {
        return Err("other levels".into());
    }
    Ok(script)
}
