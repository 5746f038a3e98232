//! Worked examples: jobs filled by a store, and frames that are drawn of what was filled.

ghost use Rattle.std.specs.Prelude.{◌≡◌, ◌<◌, ◌≤◌, [], ◌∷◌, IsTrue, IfOk};
ghost use Rattle.clip_regions.specs.Regions.{empty_region};
ghost use Rattle.plan_model.specs.Limits.{IsSize};
ghost use Rattle.terrain_store.specs.Stores.{land_of};
ghost use Rattle.decode_workers.specs.Copies.{AreCopies};

use crate::{Filler, LevelCopies, NoMemory, draw, draw_copies, filled_jobs_go_back};
use active_region::Actives;
use clip_book::{Begun, Book, Claimed, Ended, Given, Published};
use clip_regions::Region;
use grid_frames::grid_mesh;
use height_pyramid::Grid;
use obj_frames::{Header, Mesh, frame_text};
use std::alloc::Global;
use std::process::Abort;
use std::test::Fail;
use terrain_store::{Store, pack};

// A store and the book of its terrain.
#[derive(Drop)]
struct Desk {
    store: Store,
    book: Book,
    ghost names: { book.land ≡ land_of store },
}

// What a claim of a desk came to.
#[derive(Clone, Copy, PartialEq, Eq, Debug)]
enum Turn {
    Filled,
    Grown,
    Settled,
    Stuck,
}

impl Desk {
    // The book of a grid's terrain, packed in so many levels, for K.
    fn new(alloc: Global, grid: &Grid, levels: u8, k: u8) -> Result<Desk, Fail>
        requires size { IsSize k }
        requires some { 1 ≤ levels }
        requires few { levels ≤ 12 }
    {
        let Ok(store) = pack(alloc, grid, levels) else {
            return Err("no memory".into());
        };
        let Ok(book) = Book::start(alloc, store.shape(), k) else {
            return Err("no memory".into());
        };
        Ok(Desk { store, book })
    }

    // A pass claims a piece, has it filled by the store and gives it back, or publishes the ripe level that it is told.
    fn turn(&mut self, rt: &impl Abort, pass: u8) -> Turn
        requires { pass < 16 }
    {
        filled_jobs_go_back();
        match self.book.claim(pass) {
            Claimed::Job(job) => {
                let filled = self.store.fill(job);
                assert!(rt; self.book.give_back(pass, filled) == Given::Kept);
                Turn::Filled
            }
            Claimed::Ripe { level } => {
                assert!(rt; level < self.book.levels());
                assert!(rt; matches!(self.book.publish(level), Published::Grown(_)));
                Turn::Grown
            }
            Claimed::Idle => Turn::Settled,
            _ => Turn::Stuck,
        }
    }

    // So many turns, and how many of them filled a piece.
    fn turns(&mut self, rt: &impl Abort, pass: u8, most: u32) -> u32
        requires { pass < 16 }
    {
        let mut filled = 0u32;
        for _ in 0..most {
            match self.turn(rt, pass) {
                Turn::Filled => filled = filled.saturating_add(1),
                Turn::Grown => {}
                _ => return filled,
            }
        }
        filled
    }

    // The viewer moves.
    fn move_to(&mut self, rt: &impl Abort, x: i32, y: i32) {
        assert!(rt; self.book.moves() < 1000);
        assert!(rt; -4194304 <= x && x <= 4194304 && -4194304 <= y && y <= 4194304);
        self.book.move_to(x, y, 0);
    }

    // A pass begins a frame. Its number and its active regions.
    fn begin(&mut self, rt: &impl Abort, pass: u8) -> Result<(u64, Actives), Fail>
        requires { pass < 16 }
    {
        assert!(rt; self.book.begun() < 1000);
        match self.book.begin(pass) {
            Begun::Frame { number, actives } => Ok((number, actives)),
            _ => Err("no frame".into()),
        }
    }

    // The mesh of the frame of a pass.
    fn draw(&self, rt: &impl Abort, alloc: Global, pass: u8) -> Result<Mesh, Fail>
        requires { pass < 16 }
    {
        assert!(rt; self.book.frame_of(pass).is_some());
        match draw(alloc, &self.book, pass) {
            Ok(mesh) => Ok(mesh),
            Err(_) => Err("no memory".into()),
        }
    }
}

// The 3 x 3 samples of heights 1 to 9.
fn nine(alloc: Global) -> Result<Grid, Fail> {
    Ok(Grid::new(3, 3, vec![in alloc; 1i16, 2, 3, 4, 5, 6, 7, 8, 9]?))
}

// Whether two meshes have the same lists.
fn are_same(one: &Mesh, other: &Mesh) -> bool {
    one.vertices() == other.vertices()
        && one.triangles() == other.triangles()
        && one.parts() == other.parts()
}

// Line `number` of a text, counted from 0.
fn line(text: &[u8], number: usize) -> &[u8] {
    text.split(|byte| *byte == b'\n').nth(number).unwrap_or(b"")
}

#[test]
fn the_first_frame_by_nine_fills(rt: HostRuntime) -> Result<(), Fail> {
    let alloc = rt.alloc();
    let mut desk = Desk::new(alloc, &nine(alloc)?, 1, 4)?;
    desk.move_to(&rt, 1, 1);
    assert_eq!(rt; desk.turns(&rt, 0, 100), 9);
    let (number, actives) = desk.begin(&rt, 0)?;
    let mesh = desk.draw(&rt, alloc, 0)?;
    let header = Header {
        number,
        x: 1,
        y: 1,
        actives,
    };
    let text = frame_text(alloc, &mesh, &header)?;
    let text = text.as_slice();
    assert_eq!(rt; text.iter().filter(|byte| **byte == b'\n').count(), 620);
    let lines = [
        (0, "# clipmap frame 0"),
        (1, "# viewer 1 1"),
        (2, "# level 0 active -6 -6 8 8"),
        (3, "v -6 0.00000 -6"),
        (99, "v 0 1.00000 0"),
        (100, "v 1 2.00000 0"),
        (131, "v 2 9.00000 2"),
        (228, "f 1 16 17"),
        (229, "f 1 17 2"),
        (618, "f 209 224 225"),
        (619, "f 209 225 210"),
        (620, ""),
    ];
    for (number, want) in lines {
        assert!(rt; line(text, number) == want.as_bytes(), "line {number}");
    }
    assert_eq!(rt; desk.book.end(0), Ended::Closed { number: 0 });
    Ok(())
}

// Two frames that were begun before moves are drawn after them: the pins alone keep their cells.
#[test]
fn a_frame_after_a_move_of_a_thousand_samples(rt: HostRuntime) -> Result<(), Fail> {
    let alloc = rt.alloc();
    let grid = nine(alloc)?;
    let mut desk = Desk::new(alloc, &grid, 1, 4)?;
    desk.move_to(&rt, 1, 1);
    assert_eq!(rt; desk.turns(&rt, 0, 100), 9);
    let (_, actives) = desk.begin(&rt, 0)?;
    let before = desk.draw(&rt, alloc, 0)?;
    desk.move_to(&rt, 1001, 1);
    desk.turns(&rt, 1, 100);
    desk.move_to(&rt, 1, 1);
    let after = desk.draw(&rt, alloc, 0)?;
    assert!(rt; are_same(&before, &after));
    let whole = grid_mesh(alloc, 4, &actives, &grid)?;
    assert!(rt; are_same(&whole, &after));
    Ok(())
}

#[test]
fn two_levels_over_the_flat_tile(rt: HostRuntime) -> Result<(), Fail> {
    let alloc = rt.alloc();
    let grid = Grid::new(3, 3, vec![in alloc; 0i16, 0, 0, 0, 0, 0, 0, 0, 0]?);
    let mut desk = Desk::new(alloc, &grid, 2, 4)?;
    desk.move_to(&rt, 1, 1);
    assert_eq!(rt; desk.turns(&rt, 0, 100), 18);
    let (_, _) = desk.begin(&rt, 0)?;
    let mesh = desk.draw(&rt, alloc, 0)?;
    assert_eq!(rt; mesh.vertices().len(), 386);
    assert_eq!(rt; mesh.triangles().len(), 714);
    Ok(())
}

// The next number of a generator of 64 bits, and so many bits of it.
fn drawn(seed: &mut u64, below: u32) -> u32
    requires { 1 ≤ below }
    ensures { result < below }
{
    *seed = seed
        .wrapping_mul(6364136223846793005)
        .wrapping_add(1442695040888963407);
    let high = (*seed >> 33) as u32;
    high % below
}

// A terrain of so many columns and rows of random heights.
fn random_terrain(alloc: Global, seed: &mut u64, side: u32) -> Result<Grid, Fail>
    requires some { 1 ≤ side }
    requires few { side ≤ 100 }
{
    let count = side as usize * side as usize;
    let mut heights = Vec::new(alloc);
    heights.resize(count, 0i16)?;
    for height in heights.as_mut_slice() {
        *height = drawn(seed, 30000) as i16 - 15000;
    }
    Ok(Grid::new(side, side, heights))
}

// One random flight: part of what is wanted is filled, a frame begins, the viewer moves on and more is filled.
fn one_flight(rt: &impl Abort, alloc: Global, seed: &mut u64, k: u8) -> Result<(), Fail>
    requires { IsSize k }
{
    let side = 1 + drawn(seed, 60);
    let grid = random_terrain(alloc, seed, side)?;
    let mut desk = Desk::new(alloc, &grid, 3, k)?;
    for pass in 0..6u8 {
        desk.move_to(rt, drawn(seed, 60) as i32 - 10, drawn(seed, 60) as i32 - 10);
        let most = drawn(seed, 60);
        desk.turns(rt, 15, most);
        let (_, _) = desk.begin(rt, pass)?;
    }
    for pass in 0..6u8 {
        desk.move_to(rt, drawn(seed, 2000) as i32 - 1000, drawn(seed, 60) as i32);
        desk.turns(rt, 15, 10);
        let mesh = desk.draw(rt, alloc, pass)?;
        let Some(frame) = desk.book.frame_of(pass) else {
            return Err("no frame".into());
        };
        let whole = grid_mesh(alloc, k, &frame.actives, &grid)?;
        assert!(rt; are_same(&mesh, &whole));
    }
    Ok(())
}

// Room for the copies of a frame of one level that shows nothing, which are its copies already.
fn empty_copies(alloc: Global, actives: &Actives) -> Result<LevelCopies, NoMemory>
    requires { actives.now ≡ empty_region ∷ [] }
    ensures { IfOk result AreCopies }
{
    let _levels = actives.levels();
    LevelCopies::room(alloc, 4, actives)
}

// Whether these are the active regions of one level that shows nothing.
fn is_empty_level(actives: &Actives) -> bool
    ensures { IsTrue result → actives.now ≡ empty_region ∷ [] }
{
    actives.levels() == 1 && actives.at(0) == Region::empty()
}

// Before anything is filled a frame shows nothing: its copies are empty, and so is their mesh.
#[test]
fn copies_of_an_empty_frame(rt: HostRuntime) -> Result<(), Fail> {
    let alloc = rt.alloc();
    let mut desk = Desk::new(alloc, &nine(alloc)?, 1, 4)?;
    let (_, actives) = desk.begin(&rt, 0)?;
    assert!(rt; is_empty_level(&actives));
    let copies = empty_copies(alloc, &actives)?;
    let mesh = draw_copies(alloc, &copies)?;
    assert_eq!(rt; mesh.vertices().len(), 0);
    let mut room = LevelCopies::room(alloc, 4, &actives)?;
    let heights = room.level_mut(0);
    assert!(rt; heights.is_empty());
    heights.push(7)?;
    assert!(rt; room.level_mut(0).as_slice() == [7i16].as_slice());
    Ok(())
}

fn moves<T: Send>(_value: &T) {}

fn is_shared<T: Sync>(_value: &T) {}

// What works at one time on one book: fills have jobs of their own, and drawing looks into the book.
#[test]
fn threads_fill_and_draw(rt: HostRuntime) -> Result<(), Fail> {
    let alloc = rt.alloc();
    let mut desk = Desk::new(alloc, &nine(alloc)?, 1, 4)?;
    is_shared(&desk.store);
    is_shared(&desk.book);
    if let Claimed::Job(job) = desk.book.claim(0) {
        moves(&job);
        moves(&desk.store.fill(job));
    }
    let (_, actives) = desk.begin(&rt, 1)?;
    moves(&desk.draw(&rt, alloc, 1)?);
    moves(&LevelCopies::room(alloc, 4, &actives)?);
    Ok(())
}

#[test]
fn random_flights_of_three_levels(rt: HostRuntime) -> Result<(), Fail> {
    let mut seed = 7u64;
    for _ in 0..6u32 {
        one_flight(&rt, rt.alloc(), &mut seed, 4)?;
    }
    one_flight(&rt, rt.alloc(), &mut seed, 5)
}
