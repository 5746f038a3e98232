//! What the plain programs say of a play: its lines and its files.

ghost use Rattle.std.specs.Prelude.{◌≡◌, ◌<◌, ◌^◌, length, IfOk};
ghost use Rattle.plan_model.specs.Limits.{IsSize, IsLevelCount};
ghost use Rattle.plan_plain.specs.SoundRuns.{IsSoundRun};

use clip_regions::Region;
use clip_script::{Step, View, write_log};
use height_pyramid::Grid;
use mesh_plain::{
    Head, PlainMesh, are_drawn, few_triangles, few_vertices, frame_text, is_kept, mesh, seen_text,
};
use plan_model::{Answer, Event};
use plan_plain::{PlainRun, PlainState, is_taken};
use plan_sound::sound_bounds_widen;
use std::alloc::{AllocError, Global};
use std::process::Abort;
use std::test::Fail;

// What a play is over: a terrain, and the size of its grids.
#[derive(Drop)]
pub(crate) struct Ground {
    pub(crate) grid: Grid,
    pub(crate) k: u8,
    ghost size: { IsSize k },
}

// A frame that was begun.
#[derive(Drop)]
struct Frame {
    head: Head,
    actives: Vec<Region>,
}

// The book of a play, and each frame that was begun, by its number.
#[derive(Drop)]
pub(crate) struct Book {
    run: PlainRun,
    x: i32,
    y: i32,
    frames: Vec<Frame>,
}

// What a play has written: its lines and its files.
#[derive(Drop)]
pub(crate) struct Written {
    view: View,
    pub(crate) log: Vec<u8>,
    pub(crate) files: Vec<(String, Vec<u8>)>,
}

// A book of no event.
pub(crate) fn start(alloc: Global, k: u8, levels: u8) -> Result<Book, AllocError>
    requires size { IsSize k }
    requires many { IsLevelCount levels }
    ensures sound { IfOk result (λ book. IsSoundRun book.run) }
{
    let state = PlainState::start(alloc, k, levels)?;
    Ok(Book {
        run: PlainRun::from_state(alloc, state),
        x: 0,
        y: 0,
        frames: Vec::new(alloc),
    })
}

// The active regions of a run's state.
fn actives_of(alloc: Global, run: &PlainRun) -> Result<Vec<Region>, AllocError>
    requires sound { IsSoundRun run.now }
    requires few { length run.now.history < 2 ^ 62 }
{
    sound_bounds_widen();
    run.state().actives(alloc)
}

// Takes an event of a pass. A frame that begins is kept.
fn take(
    rt: &impl Abort,
    alloc: Global,
    book: &mut Book,
    pass: u8,
    event: Event,
) -> Result<Answer, Fail>
    requires sound { IsSoundRun book.old.run }
    ensures sound { IsSoundRun book.new.run }
{
    assert!(rt; pass < 16);
    let events = book.run.history().len();
    assert!(rt; events < 1000000);
    sound_bounds_widen();
    let levels = book.run.state().level_count();
    assert!(rt; is_taken(levels, event));
    if let Event::Move { x, y, a: _ } = event {
        book.x = x;
        book.y = y;
    }
    let actives = actives_of(alloc, &book.run)?;
    let answer = book.run.then_step(alloc, pass, event)?;
    if let Answer::Frame { number } = answer {
        let head = Head {
            number,
            x: book.x,
            y: book.y,
        };
        book.frames.push(Frame { head, actives })?;
    }
    Ok(answer)
}

// The mesh of these active regions.
fn mesh_of(
    rt: &impl Abort,
    alloc: Global,
    ground: &Ground,
    actives: &[Region],
) -> Result<PlainMesh, Fail> {
    assert!(rt; actives.len() <= 12);
    assert!(rt; are_drawn(actives));
    let vertices = few_vertices(alloc, actives)?;
    assert!(rt; vertices);
    let triangles = few_triangles(alloc, actives)?;
    assert!(rt; triangles);
    Ok(mesh(alloc, &ground.grid, ground.k, actives)?)
}

// How many lines of a text begin so.
fn lines_of(text: &[u8], start: &[u8]) -> usize {
    text.split(|byte| *byte == b'\n')
        .filter(|line| line.starts_with(start))
        .count()
}

// The whole text of a frame.
fn whole_of(alloc: Global, frame: &Frame, whole: &PlainMesh) -> Result<Vec<u8>, Fail> {
    let (vertices, triangles) = (whole.vertices(), whole.triangles());
    Ok(frame_text(alloc, &frame.head, &frame.actives, vertices, triangles)?)
}

// The text of what a view keeps of a frame.
fn kept_of(
    rt: &impl Abort,
    alloc: Global,
    frame: &Frame,
    whole: &PlainMesh,
    view: &View,
) -> Result<Vec<u8>, Fail> {
    let vertices = whole.vertices();
    assert!(rt; vertices.len() < 2147483648);
    let (triangles, parts) = (whole.triangles(), whole.parts());
    Ok(seen_text(
        alloc,
        &frame.head,
        &frame.actives,
        vertices,
        triangles,
        parts,
        view.spaces(),
    )?)
}

// How many parts of a mesh a view keeps.
fn count_kept(whole: &PlainMesh, view: &View) -> usize {
    let spaces = view.spaces();
    whole
        .parts()
        .iter()
        .filter(|part| is_kept(spaces, part))
        .count()
}

impl Written {
    // Nothing yet.
    pub(crate) fn new(alloc: Global) -> Written {
        Written {
            view: View::empty(),
            log: Vec::new(alloc),
            files: Vec::new(alloc),
        }
    }

    // A view is looked through from now on.
    fn see(&mut self, alloc: Global, view: View) -> Result<(), Fail> {
        self.view = view;
        self.log.extend_from_slice(b"see")?;
        for space in view.spaces() {
            let (a, b, c, d) = (space.a, space.b, space.c, space.d);
            let text = format!(in alloc; " {a} {b} {c} {d}")?;
            self.log.extend_from_slice(text.as_bytes())?;
        }
        let count = view.count();
        let text = format!(in alloc; ": view {count}\n")?;
        self.log.extend_from_slice(text.as_bytes())?;
        Ok(())
    }

    // A frame ends, whole or as its view keeps it: its file, and the line of this number of a pass.
    fn end(
        &mut self,
        rt: &impl Abort,
        alloc: Global,
        ground: &Ground,
        frame: &Frame,
        step: &Step,
    ) -> Result<(), Fail> {
        let number = frame.head.number;
        let whole = mesh_of(rt, alloc, ground, &frame.actives)?;
        let text = if let Step::EndSeen { .. } = step {
            kept_of(rt, alloc, frame, &whole, &self.view)?
        } else {
            whole_of(alloc, frame, &whole)?
        };
        let (v, f) = (lines_of(&text, b"v "), lines_of(&text, b"f "));
        let (kept, all) = (count_kept(&whole, &self.view), whole.parts().len());
        let line = match *step {
            Step::EndSeen { pass } => format!(in alloc;
                "endseen {pass}: closed {number} kept {kept} of {all} vertices {v} triangles {f}\n"
            )?,
            Step::Book { pass, event: _ } => {
                format!(in alloc; "end {pass}: closed {number} vertices {v} triangles {f}\n")?
            }
            Step::See(_) => String::new(alloc),
        };
        self.log.extend_from_slice(line.as_bytes())?;
        self.files
            .push((format!(in alloc; "out-{number}.obj")?, text))?;
        Ok(())
    }

    // What a step was answered.
    fn tell(
        &mut self,
        rt: &impl Abort,
        alloc: Global,
        ground: &Ground,
        frames: &[Frame],
        step: &Step,
        answer: Answer,
    ) -> Result<(), Fail> {
        if let Answer::Closed { number } = answer {
            let Some(frame) = frames.get(number as usize) else {
                return Err("no such frame".into());
            };
            return self.end(rt, alloc, ground, frame, step);
        }
        if let Step::Book { pass, event } = *step {
            write_log(&mut self.log, pass, &event, &answer)?;
        }
        if let Step::EndSeen { pass } = *step {
            let text = format!(in alloc; "endseen {pass}: noframe\n")?;
            self.log.extend_from_slice(text.as_bytes())?;
        }
        Ok(())
    }
}

// What a step asks of the book, if it does.
fn asked_of(step: &Step) -> Option<(u8, Event)> {
    match *step {
        Step::Book { pass, event } => Some((pass, event)),
        Step::EndSeen { pass } => Some((pass, Event::End)),
        Step::See(_) => None,
    }
}

// Takes a step.
fn play_step(
    rt: &impl Abort,
    alloc: Global,
    ground: &Ground,
    book: &mut Book,
    written: &mut Written,
    step: &Step,
) -> Result<(), Fail>
    requires sound { IsSoundRun book.old.run }
    ensures sound { IsSoundRun book.new.run }
{
    if let Step::See(view) = *step {
        return written.see(alloc, view);
    }
    let Some((pass, event)) = asked_of(step) else {
        return Ok(());
    };
    let answer = take(rt, alloc, book, pass, event)?;
    written.tell(rt, alloc, ground, &book.frames, step, answer)
}

// Takes the steps of a script over a terrain, one after another.
pub(crate) fn play(
    rt: &impl Abort,
    alloc: Global,
    ground: &Ground,
    book: &mut Book,
    written: &mut Written,
    steps: &[Step],
) -> Result<(), Fail>
    requires sound { IsSoundRun book.old.run }
{
    for step in steps {
        play_step(rt, alloc, ground, book, written, step)?;
    }
    Ok(())
}
