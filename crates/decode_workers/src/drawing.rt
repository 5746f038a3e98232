//! The mesh of a frame of a book.

ghost use Rattle.std.specs.Prelude.{◌≡◌, ◌<◌, IsSome, IfOk};
ghost use Rattle.plan_model.specs.States.{pass_at, frame_of};
ghost use Rattle.decode_workers.specs.Drawn.{IsFrameMesh};

use crate::book_heights::BookHeights;
use clip_book::Book;
use obj_frames::{Mesh, NoMemory};
use ring_mesh::{rings, rings_beside};
use std::alloc::Global;
use std::thread::Threads;
use stitches::close;

// The heights of the frame of a pass that has one.
fn heights_of<'a>(book: &'a Book, pass: u8) -> BookHeights<'a>
    requires pass { pass < 16 }
    requires frame { IsSome (frame_of (pass_at book.now.plan.state pass)) }
    ensures book { result.book.now ≡ book.now }
    ensures pass { result.pass ≡ pass }
{
    let Some(frame) = book.frame_of(pass) else {
        unreachable!()
    };
    BookHeights {
        book,
        pass,
        actives: frame.actives,
    }
}

/// The mesh of the frame of pass `pass`, 0 to 15, from the book alone. The pass has a frame.
///
/// However the book changed since the frame was begun, the mesh is that of the terrain at the frame's active regions.
/// The only refusal is want of memory.
pub fn draw(alloc: Global, book: &Book, pass: u8) -> Result<Mesh, NoMemory>
    requires pass { pass < 16 }
    requires frame { IsSome (frame_of (pass_at book.now.plan.state pass)) }
    ensures mesh { IfOk result (IsFrameMesh book.now pass) }
{
    let heights = heights_of(book, pass);
    let open = rings(alloc, book.k(), &heights.actives, &heights)?;
    close(open, &heights.actives)
}

/// The mesh of [`draw`], a large one made by as many threads as pay on this machine.
pub fn draw_beside<R: Threads + Sync>(
    rt: &R,
    alloc: Global,
    book: &Book,
    pass: u8,
) -> Result<Mesh, NoMemory>
    requires pass { pass < 16 }
    requires frame { IsSome (frame_of (pass_at book.now.plan.state pass)) }
    ensures mesh { IfOk result (IsFrameMesh book.now pass) }
{
    let heights = heights_of(book, pass);
    let open = rings_beside(rt, alloc, book.k(), &heights.actives, &heights)?;
    close(open, &heights.actives)
}
