//! The first events of a book of a small terrain.

use super::*;
use clip_regions::Region;
use height_pyramid::Grid;
use plan_model::TileId;
use std::alloc::Global;
use std::process::Abort;
use std::test::Fail;
use terrain_store::pack;

// The book of the heights 1 to 9 in 3 x 3 samples, in two levels, for K = 4.
fn book(alloc: Global) -> Result<Book, Fail> {
    let grid = Grid::new(3, 3, vec![in alloc; 1i16, 2, 3, 4, 5, 6, 7, 8, 9]?);
    let Ok(store) = pack(alloc, &grid, 2) else {
        return Err("no memory".into());
    };
    let Ok(book) = Book::start(alloc, store.shape(), 4) else {
        return Err("no memory".into());
    };
    Ok(book)
}

// A claim of which this job of level 1 is wanted.
fn wants_job(rt: &impl Abort, book: &mut Book, pass: u8, bx: i32, by: i32, cells: Region) {
    assert!(rt; pass < 16);
    match book.claim(pass) {
        Claimed::Job(job) => {
            assert_eq!(rt;
                (job.level(), job.bx(), job.by(), job.plan()),
                (1, bx, by, 0)
            );
            assert_eq!(rt; job.cells(), cells);
            // The coarsest level needs nothing.
            assert_eq!(rt; job.patch().h, [[0; 7]; 7]);
        }
        _ => assert!(rt; false),
    }
}

#[test]
fn the_first_claims(rt: HostRuntime) -> Result<(), Fail> {
    let mut book = book(rt.alloc())?;
    let cells = Region {
        x0: -6,
        y0: -6,
        x1: -1,
        y1: -1,
    };
    wants_job(&rt, &mut book, 0, -1, -1, cells);
    let next = Region {
        x0: 0,
        y0: -6,
        x1: 7,
        y1: -1,
    };
    wants_job(&rt, &mut book, 1, 0, -1, next);
    assert!(rt; matches!(book.claim(0), Claimed::HasWork));
    assert!(rt; book.has_job(1) && !book.has_job(2));
    let third = Region {
        x0: -6,
        y0: 0,
        x1: -1,
        y1: 7,
    };
    // The next block, (1, -1), has the tile of block (-1, -1), which pass 0 holds.
    wants_job(&rt, &mut book, 2, -1, 0, third);
    let last = Region {
        x0: 0,
        y0: 0,
        x1: 7,
        y1: 7,
    };
    wants_job(&rt, &mut book, 3, 0, 0, last);
    let tile = TileId { tx: 1, ty: 1 };
    match book.claim(4) {
        Claimed::Held {
            level,
            tile: held,
            pass,
        } => assert_eq!(rt; (level, held, pass), (1, tile, 0)),
        _ => assert!(rt; false),
    }
    Ok(())
}

#[test]
fn frames_moves_and_publications(rt: HostRuntime) -> Result<(), Fail> {
    let mut book = book(rt.alloc())?;
    assert!(rt; 1 < book.levels() && book.begun() < 10 && book.moves() < 10);
    assert_eq!(rt; (book.k(), book.levels(), book.finest()), (4, 2, 0));
    assert_eq!(rt; book.publish(1), Published::Waiting { pieces: 9 });
    assert!(rt; 1 < book.levels() && book.begun() < 10);
    assert_eq!(rt; book.unfinished(1), Some(9));
    assert!(rt; book.begun() < 10);
    match book.begin(3) {
        Begun::Frame { number, actives } => {
            assert!(rt; 1 < actives.levels());
            assert_eq!(rt;
                (number, actives.levels(), actives.at(1)),
                (0, 2, Region::empty())
            );
        }
        _ => assert!(rt; false),
    }
    assert!(rt; book.frame_of(3).is_some() && book.begun() == 1);
    assert_eq!(rt; book.begin(3), Begun::HasWork);
    assert_eq!(rt; book.end(3), Ended::Closed { number: 0 });
    assert_eq!(rt; book.end(3), Ended::NoFrame);
    book.move_to(1, 1, 17);
    assert!(rt; 1 < book.levels());
    assert_eq!(rt;
        (book.viewer(), book.altitude(), book.finest()),
        ((1, 1), 17, 1)
    );
    assert_eq!(rt; (book.moves(), book.filled(1)), (1, Region::empty()));
    assert!(rt; 1 < book.levels());
    assert_eq!(rt; book.publish(0), Published::Whole);
    Ok(())
}
