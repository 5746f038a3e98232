//! The heights that a frame of a book shows.

ghost use Rattle.std.specs.Prelude.{◌≡◌, ◌<◌, length, Some, IsTrue};
ghost use Rattle.std.specs.Option.{option_map};
ghost use Rattle.clip_regions.specs.Regions.{contains};
ghost use Rattle.terrain_model.specs.Terrain.{level_height};
ghost use Rattle.plan_model.specs.States.{pass_at, frame_of};
ghost use Rattle.mesh_model.specs.Height.{active_at};
ghost use Rattle.active_region.specs.Active.{AreActive};

use active_region::Actives;
use clip_book::Book;
use ring_mesh::Heights;

// The heights of the frame of a pass, whose active regions these are.
#[derive(Drop)]
pub(crate) struct BookHeights<'a> {
    pub(crate) book: &'a Book,
    pub(crate) pass: u8,
    pub(crate) actives: Actives,
    ghost shown: { option_map (λ frame. frame.actives) (frame_of (pass_at book.now.plan.state pass)) ≡ Some actives },
}

impl Heights for BookHeights<'_> {
    ghost terrain = { λ h. h.book.now.land.terrain };

    ghost regions = { λ h. h.actives };

    fn height(&self, level: u8, i: i32, j: i32) -> i16
        requires active { AreActive self.now.actives }
        requires level { level < length self.now.actives }
        requires cell { IsTrue (contains (active_at self.now.actives level) i j) }
        ensures value { result ≡ level_height self.now.book.now.land.terrain level i j }
    {
        self.book.height(self.pass, level, i, j)
    }
}
