//! The numbers of a flight.

ghost use Rattle.std.specs.Prelude.{◌≡◌, IfSome};
ghost use Rattle.clip_rounds.specs.Tallies.{no_tally, with_kept, with_mesh};

use obj_frames::Mesh;
use plan_model::Answer;

/// The numbers of a flight.
#[derive(Clone, Copy, PartialEq, Eq, Debug)]
pub struct Tally {
    /// How many frames ended.
    pub frames: u64,
    /// How many vertices they have.
    pub vertices: u64,
    /// How many triangles they have.
    pub triangles: u64,
    /// How many jobs that were given back are kept.
    pub pieces: u64,
    /// How many bytes the texts of the frames have.
    pub bytes: u64,
}

impl Tally {
    /// The numbers of nothing.
    pub fn none() -> Tally
        ensures { result ≡ no_tally }
    {
        Tally {
            frames: 0,
            vertices: 0,
            triangles: 0,
            pieces: 0,
            bytes: 0,
        }
    }

    // With one more frame, whose text has so many bytes. `None` where a number doesn't fit.
    pub(crate) fn with_mesh(self, mesh: &Mesh, bytes: usize) -> Option<Tally>
        ensures { IfSome result (λ tally. tally ≡ with_mesh self mesh.now bytes) }
    {
        Some(Tally {
            frames: self.frames.checked_add(1)?,
            vertices: self.vertices.checked_add(mesh.vertices().len() as u64)?,
            triangles: self.triangles.checked_add(mesh.triangles().len() as u64)?,
            pieces: self.pieces,
            bytes: self.bytes.checked_add(bytes as u64)?,
        })
    }

    // With one more piece, if a job that was given back is kept. `None` where the number doesn't fit.
    pub(crate) fn with_kept(self, answer: Answer) -> Option<Tally>
        ensures { IfSome result (λ tally. tally ≡ with_kept self answer) }
    {
        match answer {
            Answer::Kept => Some(Tally {
                frames: self.frames,
                vertices: self.vertices,
                triangles: self.triangles,
                pieces: self.pieces.checked_add(1)?,
                bytes: self.bytes,
            }),
            _ => Some(self),
        }
    }
}
