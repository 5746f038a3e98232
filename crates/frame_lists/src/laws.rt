//! Laws over the definitions alone: each function's contract is the law.

ghost use Rattle.frame_lists.specs.Laws.{TextsSayLists, MeshesArePrinted, FramesSayMesh};

use mesh_laws::{
    actives_are_in_reach, heights_are_small, meshes_are_small, parts_have_ring_squares,
};
use mesh_model::{nested_names, vertices_apart};
use number_words::{natural_texts_are_read, whole_texts_are_read};

/// The lists of a text are those that it was printed from, where their numbers are in its ranges.
pub fn texts_say_their_lists()
    ensures { TextsSayLists }
{
    natural_texts_are_read();
    whole_texts_are_read();
}

/// The lists of the text of a frame are those of its mesh, whose numbers are in the text's ranges: for each
/// terrain, each K, each frame number of 64 bits, each viewer within the limits and all active regions.
pub fn frames_say_their_mesh()
    ensures printed { MeshesArePrinted }
    ensures lists { FramesSayMesh }
{
    texts_say_their_lists();
    actives_are_in_reach();
    heights_are_small();
    meshes_are_small();
    parts_have_ring_squares();
    nested_names();
    vertices_apart();
}
