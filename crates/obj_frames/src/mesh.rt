//! A mesh as three lists.

ghost use Rattle.std.specs.Prelude.{◌≡◌, ◌<◌, ◌^◌, length, vec_len};
ghost use Rattle.mesh_model.specs.Conditions.{NameVertices, CoverInOrder, BoundsHold, IsMesh};

use mesh_model::{Part, Vertex};
use std::marker::Model;

/// Vertices, triangles between them, and the parts that the triangles make up.
///
/// A triangle is the places of its three vertices, counted from 0.
#[derive(Drop)]
pub struct Mesh {
    vertices: Vec<Vertex>,
    triangles: Vec<[u32; 3]>,
    parts: Vec<Part>,
}

impl Model for Mesh {
    ghost use Rattle.mesh_model.specs.Mesh.{MeshLists};
    ghost use Rattle.mesh_model.specs.Conditions.{IsMesh};

    ghost Value = { MeshLists };

    ghost view = { λ m. record { vertices = m.vertices.items; triangles = m.triangles.items; parts = m.parts.items } };

    ghost invariant = { λ m. IsMesh
        (record { vertices = m.vertices.items; triangles = m.triangles.items; parts = m.parts.items }) };
}

impl Mesh {
    /// The mesh of these lists.
    ///
    /// There are fewer than 2^31 vertices and fewer than 2^31 triangles, each triangle names vertices of
    /// the list, the parts cover the triangles in order without gaps, and each part's bounds hold the
    /// vertices of its triangles. Three empty lists make a mesh.
    pub fn new(vertices: Vec<Vertex>, triangles: Vec<[u32; 3]>, parts: Vec<Part>) -> Mesh
        requires few_vertices { vec_len vertices < 2 ^ 31 }
        requires few_triangles { vec_len triangles < 2 ^ 31 }
        requires places { NameVertices (vec_len vertices) triangles.items }
        requires cover { CoverInOrder 0 (vec_len triangles) parts.items }
        requires bounds { BoundsHold vertices.items triangles.items parts.items }

        // The mesh has these lists.
        ensures vertices { result.vertices ≡ vertices.items }
        ensures triangles { result.triangles ≡ triangles.items }
        ensures parts { result.parts ≡ parts.items }
    {
        Mesh {
            vertices,
            triangles,
            parts,
        }
    }

    /// The vertices, in their order.
    pub fn vertices(&self) -> &[Vertex]
        ensures value { result.now ≡ self.now.vertices }
        ensures mesh { IsMesh self.now }
    {
        &self.vertices
    }

    /// The triangles, part by part, each as the places of its three vertices counted from 0.
    pub fn triangles(&self) -> &[[u32; 3]]
        ensures value { result.now ≡ self.now.triangles }
        ensures mesh { IsMesh self.now }
    {
        &self.triangles
    }

    /// The parts, in the order of their triangles.
    pub fn parts(&self) -> &[Part]
        ensures value { result.now ≡ self.now.parts }
        ensures mesh { IsMesh self.now }
    {
        &self.parts
    }

    /// The three lists: vertices, triangles and parts.
    pub fn apart(self) -> (Vec<Vertex>, Vec<[u32; 3]>, Vec<Part>)
        ensures vertices { result.0.items ≡ self.vertices }
        ensures triangles { result.1.items ≡ self.triangles }
        ensures parts { result.2.items ≡ self.parts }
        ensures mesh { IsMesh self }
    {
        let Mesh {
            vertices,
            triangles,
            parts,
        } = self;
        (vertices, triangles, parts)
    }
}
