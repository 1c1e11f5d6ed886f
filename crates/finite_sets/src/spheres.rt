// The table of a sphere.
ghost use Rattle.std.specs.Prelude.{◌≡◌, ◌++◌, ◌-◌, ◌≤◌, length, map, codes, IfOk};
ghost use Rattle.std.specs.Fmt.{decimal};
ghost use Rattle.term_lang.specs.Rows.{face_of};
ghost use Rattle.finite_sets.specs.Spheres.{IsSphereTable, sphere_faces};

use seqs::new_seq;
use simp_ops::Degens;
use std::alloc::{AllocError, Global};
use term_lang::{FaceList, Name, Row, RowList, Table, TableFace, name_of, table_of};

fn short_name(bytes: &[u8]) -> Name
    requires some { 1 ≤ length bytes.now }
    requires most { length bytes.now ≤ 16 }
    ensures { result ≡ bytes.now }
{
    name_of(bytes).unwrap()
}

fn cell_name(alloc: Global, n: u32) -> Result<Name, AllocError>
    requires { n ≤ 16 }
    ensures { IfOk result (λ name. name ≡ codes "S" ++ decimal n) }
{
    let text = format!(in alloc; "S{n}")?;
    Ok(short_name(text.as_bytes()))
}

// Each face of the cell is s_{n-2} .. s_0 of the vertex.
fn cell_faces(alloc: Global, n: u32) -> Result<FaceList, AllocError>
    requires low { 1 ≤ n }
    requires high { n ≤ 16 }
    ensures { IfOk result (λ faces. map face_of faces ≡ sphere_faces n) }
{
    let degens = Degens {
        mask: (1 << (n - 1)) - 1,
    };
    let mut faces = new_seq(alloc);
    for _i in 0..n + 1 {
        faces.push(TableFace { degens, row: 0 })?;
    }
    Ok(faces)
}

/// The table of the sphere of dimension n, from 1 to 16: a vertex `*` and a cell `Sn`, whose name is S
/// and n in decimals and whose faces are degeneracies of the vertex (Kenzo documentation, 1999, on
/// spheres).
pub fn sphere_table(alloc: Global, n: u32) -> Result<Table, AllocError>
    requires low { 1 ≤ n }
    requires high { n ≤ 16 }
    ensures { IfOk result (IsSphereTable n) }
{
    let vertex = Row {
        name: short_name(b"*"),
        dim: 0,
        faces: new_seq(alloc),
    };
    let cell = Row {
        name: cell_name(alloc, n)?,
        dim: n,
        faces: cell_faces(alloc, n)?,
    };
    let mut rows = RowList::new(alloc);
    rows.push(vertex)?;
    rows.push(cell)?;
    table_of(alloc, rows)
}
