//! The paths that a fetch asks for.
//! Allocates.
ghost use Rattle.std.specs.Prelude.{◌≡◌, IfOk};
ghost use Rattle.fetch_course.specs.Peering.{list_path as list_path_of, blob_path as blob_path_of};

use arch_base::{Bytes, Name, NoMemory, ObjectId, hex_of};
use std::alloc::Global;

/// Returns the path of the list of an archive with a name.
///
/// `NoMemory` if an allocation fails.
pub fn list_path(alloc: Global, name: &Name) -> Result<Bytes, NoMemory>
    ensures { IfOk result (λ path. path ≡ list_path_of name.now) }
{
    let mut path = Bytes::new(alloc);
    path.push_slice(b"/")?;
    path.push_slice(name.as_slice())?;
    path.push_slice(b"/_/list")?;
    Ok(path)
}

/// Returns the path of a blob of an archive with a name.
///
/// `NoMemory` if an allocation fails.
pub fn blob_path(alloc: Global, name: &Name, blob: &ObjectId) -> Result<Bytes, NoMemory>
    ensures { IfOk result (λ path. path ≡ blob_path_of name.now blob.now) }
{
    let mut path = Bytes::new(alloc);
    path.push_slice(b"/")?;
    path.push_slice(name.as_slice())?;
    path.push_slice(b"/_/blob/")?;
    path.push_slice(hex_of(blob).as_slice())?;
    Ok(path)
}
