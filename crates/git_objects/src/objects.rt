//! Objects, their ids, and their reader.
//! Pure.
ghost use Rattle.std.specs.Prelude.{◌≡◌, ◌++◌, ℕ, List, IfSome, IfNone, MatchOption};
ghost use Rattle.sha1.specs.Sha1.{sha1};
ghost use Rattle.sha2.specs.Sha256.{sha256};
ghost use Rattle.arch_base.specs.Ids.{IsObjectId};
ghost use Rattle.git_objects.specs.Fronts.{Lacks, Begins};
ghost use Rattle.git_objects.specs.Objects.{GitObject, IsObject, HasSize, sized_before, spelling, blob_spelling, blob_id_of, id_of};
ghost use Rattle.git_objects.specs.Reading.{IsObjectFront, LendsPiece, HasNoObject, FindsObject, shown};
ghost use Rattle.git_objects.specs.Laws.{SpellingsStandApart};

use crate::entry_kind::EntryKind;
use crate::fronts::read_number;
use crate::kinds::{Kind, read_kind};
use crate::trees::read_tree;
use arch_base::{Form, ObjectId};
use itoa::Buffer;
use sha1::Sha1;
use sha2::{Digest, Sha256};

/// An object as it is read; its content is borrowed from the bytes.
#[derive(Debug, Clone, Copy, Drop)]
pub enum Object<'a> {
    /// A file's content.
    Blob(&'a [u8]),
    /// A tree of one file: the kind of entry that its name says, and the id of its blob.
    Tree {
        /// The kind of entry.
        kind: EntryKind,
        /// The id of the file's blob.
        id: ObjectId,
    },
    /// A commit's content, which `read_commit` reads.
    Commit(&'a [u8]),
}

/// Returns the id in a form of the blob with this content: the hash of its spelling.
pub fn blob_id(content: &[u8], form: Form) -> ObjectId
    ensures value { result ≡ blob_id_of form content.now }
    ensures valid { IsObjectId form result }
{
    match form {
        Form::Sha1 => ObjectId::Sha1(blob_sha1(content)),
        Form::Sha256 => ObjectId::Sha256(blob_sha256(content)),
    }
}

/// Returns the SHA-1 of the spelling of a blob.
fn blob_sha1(content: &[u8]) -> [u8; 20]
    ensures { result ≡ sha1 (blob_spelling content.now) }
{
    let mut size = Buffer::new();
    let mut hasher = Sha1::new();
    hasher.update(b"blob ");
    hasher.update(size.format(content.len()).as_bytes());
    hasher.update(&[0]);
    hasher.update(content);
    hasher.finalize()
}

/// Returns the SHA-256 of the spelling of a blob.
fn blob_sha256(content: &[u8]) -> [u8; 32]
    ensures { result ≡ sha256 (blob_spelling content.now) }
{
    let mut size = Buffer::new();
    let mut hasher = Sha256::new();
    hasher.update(b"blob ");
    hasher.update(size.format(content.len()).as_bytes());
    hasher.update(&[0]);
    hasher.update(content);
    hasher.finalize()
}

/// Returns the id in a form of a spelled object: the hash of the spelling.
pub fn object_id(spelling: &[u8], form: Form) -> ObjectId
    ensures value { result ≡ id_of form spelling.now }
    ensures valid { IsObjectId form result }
{
    match form {
        Form::Sha1 => ObjectId::Sha1(Sha1::digest(spelling)),
        Form::Sha256 => ObjectId::Sha256(Sha256::digest(spelling)),
    }
}

/// Reads the object that the bytes start with, and returns it and the length of its spelling.
///
/// A spelling is `TYPE SIZE`, NUL and the content, with the size in digits without a leading zero.
/// A blob and a commit have any content, a tree one file `m` or `d` of mode 100644, whose id is of
/// the form. The result is `None` if the bytes start with the spelling of no object of the form.
pub fn read_object(bytes: &[u8], form: Form) -> Option<(Object<'_>, usize)>
    ensures found { IfSome result (λ found. IsObjectFront form bytes.now (shown found.0) found.1) }
    ensures lent { IfSome result (λ found. LendsPiece bytes.now found.0 found.1) }
    ensures none { IfNone result (HasNoObject form bytes.now) }
    // A spelled object is read back whatever follows it.
    ensures again { (object : GitObject) (rest : List ℕ) → IsObject form object
        → bytes.now ≡ spelling object ++ rest → FindsObject result object }
{
    let (kind, unread) = read_kind(bytes)?;
    let (content, rest) = read_content(unread)?;
    let len = bytes.len() - rest.len();
    match kind {
        Kind::Blob => Some((Object::Blob(content), len)),
        Kind::Commit => Some((Object::Commit(content), len)),
        Kind::Tree => {
            let (entry, id) = read_tree(content, form)?;
            Some((Object::Tree { kind: entry, id }, len))
        }
    }
}

/// Reads a size and the content of that size, and returns the content and the rest.
fn read_content(bytes: &[u8]) -> Option<(&[u8], &[u8])>
    ensures { MatchOption result (Lacks HasSize sized_before bytes.now)
        (λ found. Begins HasSize sized_before bytes.now found.0.now found.1.now) }
{
    let (size, rest) = read_number(0, bytes)?;
    if size > rest.len() as u64 {
        return None;
    }
    Some(rest.split_at(size as usize))
}

/// Shows that no object's spelling is a proper prefix of another's.
///
/// Each spelling is that of one object, whatever the form of its ids.
pub fn spellings_stand_apart()
    ensures { SpellingsStandApart }
{}
