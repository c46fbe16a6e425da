//! Stores of SHA-256 objects on disks in memory, against entries whose ids git worked out.
ghost use Rattle.std.specs.Prelude.{IfOk, IfSome};
ghost use Rattle.arch_base.specs.Configs.{IsConfig};
ghost use Rattle.disk_model.specs.Disk.{WhereTold};
ghost use Rattle.epoch_store.specs.Commands.{StoreHasSizes};

use crate::making_tests::{FIRST_EPOCH, Length, MAP, ROOT, have_lengths, make_by, put, text_of};
use crate::removal_tests::remove_first;
use arch_base::{Config, Form, Name, id_of_hex};
use arch_model::OpenRefusal;
use disk_model::{Disk, MemDisk};
use epoch_file::StoreRefusal;
use epoch_store::Store;
use fixtures::{FIRST, SECOND, empty_disk, write};
use std::alloc::Global;
use std::process::Abort;
use std::test::Fail;

/// The blob id of the first mail.
const BLOB: &[u8] = b"70b16dd75f8e20a6ef189426d439d7b42c747bf41f86ce4d7127c6e6fe19cd8f";

/// The commit of the first mail, as the first of its epoch.
const COMMIT: &[u8] = b"d19879bb23cab42831fe17e24121a2dafff4923380bb817515cd88dce7c2f63d";

/// The commit of the second mail, after that of the first.
const OTHER_COMMIT: &[u8] = b"c6c396bf1ed2055ad13506b66dcb4100a8c755daa51ae0c27c020311e1c3c017";

/// The commit of the removal of the first mail, after that of the second.
const REMOVAL: &[u8] = b"dc16e2a70742fd93a58ead7bf540cca89aaa8485879d3c28c1365f62ac13b774";

/// The files of an archive of two messages and a removal: two records of 40 bytes, and three entries.
static FILES: [Length; 3] = [
    Length {
        file: ROOT,
        length: 4096,
    },
    Length {
        file: MAP,
        length: 80,
    },
    Length {
        file: FIRST_EPOCH,
        length: 1184,
    },
];

/// Returns the settings of an archive of a form.
pub(crate) fn settings(form: Form, mirror: bool) -> Option<Config>
    ensures { IfSome result IsConfig }
{
    let name = Name::read(b"list")?;
    Some(Config {
        name,
        limit: 2000,
        slice: 50000,
        max: 10,
        mirror,
        born: 1,
        form,
    })
}

/// Makes an archive of a form.
fn make<D: Disk>(alloc: Global, disk: &mut D, form: Form) -> Result<Store, StoreRefusal>
    ensures sizes { IfOk result (λ store. WhereTold (StoreHasSizes store) (D.content disk.new)) }
{
    match settings(form, false) {
        Some(config) => make_by(alloc, disk, &config),
        None => Err(StoreRefusal::Damaged { file: ROOT, at: 1 }),
    }
}

/// Makes such an archive, appends both messages to it, and removes the first one.
pub(crate) fn fill<D: Disk>(alloc: Global, disk: &mut D, form: Form) -> Result<Store, StoreRefusal>
    ensures sizes { IfOk result (λ store. WhereTold (StoreHasSizes store) (D.content disk.new)) }
{
    let mut store = make(alloc, disk, form)?;
    put(alloc, disk, &mut store, FIRST)?;
    put(alloc, disk, &mut store, SECOND)?;
    remove_first(alloc, disk, &mut store)?;
    Ok(store)
}

/// Returns whether the entry at an index has a commit.
fn has_commit(store: &Store, index: u64, commit: &[u8]) -> bool {
    match store.entry(index) {
        Some(line) => Some(line.commit) == id_of_hex(commit, Form::Sha256),
        None => false,
    }
}

/// Returns whether an archive is of SHA-256 objects, and its entries are those of both messages and of
/// the removal.
pub(crate) fn has_entries(store: &Store) -> bool {
    let Some(line) = store.entry(0) else {
        return false;
    };
    let named = Some(line.blob) == id_of_hex(BLOB, Form::Sha256);
    let both = has_commit(store, 0, COMMIT) && has_commit(store, 1, OTHER_COMMIT);
    let form = store.config().form == Form::Sha256;
    form && named && both && has_commit(store, 2, REMOVAL) && store.entry(3).is_none()
}

/// Returns the disk of an archive that has these entries and files, or `None`.
fn filled(alloc: Global) -> Result<Option<MemDisk>, Fail> {
    let mut disk = empty_disk(alloc);
    let store = fill(alloc, &mut disk, Form::Sha256)?;
    let same = has_entries(&store) && have_lengths(&mut disk, &FILES)?;
    Ok(same.then_some(disk))
}

/// Opens an archive, and returns whether its first text is read.
pub(crate) fn reads_first(
    rt: &impl Abort,
    alloc: Global,
    disk: &mut MemDisk,
) -> Result<bool, Fail> {
    let (store, _index) = Store::open(alloc, disk)?;
    assert!(rt; has_entries(&store));
    let text = text_of(alloc, disk, &store, 0)?;
    Ok(text.as_slice().ends_with(FIRST))
}

#[test]
fn a_store_names_its_objects_by_the_sha_256(rt: HostRuntime) -> Result<(), Fail> {
    let mut disk = filled(rt.alloc())?.ok_or("not filled")?;
    assert!(rt; reads_first(&rt, rt.alloc(), &mut disk)?);
    Ok(())
}

/// Returns whether a disk isn't opened since the first bytes of its epoch are damaged.
fn is_damaged(alloc: Global, disk: &mut MemDisk) -> bool {
    match Store::open(alloc, disk) {
        Ok(_) => false,
        Err(refusal) => {
            refusal
                == OpenRefusal::Damaged {
                    file: FIRST_EPOCH,
                    at: 0,
                }
        }
    }
}

#[test]
fn an_epoch_of_sha_1_objects_is_damaged_there(rt: HostRuntime) -> Result<(), Fail> {
    let mut disk = filled(rt.alloc())?.ok_or("not filled")?;
    write(&mut disk, FIRST_EPOCH, 6, b"1")?;
    assert!(rt; is_damaged(rt.alloc(), &mut disk));
    Ok(())
}
