//! Plans of parts, and a plan that is carried out in an archive without messages, in either form.
ghost use Rattle.std.specs.Prelude.{◌≤◌, IfOk, IfSome};
ghost use Rattle.arch_base.specs.Configs.{IsConfig};
ghost use Rattle.disk_model.specs.Disk.{WhereTold};
ghost use Rattle.root_slots.specs.Valid.{IsRoot};
ghost use Rattle.root_change.specs.Texts.{HasSizes};
ghost use Rattle.root_change.specs.Rewriting.{MapFits, MayCarryAll};
ghost use Rattle.rewrite_tests.specs.Bare.{IsBare, IsFirstPlan};

use arch_base::{Config, Form, Name, NoMemory};
use disk_model::{Disk, DiskFault, EPOCHS, FileKind, FileName};
use fixtures::empty_disk;
use root_change::{FileRange, PartPlan, RewriteRefusal, Source, Target, rewrite};
use root_slots::{Place, Root, Slot, begin, read};
use std::alloc::Global;
use std::test::Fail;

/// The file of the root.
pub(crate) const ROOT: FileName = FileName {
    kind: FileKind::Root,
    number: 0,
    generation: 0,
};

/// The file of an epoch.
const EPOCH: FileName = FileName {
    kind: FileKind::Epoch,
    number: 5,
    generation: 3,
};

/// The file of the first epoch after the plan was carried out.
const WRITTEN: FileName = FileName {
    kind: FileKind::Epoch,
    number: 0,
    generation: 2,
};

/// The sources of a plan of bytes, a range, and bytes again.
const SOURCES: [Source; 3] = [
    Source::Bytes {
        offset: 0,
        count: 3,
    },
    Source::Range(FileRange {
        file: EPOCH,
        offset: 8,
        count: 300,
    }),
    Source::Bytes {
        offset: 3,
        count: 2,
    },
];

/// Pushes bytes, a range, and bytes again.
fn push_three(plan: &mut PartPlan) -> Result<(), NoMemory> {
    plan.push_bytes(b"abc")?;
    plan.push_range(EPOCH, 8, 300)?;
    plan.push_bytes(b"de")
}

/// Returns whether a plan has all that was pushed, and the part that it is of.
fn plans_three(alloc: Global) -> Result<bool, NoMemory> {
    let mut plan = PartPlan::new(alloc, FileKind::Epoch, 5, Target::Behind);
    push_three(&mut plan)?;
    let part = plan.kind() == FileKind::Epoch && plan.number() == 5;
    let all = plan.bytes() == b"abcde".as_slice() && plan.sources() == SOURCES.as_slice();
    Ok(part && all && plan.target() == Target::Behind && plan.count() == 305)
}

#[test]
fn a_plan_keeps_what_is_pushed(rt: HostRuntime) -> Result<(), Fail> {
    assert!(rt; plans_three(rt.alloc())?);
    Ok(())
}

/// Returns settings.
fn settings() -> Option<Config>
    ensures { IfSome result IsConfig }
{
    let name = Name::read(b"list")?;
    Some(Config {
        name,
        limit: 316,
        slice: 50,
        max: 9,
        mirror: false,
        born: 1,
        form: Form::Sha1,
    })
}

/// Returns the root of an archive without messages.
pub(crate) fn bare() -> Option<Root>
    ensures { IfSome result IsBare }
{
    let config = settings()?;
    Some(Root {
        config,
        sequence: 1,
        next: 1,
        map: Place {
            generation: 1,
            length: 0,
        },
        epochs: [Place {
            generation: 0,
            length: 0,
        }; EPOCHS as usize],
        cache: Place {
            generation: 0,
            length: 0,
        },
    })
}

/// Plans five bytes of the first epoch.
fn first(alloc: Global) -> Result<PartPlan, NoMemory>
    ensures { IfOk result IsFirstPlan }
{
    let mut plan = PartPlan::new(alloc, FileKind::Epoch, 0, Target::Anew);
    plan.push_bytes(b"abcde")?;
    Ok(plan)
}

/// Carries out plans in an archive without messages, which has this form then.
pub(crate) fn carry_out<D: Disk>(
    disk: &mut D,
    root: &Root,
    plans: &[PartPlan],
    number: u32,
    form: Form,
) -> Result<Root, RewriteRefusal>
    requires root { IsBare root.now }
    requires plans { MayCarryAll root.now plans.now }
    requires number { (1 ≤ number) × (number ≤ 2147483648) }
    requires map { MapFits root.now plans.now number form }
    ensures root { IfOk result IsRoot }
    ensures sizes { IfOk result (λ made. WhereTold (HasSizes made) (D.content disk.new)) }
{
    if disk.length(ROOT)? != 4096 {
        return Err(RewriteRefusal::DiskFault);
    }
    rewrite(disk, Slot::Second, root, plans, number, form)
}

/// Returns whether a root is the second one, of this form, and names five bytes of the first epoch.
fn is_second(root: &Root, form: Form) -> bool {
    let place = Place {
        generation: 2,
        length: 5,
    };
    let named = root.epochs[0] == place && root.map.length == 0;
    root.config.form == form && root.sequence == 2 && root.next == 1 && named
}

/// Returns whether the current root is the second one, of this form and in the second slot, and the file
/// of the first epoch has the five bytes.
fn is_written<D: Disk>(disk: &mut D, form: Form) -> Result<bool, DiskFault> {
    let mut bytes = [0; 6];
    let count = disk.read(WRITTEN, 0, &mut bytes)?;
    let whole = count == 5 && bytes == *b"abcde\0";
    match read(disk) {
        Ok(Some((Slot::Second, root))) => Ok(whole && is_second(&root, form)),
        _ => Ok(false),
    }
}

/// Carries out the plan of the first epoch on a disk without files, and returns the new root.
fn carries<D: Disk>(alloc: Global, disk: &mut D) -> Result<Root, Fail> {
    let root = bare().ok_or("no name")?;
    let plan = first(alloc)?;
    begin(disk)?;
    Ok(carry_out(disk, &root, &[plan], 1, Form::Sha1)?)
}

/// Carries out the same plan, and turns the archive into one with SHA-256 ids.
fn turns<D: Disk>(alloc: Global, disk: &mut D) -> Result<Root, Fail> {
    let root = bare().ok_or("no name")?;
    let plan = first(alloc)?;
    begin(disk)?;
    Ok(carry_out(disk, &root, &[plan], 1, Form::Sha256)?)
}

#[test]
fn a_plan_is_carried_out_with_its_root(rt: HostRuntime) -> Result<(), Fail> {
    let mut disk = empty_disk(rt.alloc());
    let root = carries(rt.alloc(), &mut disk)?;
    assert!(rt; is_second(&root, Form::Sha1));
    assert!(rt; is_written(&mut disk, Form::Sha1)?);
    Ok(())
}

#[test]
fn a_plan_is_carried_out_with_a_root_of_the_other_form(rt: HostRuntime) -> Result<(), Fail> {
    let mut disk = empty_disk(rt.alloc());
    let root = turns(rt.alloc(), &mut disk)?;
    assert!(rt; is_second(&root, Form::Sha256));
    assert!(rt; is_written(&mut disk, Form::Sha256)?);
    Ok(())
}
