//! The plan of each form.
ghost use Rattle.std.specs.Prelude.{◌≡◌, IfOk};
ghost use Rattle.vx_plans.specs.Plans.{columns_of, doing, ending, logs_of, new_logs, new_volume, or_else, plan_add, plan_attach, plan_bare, plan_deport, plan_detach, plan_dissociate, plan_init, plan_make, plan_mirror, plan_new, plan_of, plan_of_act, plan_prepare, plan_print, plan_rdpol, plan_remove, plan_start, plan_stop, plan_unprepare, plan_unsetup};
ghost use Rattle.vx_plans.specs.declared.stages.Finish.TheVariants.{Hierarchy, Records};
ghost use Rattle.vx_stages.specs.declared.stage.Change.TheVariants as changes;
ghost use Rattle.vx_stages.specs.declared.stage.Stage.TheVariants as stages;

use crate::stages::{Finish, Plan, Stages};
use std::alloc::Global;
use vx_base::OutOfMemory;
use vx_config_parts::PolicyName;
use vx_names::Name;
use vx_new_volumes::{NewLogs, NewPlex, NewVolume, Request};
use vx_objects::Listed;
use vx_script_forms::{Act, Form, MakeAttrs, WordLayout, WordPolicy};
use vx_script_words::{Bytes, Names};
use vx_stages::{Change, Source, Stage, Test};

/// The plan of a form, where it is built as one. The group is the word of `-g`.
#[tactic(auto, unfolding(crate::specs::Plans::plan_of))]
pub fn plan(alloc: Global, group: Option<Name>, form: &Form) -> Result<Option<Plan>, OutOfMemory>
    ensures { IfOk result (λ plan. plan ≡ plan_of group form.now) }
{
    match form {
        Form::MkImage { device, length } => {
            let device = *device;
            let sectors = *length;
            doing(alloc, [Stage::MakeImage { device, sectors }])
        }
        Form::Bare { vol, device } => bare(alloc, *vol, *device),
        Form::DgInit { dg, disks: _ } => init(alloc, *dg),
        Form::DgAddDisk { dg, disk: _ } => add_disk(alloc, *dg),
        Form::DgImport { dg } => doing(alloc, [Stage::Import(*dg)]),
        Form::DgDeport { dg } => deport(alloc, *dg),
        Form::DiskUnsetup { device } => unsetup(alloc, *device),
        Form::PrintM { vol } => print(alloc, group, vol, Finish::Records(*vol)),
        Form::PrintHt { vol } => print(alloc, group, vol, Finish::Hierarchy(*vol)),
        Form::VxMake { text } => make(alloc, group, text.as_slice()),
        Form::AssistMake {
            vol,
            length,
            attrs,
            disks,
        } => make_new(
            alloc,
            group,
            new_volume(alloc, *vol, *length, attrs.get(), disks)?,
        ),
        Form::Rdpol { vol, policy } => rdpol(alloc, group, *vol, *policy),
        Form::RemoveVolume { vol } => remove(alloc, group, *vol),
        Form::PlexDis { plex, rm } => dissociate(alloc, group, *plex, *rm),
        Form::Mirror { vol, disks } => mirror(alloc, group, new_plex(alloc, *vol, disks)?),
        Form::Prepare {
            vol,
            ndcomirs,
            region,
        } => prepare(alloc, group, new_logs(*vol, *ndcomirs, *region)),
        Form::Unprepare { vol } => unprepare(alloc, group, *vol),
        Form::Start { vol } => start(alloc, group, *vol),
        Form::Stop { vol } => stop(alloc, group, *vol),
        Form::Acting(act) => plan_of_act(alloc, group, act),
        _ => Ok(None),
    }
}

/// The plan of an act, where it is built.
fn plan_of_act(alloc: Global, group: Option<Name>, act: &Act) -> Result<Option<Plan>, OutOfMemory>
    ensures { IfOk result (λ plan. plan ≡ plan_of_act group act.now) }
{
    match act {
        Act::PlexDet { plex } => detach(alloc, group, *plex),
        Act::PlexAtt { vol, plex } => attach(alloc, group, *vol, *plex.get()),
        _ => Ok(None),
    }
}

/// A plan of these stages that shows nothing.
fn doing<const N: usize>(alloc: Global, stages: [Stage; N]) -> Result<Option<Plan>, OutOfMemory>
    ensures { IfOk result (λ plan. plan ≡ doing stages.entry) }
{
    ending(alloc, stages, Finish::Nothing)
}

fn ending<const N: usize>(
    alloc: Global,
    stages: [Stage; N],
    finish: Finish,
) -> Result<Option<Plan>, OutOfMemory>
    ensures { IfOk result (λ plan. plan ≡ ending stages.entry finish) }
{
    let stages = Stages::from_vec(Vec::from_array(alloc, stages)?);
    Ok(Some(Plan { stages, finish }))
}

fn bare(alloc: Global, vol: Name, device: Name) -> Result<Option<Plan>, OutOfMemory>
    ensures { IfOk result (λ plan. plan ≡ doing (plan_bare vol device)) }
{
    doing(
        alloc,
        [
            Stage::Take(device),
            Stage::LookBlank(device),
            Stage::Gate(Test::Sized(device)),
            Stage::StartBare { vol, device },
        ],
    )
}

fn init(alloc: Global, dg: Name) -> Result<Option<Plan>, OutOfMemory>
    ensures { IfOk result (λ plan. plan ≡ doing (plan_init dg)) }
{
    doing(
        alloc,
        [
            Stage::TakeDisks,
            Stage::LookDisks,
            Stage::Gate(Test::NoGroup),
            Stage::Gate(Test::GroupLimits(dg)),
            Stage::Search(dg),
            Stage::Gate(Test::GroupRecords(dg)),
            Stage::Create(dg),
        ],
    )
}

fn add_disk(alloc: Global, dg: Name) -> Result<Option<Plan>, OutOfMemory>
    ensures { IfOk result (λ plan. plan ≡ doing (plan_add dg)) }
{
    doing(
        alloc,
        [
            Stage::TakeDisks,
            Stage::Gate(Test::GroupIs(Some(dg))),
            Stage::LookDisks,
            Stage::Gate(Test::JoinLimits),
            Stage::Search(dg),
            Stage::Join,
        ],
    )
}

fn deport(alloc: Global, dg: Name) -> Result<Option<Plan>, OutOfMemory>
    ensures { IfOk result (λ plan. plan ≡ doing (plan_deport dg)) }
{
    doing(
        alloc,
        [
            Stage::Gate(Test::GroupIs(Some(dg))),
            Stage::Gate(Test::NoneStarted),
            Stage::LetGo,
        ],
    )
}

fn unsetup(alloc: Global, device: Name) -> Result<Option<Plan>, OutOfMemory>
    ensures { IfOk result (λ plan. plan ≡ doing (plan_unsetup device)) }
{
    doing(
        alloc,
        [
            Stage::Take(device),
            Stage::LookHeaded(device),
            Stage::Wipe(device),
        ],
    )
}

/// What is shown of the group, or of one of its volumes.
fn print(
    alloc: Global,
    group: Option<Name>,
    vol: &Option<Name>,
    finish: Finish,
) -> Result<Option<Plan>, OutOfMemory>
    ensures { IfOk result (λ plan. plan ≡ ending (plan_print group vol.now) finish) }
{
    let here = Stage::Gate(Test::GroupIs(group));
    match vol {
        None => ending(alloc, [here], finish),
        Some(name) => ending(alloc, [here, Stage::Gate(Test::HasVolume(*name))], finish),
    }
}

fn rdpol(
    alloc: Global,
    group: Option<Name>,
    vol: Name,
    words: WordPolicy,
) -> Result<Option<Plan>, OutOfMemory>
    ensures { IfOk result (λ plan. plan ≡ doing (plan_rdpol group vol words)) }
{
    let here = Stage::Gate(Test::GroupIs(group));
    let recorded = Stage::Gate(Test::HasVolume(vol));
    match words {
        WordPolicy::Round => doing(alloc, [here, recorded, policy(vol, PolicyName::Round)]),
        WordPolicy::Select => doing(alloc, [here, recorded, policy(vol, PolicyName::Select)]),
        WordPolicy::Prefer(plex) => doing(
            alloc,
            [
                here,
                recorded,
                Stage::Gate(Test::HasPlex { vol, plex }),
                policy(vol, PolicyName::Prefer(plex)),
            ],
        ),
    }
}

fn policy(vol: Name, policy: PolicyName) -> Stage
    ensures { result ≡ stages.Change (changes.Policy vol policy) }
{
    Stage::Change(Change::Policy { vol, policy })
}

fn make(alloc: Global, group: Option<Name>, text: &[u8]) -> Result<Option<Plan>, OutOfMemory>
    ensures { IfOk result (λ plan. plan ≡ doing (plan_make group text.now)) }
{
    let text = Bytes::from_vec(Vec::from_slice(alloc, text)?);
    doing(
        alloc,
        [
            Stage::Gate(Test::GroupIs(group)),
            Stage::Make(Source::Text(text)),
        ],
    )
}

/// The volume that is asked for, with what the attributes are where they are left out.
fn new_volume(
    alloc: Global,
    vol: Name,
    length: u64,
    attrs: &MakeAttrs,
    disks: &Names,
) -> Result<NewVolume, OutOfMemory>
    ensures { IfOk result (λ new. new ≡ new_volume vol length attrs.now disks.now) }
{
    let disks = Listed::from_vec(disks.to_vec(alloc)?);
    let avoid = Listed::from_vec(Vec::new(alloc));
    let mirrors = attrs.nmirror.unwrap_or(1);
    let request = Request {
        length,
        region: attrs.region.unwrap_or(128),
        ncol: columns_of(attrs.layout, attrs.ncol),
        unit: attrs.unit.unwrap_or(128),
        mirrors,
        logs: logs_of(mirrors, attrs.ndcomirror),
        disks,
        avoid,
    };
    Ok(NewVolume { vol, request })
}

/// The columns of each plex.
fn columns_of(layout: Option<WordLayout>, ncol: Option<u32>) -> u32
    ensures { result ≡ columns_of layout ncol }
{
    match layout {
        None | Some(WordLayout::Concat) => 1,
        Some(WordLayout::Stripe) => ncol.unwrap_or(2),
    }
}

/// A volume of several plexes has two logs, unless it is said how many.
fn logs_of(mirrors: u32, logs: Option<u32>) -> u32
    ensures { result ≡ logs_of mirrors logs }
{
    match logs {
        Some(logs) => logs,
        None => { if mirrors > 1 { 2 } else { 0 } }
    }
}

fn make_new(alloc: Global, group: Option<Name>, new: NewVolume) -> Result<Option<Plan>, OutOfMemory>
    ensures { IfOk result (λ plan. plan ≡ doing (plan_new group new)) }
{
    let vol = new.vol;
    doing(
        alloc,
        [
            Stage::Gate(Test::GroupIs(group)),
            Stage::Make(Source::Volume(new)),
            Stage::Gate(Test::Stopped(vol)),
            Stage::Start(vol),
        ],
    )
}

fn remove(alloc: Global, group: Option<Name>, vol: Name) -> Result<Option<Plan>, OutOfMemory>
    ensures { IfOk result (λ plan. plan ≡ doing (plan_remove group vol)) }
{
    doing(
        alloc,
        [
            Stage::Gate(Test::GroupIs(group)),
            Stage::Gate(Test::HasVolume(vol)),
            Stage::Gate(Test::Stopped(vol)),
            Stage::Gate(Test::Unrelated(vol)),
            Stage::Change(Change::Remove(vol)),
        ],
    )
}

/// The mirror that is asked for.
fn new_plex(alloc: Global, vol: Name, disks: &Names) -> Result<NewPlex, OutOfMemory>
    ensures { IfOk result (λ new. (new.vol ≡ vol) × (new.disks ≡ disks.now)) }
{
    let disks = Listed::from_vec(disks.to_vec(alloc)?);
    Ok(NewPlex { vol, disks })
}

fn mirror(alloc: Global, group: Option<Name>, new: NewPlex) -> Result<Option<Plan>, OutOfMemory>
    ensures { IfOk result (λ plan. plan ≡ doing (plan_mirror group new)) }
{
    doing(
        alloc,
        [Stage::Gate(Test::GroupIs(group)), Stage::Mirror(new)],
    )
}

/// The logs that are asked for: one, where it is not said how many.
fn new_logs(vol: Name, count: Option<u64>, region: Option<u64>) -> NewLogs
    ensures { result ≡ new_logs vol count region }
{
    let count = count.unwrap_or(1).min(u64::from(u32::MAX)) as u32;
    NewLogs { vol, count, region }
}

fn prepare(alloc: Global, group: Option<Name>, new: NewLogs) -> Result<Option<Plan>, OutOfMemory>
    ensures { IfOk result (λ plan. plan ≡ doing (plan_prepare group new)) }
{
    doing(
        alloc,
        [Stage::Gate(Test::GroupIs(group)), Stage::Prepare(new)],
    )
}

fn unprepare(alloc: Global, group: Option<Name>, vol: Name) -> Result<Option<Plan>, OutOfMemory>
    ensures { IfOk result (λ plan. plan ≡ doing (plan_unprepare group vol)) }
{
    doing(
        alloc,
        [Stage::Gate(Test::GroupIs(group)), Stage::Unprepare(vol)],
    )
}

fn detach(alloc: Global, group: Option<Name>, plex: Name) -> Result<Option<Plan>, OutOfMemory>
    ensures { IfOk result (λ plan. plan ≡ doing (plan_detach group plex)) }
{
    doing(
        alloc,
        [Stage::Gate(Test::GroupIs(group)), Stage::Detach(plex)],
    )
}

fn attach(
    alloc: Global,
    group: Option<Name>,
    vol: Name,
    plex: Name,
) -> Result<Option<Plan>, OutOfMemory>
    ensures { IfOk result (λ plan. plan ≡ doing (plan_attach group vol plex)) }
{
    doing(
        alloc,
        [
            Stage::Gate(Test::GroupIs(group)),
            Stage::Attach { vol, plex },
        ],
    )
}

fn dissociate(
    alloc: Global,
    group: Option<Name>,
    plex: Name,
    remove: bool,
) -> Result<Option<Plan>, OutOfMemory>
    ensures { IfOk result (λ plan. plan ≡ doing (plan_dissociate group plex remove)) }
{
    doing(
        alloc,
        [
            Stage::Gate(Test::GroupIs(group)),
            Stage::Dissociate { plex, remove },
        ],
    )
}

fn start(alloc: Global, group: Option<Name>, vol: Name) -> Result<Option<Plan>, OutOfMemory>
    ensures { IfOk result (λ plan. plan ≡ doing (plan_start group vol)) }
{
    doing(
        alloc,
        [
            Stage::Gate(Test::GroupIs(group)),
            Stage::Gate(Test::HasVolume(vol)),
            Stage::Gate(Test::Stopped(vol)),
            Stage::Start(vol),
        ],
    )
}

fn stop(alloc: Global, group: Option<Name>, vol: Name) -> Result<Option<Plan>, OutOfMemory>
    ensures { IfOk result (λ plan. plan ≡ doing (plan_stop group vol)) }
{
    doing(
        alloc,
        [
            Stage::Gate(Test::GroupIs(group)),
            Stage::Gate(Test::HasVolume(vol)),
            Stage::Stop(vol),
        ],
    )
}
