//! Units played into a store.

ghost use Rattle.std.specs.Prelude.{◌≡◌, ◌<◌, ◌≤◌, [], false, true, IfOk, IsErrOf, IsTrue, OnErr, OnOk};
ghost use Rattle.pd_outside.specs.Faults.{FailedAtLast, Unfailed};
ghost use Rattle.keeper_play.specs.Statements.{statements_to, unit_statements};
ghost use Rattle.row_keeper.specs.Store.{perform_all};
ghost use Rattle.life_intervals.specs.Generator.{generator_of, last_unit};
ghost use Rattle.schema_facts.specs.Layout.{layout_of};
ghost use Rattle.schema_facts.specs.TableFacts.{reach};
ghost use Rattle.run_jobs.specs.Jobs.{CanFill, due_of, is_text};
ghost use Rattle.fill_jobs.specs.Playing.{AreMade, CanDo, CanPlay, DoesPlay, DoesTask, is_playing, task_due};
ghost use Rattle.fill_jobs.specs.declared.play.PlayFault.TheVariants as fault;

use crate::unit_sources::{Births, Changed};
use keeper_play::play_rows;
use life_intervals::Rows;
use line_pages::PageBuf;
use out_of_memory::Memory;
use row_keeper::{KeepFailed, Keeper};
use run_jobs::job::{Job, PlayJob, Task};
use std::alloc::Global;
use std::marker::Brand;
use std::sync::ledger::{Blank, Ledger};
use step_count::Steps;
use update_box::unit_rows;

/// Why units weren't all played.
#[derive(Clone, Copy, Debug, PartialEq, Eq)]
pub enum PlayFault {
    /// A call of the keeper failed.
    Keeper,
    /// Memory ran out.
    Memory,
}

impl From<KeepFailed> for PlayFault {
    ghost from_gives = { λ _ e. e ≡ fault.Keeper };

    fn from(_error: KeepFailed) -> PlayFault {
        PlayFault::Keeper
    }
}

impl From<Memory> for PlayFault {
    ghost from_gives = { λ _ e. e ≡ fault.Memory };

    fn from(_error: Memory) -> PlayFault {
        PlayFault::Memory
    }
}

/// Plays a job's units into the store that it names, and finishes the store. The memory of a unit is taken before its first
/// statement, and none after the last statement.
pub(crate) fn play<K: Keeper>(alloc: Global, job: &PlayJob, keeper: &mut K) -> Result<(), PlayFault>
    requires can { CanPlay job.now }
    requires closed { (K.store keeper.old).is_open ≡ false }
    ensures plays { DoesPlay job.now result (K.store keeper.old) (K.store keeper.new) }
    ensures unfailed { OnOk result (Unfailed (K.counts keeper.old) (K.counts keeper.new)) }
    ensures memory { IsErrOf result fault.Memory → Unfailed (K.counts keeper.old) (K.counts keeper.new) }
    ensures failed { IsErrOf result fault.Keeper → FailedAtLast (K.counts keeper.old) (K.counts keeper.new) }
{
    let plan = &job.plan;
    let _limits = plan.schema(); // a line has at most 65,536 bytes
    let mut page = PageBuf::with_room(alloc, plan.reach() as usize)?;
    keeper.start(job.store.as_str())?;
    let rows = Rows::with(plan, &job.orders);
    play_units::<K, Brand>(alloc, &rows, job.to, keeper, &mut page, Blank::new(1))?;
    keeper.finish()?;
    Ok(())
}

/// Plays the units from 0 up to a last one.
fn play_units<K: Keeper, B: Ledger>(
    alloc: Global,
    rows: &Rows<'_>,
    to: u64,
    keeper: &mut K,
    page: &mut PageBuf,
    blank: Blank,
) -> Result<(), PlayFault>
    requires name { blank.name ≡ B.name }
    requires parts { blank.parts ≡ B.parts }
    requires some { 0 < blank.parts }
    requires unit { to ≤ last_unit rows.now }
    requires is_open { IsTrue (K.store keeper.old).is_open }
    requires empty { page.old.text ≡ [] }
    requires room { reach (layout_of rows.now) ≤ page.old.room }
    ensures made { OnOk result (K.store keeper.new ≡ perform_all (statements_to (generator_of rows.now) to) (K.store keeper.old)) }
    ensures some { OnErr result (AreMade (statements_to (generator_of rows.now) to) (K.store keeper.old) (K.store keeper.new)) }
    ensures unfailed { OnOk result (Unfailed (K.counts keeper.old) (K.counts keeper.new)) }
    ensures memory { IsErrOf result fault.Memory → Unfailed (K.counts keeper.old) (K.counts keeper.new) }
    ensures failed { IsErrOf result fault.Keeper → FailedAtLast (K.counts keeper.old) (K.counts keeper.new) }
{
    let mut steps = Steps::<B>::new(blank);
    let births = Births { plan: rows.plan() };
    play_rows(rows, 0, &births, keeper, page, &mut steps)?;
    for before in 0..to {
        play_changes(alloc, rows, before + 1, keeper, page, &mut steps)?;
    }
    Ok(())
}

/// Plays a unit after 0. Its memory is taken before its first statement.
fn play_changes<K: Keeper, L: Ledger>(
    alloc: Global,
    rows: &Rows<'_>,
    unit: u64,
    keeper: &mut K,
    page: &mut PageBuf,
    steps: &mut Steps<L>,
) -> Result<(), PlayFault>
    requires later { 1 ≤ unit }
    requires unit { unit ≤ last_unit rows.now }
    requires is_open { IsTrue (K.store keeper.old).is_open }
    requires empty { page.old.text ≡ [] }
    requires room { reach (layout_of rows.now) ≤ page.old.room }
    ensures made { OnOk result (K.store keeper.new ≡ perform_all (unit_statements (generator_of rows.now) unit) (K.store keeper.old)) }
    ensures some { OnErr result (AreMade (unit_statements (generator_of rows.now) unit) (K.store keeper.old) (K.store keeper.new)) }
    ensures unfailed { OnOk result (Unfailed (K.counts keeper.old) (K.counts keeper.new)) }
    ensures memory { IsErrOf result fault.Memory → Unfailed (K.counts keeper.old) (K.counts keeper.new) }
    ensures failed { IsErrOf result fault.Keeper → FailedAtLast (K.counts keeper.old) (K.counts keeper.new) }
    ensures page { page.new ≡ page.old }
{
    let changed = unit_rows(alloc, rows.plan(), unit, steps)?;
    play_rows(rows, unit, &Changed { rows: &changed }, keeper, page, steps)?;
    Ok(())
}

/// Plays the units of a task, if it has any, and returns the job that is left to write.
pub fn played<K: Keeper>(alloc: Global, task: Task, keeper: &mut K) -> Result<Job, PlayFault>
    requires can { CanDo task }
    requires closed { (K.store keeper.old).is_open ≡ false }
    ensures due { IfOk result (λ job. due_of job ≡ task_due task) }
    ensures can { IfOk result CanFill }
    ensures text { is_playing task ≡ true → IfOk result (λ job. is_text job ≡ true) }
    ensures does { DoesTask task result (K.store keeper.old) (K.store keeper.new) }
    ensures kept { is_playing task ≡ false → keeper.new ≡ keeper.old }
    ensures unfailed { OnOk result (Unfailed (K.counts keeper.old) (K.counts keeper.new)) }
    ensures memory { IsErrOf result fault.Memory → Unfailed (K.counts keeper.old) (K.counts keeper.new) }
    ensures failed { IsErrOf result fault.Keeper → FailedAtLast (K.counts keeper.old) (K.counts keeper.new) }
{
    match task {
        Task::Write(job) => Ok(job),
        Task::Play(job) => {
            play(alloc, &job, keeper)?;
            Ok(Job::Text(job.into_summary()))
        }
    }
}
