//! Why there is no answer.
ghost use Rattle.std.specs.IoError.{error_kind};
ghost use Rattle.std.specs.Prelude.{◌≡◌, Some};
ghost use Rattle.hplan.specs.Fault.{text_of, task_in, plan_read_in, schedule_in, judged_in, journal_in, run_in, search_in, certify_in, replay_in, store_in, TellsKind, TellsUnwritten};
ghost use Rattle.hplan.specs.declared.fault.Fault.TheVariants as faults;

use hd_certify::RecoverError;
use hd_journal::JournalError;
use hd_plan::{PlanError, PlanTextError, WriteFault};
use hd_replay::{ReplayFault, ScheduleError};
use hd_search::ThreadsFault;
use hd_store::StoreError;
use hd_texts::TaskFault;
use hd_threads::RunFault;
use std::alloc::{AllocError, AllocFailed};
use std::{fmt, io};
use thiserror::Error;

/// Why there is no answer.
#[derive(Debug, PartialEq, Eq, Drop, Error)]
pub enum Fault {
    /// The domain's and the problem's texts have no task.
    Task(TaskFault),
    /// A plan's text could not be read.
    PlanText(PlanTextError),
    /// A schedule's text could not be read.
    Schedule(ScheduleError),
    /// A plan was read, and is not valid.
    Plan(PlanError),
    /// A file could not be opened, read or written.
    Device,
    /// The journal of the search can't be begun, or gone on with.
    Journal(JournalError),
    /// The search has ended without an answer.
    Search(RunFault),
    /// A schedule was not played to its end.
    Replay(ReplayFault),
    /// The system has started no thread for a worker of the search.
    NoThread,
    /// Memory ran out.
    NoMemory,
}

impl fmt::Display for Fault {
    ghost output = { λ fault. Some (text_of fault) };

    fn fmt<W: fmt::Write>(&self, f: &mut fmt::Formatter<W>) -> fmt::Result {
        match self {
            Fault::Task(fault) => write!(f, "{fault}"),
            Fault::PlanText(error) => write!(f, "{error}"),
            Fault::Schedule(error) => write!(f, "{error}"),
            Fault::Plan(error) => write!(f, "{error}"),
            Fault::Device => write!(f, "35 Device"),
            Fault::Journal(error) => write!(f, "{error}"),
            Fault::Search(fault) => write!(f, "{fault}"),
            Fault::Replay(fault) => write!(f, "{fault}"),
            Fault::NoThread => write!(f, "NoThread"),
            Fault::NoMemory => write!(f, "NoMemory"),
        }
    }
}

impl From<AllocError> for Fault {
    ghost from_gives = { λ _ fault. fault ≡ faults.NoMemory };

    fn from(_error: AllocError) -> Fault {
        Fault::NoMemory
    }
}

impl<T: Drop> From<AllocFailed<T>> for Fault {
    ghost from_gives = { λ _ fault. fault ≡ faults.NoMemory };

    fn from(_error: AllocFailed<T>) -> Fault {
        Fault::NoMemory
    }
}

impl From<TaskFault> for Fault {
    ghost from_gives = { λ error fault. fault ≡ task_in error };

    fn from(error: TaskFault) -> Fault {
        match error {
            TaskFault::NoMemory => Fault::NoMemory,
            TaskFault::Read(_, _) | TaskFault::Check(_, _) | TaskFault::Ground(_) => {
                Fault::Task(error)
            }
        }
    }
}

/// Returns an error of a plan's text.
pub fn plan_read_in(error: PlanTextError) -> Fault
    ensures { result ≡ plan_read_in error }
{
    match error {
        PlanTextError::BadLine(_) => Fault::PlanText(error),
        PlanTextError::NoMemory => Fault::NoMemory,
    }
}

/// Returns an error of a schedule's text.
pub fn schedule_in(error: ScheduleError) -> Fault
    ensures { result ≡ schedule_in error }
{
    match error {
        ScheduleError::BadLine(_) => Fault::Schedule(error),
        ScheduleError::NoMemory => Fault::NoMemory,
    }
}

/// Returns why a plan is not valid.
pub fn judged_in(error: PlanError) -> Fault
    ensures { result ≡ judged_in error }
{
    match error {
        PlanError::NoMemory => Fault::NoMemory,
        PlanError::NoSuchAction(_)
        | PlanError::NotApplicable(_)
        | PlanError::Undefined(_)
        | PlanError::NegativeCost(_)
        | PlanError::Departs(_)
        | PlanError::GoalUnmet => Fault::Plan(error),
    }
}

/// Returns why a journal can't be begun, or gone on with.
pub fn journal_in(error: JournalError) -> Fault
    ensures { result ≡ journal_in error }
{
    match error {
        JournalError::NoMemory => Fault::NoMemory,
        JournalError::NotAJournal
        | JournalError::OtherTask
        | JournalError::Damaged(_)
        | JournalError::Device
        | JournalError::Failed
        | JournalError::JournalExists
        | JournalError::NotOut => Fault::Journal(error),
    }
}

/// Returns why a search that has its threads has ended without an answer.
fn run_in(fault: RunFault) -> Fault
    ensures { result ≡ run_in fault }
{
    match fault {
        RunFault::NoMemory => Fault::NoMemory,
        RunFault::Full
        | RunFault::Damaged(_)
        | RunFault::Device
        | RunFault::Failed
        | RunFault::NotOut => Fault::Search(fault),
    }
}

/// Returns why a search has ended without an answer.
pub fn search_in(fault: ThreadsFault) -> Fault
    ensures { result ≡ search_in fault }
{
    match fault {
        ThreadsFault::Run(fault) => run_in(fault),
        ThreadsFault::NoThread => Fault::NoThread,
    }
}

/// Returns why the entries of a journal show nothing.
pub fn certify_in(error: RecoverError) -> Fault
    ensures { result ≡ certify_in error }
{
    match error {
        RecoverError::NoMemory => Fault::NoMemory,
        RecoverError::Full => Fault::Search(RunFault::Full),
        RecoverError::Damaged(at) => Fault::Search(RunFault::Damaged(at)),
    }
}

/// Returns why a schedule is not played to its end.
pub fn replay_in(fault: ReplayFault) -> Fault
    ensures { result ≡ replay_in fault }
{
    match fault {
        ReplayFault::NoMemory => Fault::NoMemory,
        ReplayFault::Recovery(_) | ReplayFault::Journal(_) | ReplayFault::Full => {
            Fault::Replay(fault)
        }
    }
}

/// Returns why a file was not lent.
pub fn store_in(error: StoreError) -> Fault
    ensures { result ≡ store_in error }
{
    match error {
        StoreError::NoMemory => Fault::NoMemory,
        StoreError::Failed => Fault::Device,
    }
}

/// Returns a fault of a file, a reader or a writer, by its error's kind: `NoMemory` if memory
/// ran out, else `Device`.
pub fn kind_fault(kind: io::ErrorKind) -> Fault
    ensures { TellsKind kind result }
{
    if kind == io::ErrorKind::OutOfMemory {
        Fault::NoMemory
    } else {
        Fault::Device
    }
}

/// Returns why a plan's text was not written.
pub fn unwritten(error: WriteFault) -> Fault
    ensures { TellsUnwritten error result }
{
    match error {
        WriteFault::NoMemory => Fault::NoMemory,
        WriteFault::Device(kind) => kind_fault(kind),
    }
}

/// Returns a fault of a file, a reader or a writer, by its error.
pub fn device_fault(error: io::Error) -> Fault
    ensures { TellsKind (error_kind error) result }
{
    kind_fault(error.kind())
}
