//! From two texts and the name of a file to the task of the texts and the bytes of the file.
ghost use Rattle.std.specs.Prelude.{◌≡◌, IfOk, IfErr, IfSome};
ghost use Rattle.hd_texts.specs.Digest as digests;
ghost use Rattle.hd_texts.specs.Tasks.{IsTaskOf};
ghost use Rattle.hplan.specs.Certifying.{IsNotRead};

use crate::fault::{Fault, device_fault};
use crate::places::Places;
use hd_journal::DIGEST_LEN;
use hd_task::Task;
use hd_texts::{Stages, digest_of, task_by};
use std::alloc::Global;

/// The task of two texts, and the bytes of a file that may be its journal.
#[derive(Drop)]
pub struct TaskFile {
    pub task: Task,
    /// The digest of the two texts.
    pub digest: [u8; DIGEST_LEN],
    /// The bytes of the file.
    pub content: Vec<u8>,
}

/// Returns the task of `domain` and `problem`, and the bytes of the file `name`. The file is read,
/// and left alone. The stages of the texts are said.
///
/// # Errors
/// - The first fault of the texts; or that the file can't be read.
pub fn task_file<P: Places, S: Stages>(
    alloc: Global,
    places: &mut P,
    name: &str,
    domain: &[u8],
    problem: &[u8],
    stages: &mut S,
) -> Result<TaskFile, Fault>
    ensures task { IfOk result (λ r. IsTaskOf domain.now problem.now r.task) }
    ensures digest { IfOk result (λ r. r.digest ≡ digests.digest_of domain.now problem.now) }
    ensures content { IfOk result (λ r. IfSome (P.file_of places.old name.now)
        (λ bytes. r.content.items ≡ bytes)) }
    ensures refusal { IfErr result
        (IsNotRead domain.now problem.now (P.file_of places.old name.now)) }
    ensures alone { places.new ≡ places.old }
{
    let task = match task_by(alloc, domain, problem, stages) {
        Ok(task) => task,
        Err(fault) => return Err(Fault::from(fault)),
    };
    match places.read(alloc, name) {
        Ok(content) => Ok(TaskFile {
            task,
            digest: digest_of(domain, problem),
            content,
        }),
        Err(error) => {
            drop(task);
            Err(device_fault(error))
        }
    }
}
