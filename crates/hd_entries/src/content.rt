//! The parts of what is held of a search.
use crate::entry::DraftNode;
use crate::expanded::ExpandedPlans;
use hd_tables::KidTable;
use hd_task::{NoMemory, Task};
use hd_zobrist::Words;
use std::alloc::Global;

/// The parts of what is held of a search.
#[derive(Debug, Drop)]
pub(crate) struct EntriesContent<'t> {
    pub(crate) expanded: ExpandedPlans<'t>,
    /// What the expanded plans have posted, and what of it is settled.
    pub(crate) kids: KidTable,
    /// Where the successor leads that was judged last: a commit does not allocate for it.
    pub(crate) reached: DraftNode,
    /// How many entries there may be.
    pub(crate) most: u64,
}

impl<'t> EntriesContent<'t> {
    ghost use Rattle.std.specs.Prelude.{◌≡◌, [], ◌∷◌, None, false, IfOk};
    ghost use Rattle.hd_tables.specs.Kids.{root};

    /// Returns the parts of a search without entries: the root is posted.
    ///
    /// # Errors
    /// - `NoMemory`: there is no room for it.
    pub(crate) fn new(
        alloc: Global,
        task: &'t Task,
        most: u64,
    ) -> Result<EntriesContent<'t>, NoMemory>
        ensures task { IfOk result (λ c. c.expanded.task.now ≡ task.now) }
        ensures entries { IfOk result (λ c. c.expanded.entries.items ≡ []) }
        ensures best { IfOk result (λ c. c.expanded.best ≡ None) }
        ensures departure { IfOk result (λ c. c.expanded.departure ≡ None) }
        ensures kids { IfOk result (λ c. c.kids.kids ≡ root ∷ []) }
        ensures marks { IfOk result (λ c. c.kids.marks ≡ false ∷ []) }
        ensures entered { IfOk result (λ c. c.kids.entries ≡ 0) }
        ensures most { IfOk result (λ c. c.most ≡ most) }
    {
        let words = Words::new(alloc, task)?;
        let kids = KidTable::new(alloc)?;
        Ok(EntriesContent {
            expanded: ExpandedPlans::none(alloc, task, words),
            kids,
            reached: DraftNode::empty(alloc),
            most,
        })
    }
}
