//! The rule of the lock's queue, and what each step of it reports.
ghost use Rattle.hd_desk.specs.Kept.{Kept};
ghost use Rattle.hd_desk.specs.Steps.{Opened, Entered, Left, IsThere, IsThereAlone, IsGone};
ghost use Rattle.hd_desk.specs.Views.{unopened, less_one, another_of, with_told, spent};

use crate::locked::Locked;
use crate::view::View;
use crossbeam_queue::protocol::{Join, Lesson, Outcome, Protocol, Split};

/// The value lies in the queue, or is with one pass.
pub struct OnePlace;

impl<B: Locked> Protocol<B, View<B::Task, B::Item>> for OnePlace {
    ghost holds = { Kept B.task B.log };

    ghost first = { unopened };
}

/// The value comes.
pub struct Opens;

impl<B: Locked> Outcome<B, View<B::Task, B::Item>> for Opens {
    ghost then = { Opened B.task B.log };
}

impl<B: Locked> Lesson<B, View<B::Task, B::Item>> for Opens {
    ghost fact = { IsGone };
}

/// A pass takes the value.
pub struct Enters;

impl<B: Locked> Outcome<B, View<B::Task, B::Item>> for Enters {
    ghost then = { Entered B.task B.log };
}

impl<B: Locked> Lesson<B, View<B::Task, B::Item>> for Enters {
    ghost fact = { λ v items. Unit {0} };
}

/// The pass with every part takes the value.
pub struct Gathers;

impl<B: Locked> Outcome<B, View<B::Task, B::Item>> for Gathers {
    ghost then = { Entered B.task B.log };
}

impl<B: Locked> Lesson<B, View<B::Task, B::Item>> for Gathers {
    ghost fact = { IsThere };
}

/// A pass looks whether the value lies in the queue.
pub struct Looks;

impl<B: Locked> Lesson<B, View<B::Task, B::Item>> for Looks {
    ghost fact = { IsThereAlone };
}

/// A pass gives the value back.
pub struct Leaves;

impl<B: Locked> Outcome<B, View<B::Task, B::Item>> for Leaves {
    ghost then = { Left B.task B.log };
}

impl<B: Locked> Lesson<B, View<B::Task, B::Item>> for Leaves {
    ghost fact = { IsGone };
}

/// A pass gives one of its parts to a new pass, and takes another pass in.
pub struct Parts;

impl<T, I> Split<View<T, I>> for Parts {
    ghost left = { less_one };

    ghost right = { another_of };
}

impl<T, I> Join<View<T, I>> for Parts {
    ghost both = { with_told };

    ghost spent = { spent };
}
