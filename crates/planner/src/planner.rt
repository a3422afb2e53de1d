//! A planner, and the token that leave to change its notices is shown by.
use model::Refusal;
use notices::{NoticeBook, NoticeTable};

/// What is asked of a planner.
pub mod calls;

/// Leave to change one planner's draft, with the planner's mark. Only opening a draft makes one; it can be neither copied nor let
/// go, and only an accepted issue or tearing up takes it in.
pub struct Bulletin {
    mark: u32,
}

/// A book under the standing notices, with a rule and a mark of the host's; and the draft of the next notices, where one is open.
#[derive(Drop)]
pub struct Planner<B, R> {
    book: NoticeBook<B>,
    rule: R,
    mark: u32,
    draft: Option<NoticeTable>,
}

/// A bulletin that was not taken in, and why.
pub struct Returned {
    pub refusal: Refusal,
    pub bulletin: Bulletin,
}
