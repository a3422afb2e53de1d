//! The table of notices.
ghost use Rattle.std.specs.Prelude.{◌≡◌, ◌≤◌, length};
ghost use Rattle.notices.specs.Blanks.{BlankFrom};

use crate::notice::Notice;

/// What the table does.
pub mod edits;

/// How many notices a table has room for.
const MOST_NOTICES: usize = 64;

/// A row where no notice stands.
const BLANK: Notice = Notice {
    service: 0,
    lateness: 0,
    shut: 0,
    until: 0,
};

/// Up to 64 notices, in the order in which they were added; the rows behind them are blank. It is a row with a count, and no
/// `ArrayVec`, since that is not `Copy`.
#[derive(Clone, Copy, Debug, Drop, PartialEq, Eq)]
pub struct NoticeTable {
    items: [Notice; MOST_NOTICES],
    len: usize,
    ghost few: { len ≤ 64 },
    ghost whole: { length items ≡ 64 },
    ghost blank: { BlankFrom len items },
}
