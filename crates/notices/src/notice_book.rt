//! A book under notices.
ghost use Rattle.std.specs.Prelude.{◌≡◌, []};
ghost use Rattle.notices.specs.Notices.{noticed};
ghost use Rattle.notices.specs.Tables.{listed};
ghost use Rattle.notices.specs.NoticeLaws.{noticed_lawful};

use crate::table::NoticeTable;
use book::Book;

/// A book, and the notices that stand over it.
#[derive(Drop)]
pub struct NoticeBook<B> {
    below: B,
    notices: NoticeTable,
}

impl<B> NoticeBook<B> {
    /// The book without notices.
    pub fn new(below: B) -> NoticeBook<B>
        ensures below { result.below ≡ below }
        ensures none { listed result.notices ≡ [] }
    {
        NoticeBook {
            below,
            notices: NoticeTable::new(),
        }
    }

    /// The book below.
    pub fn below(&self) -> &B
        ensures { result.now ≡ self.now.below }
    {
        &self.below
    }

    /// The standing notices.
    pub fn notices(&self) -> NoticeTable
        ensures { result ≡ self.now.notices }
    {
        self.notices.copied()
    }

    /// Makes other notices the standing ones.
    pub fn stand(&mut self, notices: NoticeTable)
        ensures { self.new ≡ record { below = self.old.below; notices = notices } }
    {
        self.notices = notices;
    }
}

impl<B: Book> Book for NoticeBook<B> {
    ghost services = { λ b. B.Book.services b.below };

    ghost answer = { λ b. noticed (listed b.notices) (B.Book.answer b.below) };

    ghost lawful = { λ b. noticed_lawful (listed b.notices) (B.Book.lawful b.below) };

    fn count(&self) -> u32 {
        self.below.count()
    }

    fn arrival(&self, service: u32, coming: u32) -> Option<u32> {
        let Some(notice) = self.notices.find(service) else {
            return self.below.arrival(service, coming);
        };
        let arrival = self.below.arrival(service, notice.going(coming));
        notice.delay(arrival)
    }
}
