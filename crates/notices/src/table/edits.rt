ghost use Rattle.std.specs.Prelude.{◌≡◌, ◌<◌, [], ◌∷◌, ◌++◌, ◌==◌, position};
ghost use Rattle.std.specs.List.{remove};
ghost use Rattle.notices.specs.Notices.{notice_of, put_in, lift_from, put_refusal, lift_refusal, unless, handing};
ghost use Rattle.notices.specs.Tables.{listed};

use crate::notice::Notice;
use crate::table::{BLANK, MOST_NOTICES, NoticeTable};
use model::Refusal;

impl NoticeTable {
    /// No notice.
    pub fn new() -> NoticeTable
        ensures { listed result ≡ [] }
    {
        NoticeTable {
            items: [BLANK; MOST_NOTICES],
            len: 0,
        }
    }

    /// The notices that stand in it.
    fn standing(&self) -> &[Notice]
        ensures { result.now ≡ listed self.now }
    {
        &self.items[..self.len]
    }

    /// The same notices in a table of their own.
    pub fn copied(&self) -> NoticeTable
        ensures { result ≡ self.now }
    {
        *self
    }

    /// Adds a notice at the end.
    fn push(&mut self, notice: Notice)
        requires { self.old.len < 64 }
        ensures { listed self.new ≡ listed self.old ++ notice ∷ [] }
    {
        self.items[self.len] = notice;
        self.len += 1;
    }

    /// Takes the notice of an index out, and closes the gap.
    fn remove(&mut self, at: usize)
        requires { at < self.old.len }
        ensures { listed self.new ≡ remove (listed self.old) at }
    {
        self.items.copy_within(at + 1..self.len, at);
        self.len -= 1;
        self.items[self.len] = BLANK;
    }

    /// The index of the service's notice.
    fn place(&self, service: u32) -> Option<usize>
        ensures { result ≡ position (λ notice. notice.service == service) (listed self.now) }
    {
        self.standing()
            .iter()
            .position(|notice| notice.service == service)
    }

    /// The notice of the service. By a `find` through copies of the rows a look into an empty table, as most are, costs twice as much.
    pub fn find(&self, service: u32) -> Option<Notice>
        ensures { result ≡ notice_of service (listed self.now) }
    {
        let at = self.place(service)?;
        Some(self.items[at])
    }

    /// Rewrites the notice of that service, or adds one at the end; refused where there are 64 others.
    pub fn put(&mut self, notice: Notice) -> Result<(), Refusal>
        ensures answer { result ≡ handing tt (put_refusal notice (listed self.old)) }
        ensures after { listed self.new ≡ unless (put_refusal notice (listed self.old)) (put_in notice (listed self.old)) (listed self.old) }
    {
        match self.place(notice.service) {
            Some(at) => {
                self.items[at].amend(&notice);
                Ok(())
            }
            None if self.len == MOST_NOTICES => Err(Refusal::NoticesFull),
            None => {
                self.push(notice);
                Ok(())
            }
        }
    }

    /// Takes the service's notice out and closes the gap; refused where it has none.
    pub fn lift(&mut self, service: u32) -> Result<(), Refusal>
        ensures answer { result ≡ handing tt (lift_refusal service (listed self.old)) }
        ensures after { listed self.new ≡ unless (lift_refusal service (listed self.old)) (lift_from service (listed self.old)) (listed self.old) }
    {
        let at = self.place(service).ok_or(Refusal::NothingToLift)?;
        self.remove(at);
        Ok(())
    }
}

impl Default for NoticeTable {
    fn default() -> NoticeTable
        ensures { listed result ≡ [] }
    {
        NoticeTable::new()
    }
}
