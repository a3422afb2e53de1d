ghost use Rattle.std.specs.Prelude.{◌≡◌, []};
ghost use Rattle.notices.specs.Notices.{handing};
ghost use Rattle.ledger.specs.Ledgers.{Open, Put, Lift, Issue, TearUp, allowed};
ghost use Rattle.planner.specs.Planners.{AsLedger, Closed, Made, Planned, refusing, returning};

use crate::planner::{Bulletin, Planner, Returned};
use book::Book;
use model::{Enquiry, Found, Leg, Refusal};
use network::Network;
use notices::{Notice, NoticeBook, NoticeTable};
use rules::Rule;
use search::{Product, SearchTables};

impl Bulletin {
    /// The mark of the planner that it was opened at.
    pub fn mark(&self) -> u32
        ensures { result ≡ self.now.mark }
    {
        self.mark
    }
}

impl<B: Book, R> Planner<B, R> {
    /// A planner without notices and without a draft.
    pub fn new(book: B, rule: R, mark: u32) -> Planner<B, R>
        ensures kept { (result.book.below ≡ book) × (result.rule ≡ rule) × (result.mark ≡ mark) }
        ensures fresh { AsLedger B.Book.services result [] }
    {
        Planner {
            book: NoticeBook::new(book),
            rule,
            mark,
            draft: None,
        }
    }

    /// Copies the standing notices into a draft, and hands out a bulletin for it.
    pub fn open(&mut self) -> Result<Bulletin, Refusal>
        ensures answer { result ≡ handing (record { mark = self.old.mark }) (refusing B.Book.services self.old Open) }
        ensures made { Made B.Book.services Open self.old self.new }
    {
        if self.draft.is_some() {
            return Err(Refusal::BulletinOpen);
        }
        self.draft = Some(self.book.notices());
        Ok(Bulletin { mark: self.mark })
    }

    /// Whether the notice's fields are in range and its service is one of the book's.
    fn allows(&self, notice: &Notice) -> bool
        ensures { result ≡ allowed (B.Book.services self.now.book.below) notice.now }
    {
        notice.in_range() && notice.service < self.book.count()
    }

    /// Rewrites the draft's notice of that service, or adds one at its end.
    pub fn put(&mut self, bulletin: &Bulletin, notice: Notice) -> Result<(), Refusal>
        ensures answer { result ≡ handing tt (refusing B.Book.services self.old (Put bulletin.now.mark notice)) }
        ensures made { Made B.Book.services (Put bulletin.now.mark notice) self.old self.new }
    {
        let allowed = self.allows(&notice);
        match &mut self.draft {
            Some(draft) if bulletin.mark == self.mark => {
                if !allowed {
                    return Err(Refusal::NoticeField);
                }
                draft.put(notice)
            }
            _ => Err(Refusal::NoSuchBulletin),
        }
    }

    /// Takes the service's notice out of the draft.
    pub fn lift(&mut self, bulletin: &Bulletin, service: u32) -> Result<(), Refusal>
        ensures answer { result ≡ handing tt (refusing B.Book.services self.old (Lift bulletin.now.mark service)) }
        ensures made { Made B.Book.services (Lift bulletin.now.mark service) self.old self.new }
    {
        match &mut self.draft {
            Some(draft) if bulletin.mark == self.mark => draft.lift(service),
            _ => Err(Refusal::NoSuchBulletin),
        }
    }

    /// Closes the draft and takes the bulletin in, the one place where a bulletin ends; or hands the bulletin back, where no draft is open
    /// or it has another planner's mark.
    fn close(&mut self, bulletin: Bulletin) -> Result<NoticeTable, Returned>
        ensures { Closed bulletin self.old self.new result }
    {
        match self.draft.take_if(|_draft| bulletin.mark == self.mark) {
            Some(draft) => {
                let Bulletin { mark: _ } = bulletin;
                Ok(draft)
            }
            None => Err(Returned {
                refusal: Refusal::NoSuchBulletin,
                bulletin,
            }),
        }
    }

    /// Makes the draft's notices the standing ones.
    pub fn issue(&mut self, bulletin: Bulletin) -> Result<(), Returned>
        ensures answer { result ≡ returning bulletin (refusing B.Book.services self.old (Issue bulletin.mark)) }
        ensures made { Made B.Book.services (Issue bulletin.mark) self.old self.new }
    {
        let draft = self.close(bulletin)?;
        self.book.stand(draft);
        Ok(())
    }

    /// Forgets the draft.
    pub fn tear_up(&mut self, bulletin: Bulletin) -> Result<(), Returned>
        ensures answer { result ≡ returning bulletin (refusing B.Book.services self.old (TearUp bulletin.mark)) }
        ensures made { Made B.Book.services (TearUp bulletin.mark) self.old self.new }
    {
        self.close(bulletin)?;
        Ok(())
    }
}

impl<B: Book, R: Rule> Planner<B, R> {
    /// The journey that answers the enquiry over the network, under the standing notices and by the rule: its legs go into the
    /// slip's first rows. The label table and the queue's slots are free to be written once they are found long enough.
    pub fn ask(
        &self,
        network: Network,
        enquiry: Enquiry,
        tables: &mut SearchTables<'_>,
        slip: &mut [Leg],
    ) -> Result<Found, Refusal>
        ensures planned { Planned B.Book.services B.Book.answer R.Rule.automaton self.now network.entry.stops network.entry.arcs.now enquiry tables.old.labels.now tables.new.labels.now tables.old.slots.now tables.new.slots.now slip.old slip.new result }
        ensures same_tables { (tables.new.labels.ghost_name ≡ tables.old.labels.ghost_name) × (tables.new.slots.ghost_name ≡ tables.old.slots.ghost_name) }
    {
        let product = Product {
            network,
            book: &self.book,
            rule: &self.rule,
        };
        search::ask(&product, enquiry, tables, slip)
    }
}
