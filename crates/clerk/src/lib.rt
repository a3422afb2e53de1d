//! A planner's ledger kept in the plainest way: two lists of notices.
#![tactic(auto)]

ghost use Rattle.std.specs.Prelude.{◌≡◌, [], None};
ghost use Rattle.clerk.specs.Marks.{Kept, Knows};

use model::{HORIZON, Refusal};
use notices::Notice;
use scripts::Change;
use std::alloc::{AllocError, Global};

/// The most notices.
const MOST_NOTICES: usize = 64;

/// The standing notices of a planner and its draft, where one is open; its mark, and the number of its book's services.
#[derive(Drop)]
pub struct Clerk {
    pub mark: u32,
    pub services: usize,
    pub standing: Vec<Notice>,
    draft: Option<Vec<Notice>>,
}

/// Whether a book of so many services can have the notice. The planner's own test is what this one is set against.
fn is_sound(notice: Notice, services: usize) -> bool {
    (notice.service as usize) < services
        && notice.lateness <= HORIZON
        && notice.shut <= notice.until
        && notice.until <= HORIZON
}

/// The notices but those of a service.
fn without(heap: Global, notices: &[Notice], service: u32) -> Result<Vec<Notice>, AllocError> {
    notices
        .iter()
        .copied()
        .filter(|notice| notice.service != service)
        .collect(heap)
}

/// The notices, with this one in place of another of its service.
fn replaced(heap: Global, notices: &[Notice], new: Notice) -> Result<Vec<Notice>, AllocError> {
    notices
        .iter()
        .map(|notice| {
            if notice.service == new.service {
                new
            } else {
                *notice
            }
        })
        .collect(heap)
}

impl Clerk {
    /// The ledger of no calls.
    pub fn new(heap: Global, mark: u32, services: usize) -> Clerk
        ensures known { (result.mark ≡ mark) × (result.services ≡ services) }
        ensures fresh { (result.standing.items ≡ []) × (result.draft ≡ None) }
    {
        Clerk {
            mark,
            services,
            standing: Vec::new(heap),
            draft: None,
        }
    }

    /// Opening: refused where a draft is open.
    fn open(&mut self) -> Result<Result<(), Refusal>, AllocError>
        ensures kept { Kept self.old self.new }
    {
        if self.draft.is_some() {
            return Ok(Err(Refusal::BulletinOpen));
        }
        self.draft = Some(self.standing.clone()?);
        Ok(Ok(()))
    }

    /// Putting: refused where a field is out of range, and where 64 other services have notices.
    fn put(
        &mut self,
        heap: Global,
        draft: Vec<Notice>,
        notice: Notice,
    ) -> Result<Result<(), Refusal>, AllocError>
        ensures kept { Kept self.old self.new }
    {
        if !is_sound(notice, self.services) {
            self.draft = Some(draft);
            return Ok(Err(Refusal::NoticeField));
        }
        let others = without(heap, draft.as_slice(), notice.service)?;
        if others.len() >= MOST_NOTICES {
            self.draft = Some(draft);
            return Ok(Err(Refusal::NoticesFull));
        }
        let mut all = replaced(heap, draft.as_slice(), notice)?;
        if others.len() == draft.len() {
            all.push(notice)?;
        }
        self.draft = Some(all);
        Ok(Ok(()))
    }

    /// Lifting: refused where the service has no notice.
    fn lift(
        &mut self,
        heap: Global,
        draft: Vec<Notice>,
        service: u32,
    ) -> Result<Result<(), Refusal>, AllocError>
        ensures kept { Kept self.old self.new }
    {
        let others = without(heap, draft.as_slice(), service)?;
        let lifted = others.len() < draft.len();
        self.draft = Some(others);
        if lifted {
            Ok(Ok(()))
        } else {
            Ok(Err(Refusal::NothingToLift))
        }
    }

    /// A call that is shown a mark, but for an opening: refused as no such bulletin where the mark is another one or no draft is open. Its
    /// answer comes back.
    pub fn call(
        &mut self,
        heap: Global,
        shown: u32,
        change: Change,
    ) -> Result<Result<(), Refusal>, AllocError>
        ensures kept { Kept self.old self.new }
        ensures known { Knows change self.old.mark shown result }
    {
        if let Change::Open = change {
            return self.open();
        }
        if shown != self.mark {
            return Ok(Err(Refusal::NoSuchBulletin));
        }
        let Some(draft) = self.draft.take() else {
            return Ok(Err(Refusal::NoSuchBulletin));
        };
        match change {
            Change::Open | Change::TearUp => Ok(Ok(())),
            Change::Put(notice) => self.put(heap, draft, notice),
            Change::Lift(service) => self.lift(heap, draft, service),
            Change::Issue => {
                self.standing = draft;
                Ok(Ok(()))
            }
        }
    }
}
