//! Numbers and names, read from a file.
ghost use Rattle.wire.specs.Places.{number_at};
ghost use Rattle.wire.specs.Grammar.{ranged, below, since, exactly, text};
ghost use Rattle.wire.specs.Readers.{Reads, Takes, viewed};

use crate::fault::Fault;
use crate::number::decoded;
use crate::reader::Reader;
use model::Refusal;

impl<'a> Reader<'a> {
    /// The number at the reader's place, which then is past it; a fault leaves the place.
    pub fn number(&mut self) -> Result<u32, Fault>
        ensures { Reads number_at self.old self.new result }
    {
        let at = self.at;
        let (value, len) = decoded(&self.bytes[at..]).map_err(|refusal| Fault { refusal, at })?;
        self.at += len;
        Ok(value)
    }

    /// A number, as what `take` makes of it; one of which it makes nothing is refused at its first byte.
    fn number_as<T, F: FnOnce(u32) -> Option<T>>(
        &mut self,
        refusal: Refusal,
        take: F,
    ) -> Result<T, Fault>
        requires { F.IsAlwaysCallable take }
        ensures { Takes (F.post take) refusal self.old self.new result }
    {
        let at = self.at;
        take(self.number()?).ok_or(Fault { refusal, at })
    }

    /// A number from `low` to `high`; any other is refused.
    pub fn number_in(&mut self, low: u32, high: u32, refusal: Refusal) -> Result<u32, Fault>
        ensures { Reads (ranged low high refusal).read self.old self.new result }
    {
        self.number_as(refusal, |n| (low <= n && n <= high).then_some(n))
    }

    /// A number below `bound`; any other is refused.
    pub fn number_below(&mut self, bound: u32, refusal: Refusal) -> Result<u32, Fault>
        ensures { Reads (below bound refusal).read self.old self.new result }
    {
        self.number_as(refusal, |n| (n < bound).then_some(n))
    }

    /// A number from `low` to `high`, given by its distance from `base`; any other is refused.
    pub fn number_since(
        &mut self,
        base: u32,
        low: u64,
        high: u32,
        refusal: Refusal,
    ) -> Result<u32, Fault>
        ensures { Reads (since base low high refusal).read self.old self.new result }
    {
        self.number_as(refusal, |n| {
            let n = base as u64 + n as u64;
            (low <= n && n <= high as u64).then(|| n as u32)
        })
    }

    /// The number `n` itself; any other is refused.
    pub fn exactly(&mut self, n: u32, refusal: Refusal) -> Result<(), Fault>
        ensures { Reads (exactly n refusal).read self.old self.new result }
    {
        self.number_as(refusal, |read| (read == n).then_some(()))
    }

    /// A length from `low` to `high`, and that many bytes, lent by the file.
    pub fn name(&mut self, low: u32, high: u32, refusal: Refusal) -> Result<&'a [u8], Fault>
        ensures { Reads (text (ranged low high refusal)).read self.old self.new (viewed (λ name. name.now) result) }
    {
        let len = self.number_in(low, high, refusal)? as usize;
        let from = self.at;
        if self.bytes.len() - from < len {
            return Err(Fault {
                refusal: Refusal::FileEndsEarly,
                at: from,
            });
        }
        self.at = from + len;
        Ok(&self.bytes[from..from + len])
    }
}
