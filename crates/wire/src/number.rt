//! Numbers in a file: groups of seven bits, lowest first, the high bit set on all but the last group.
//! At most five groups, in their shortest form, below 2^32.
ghost use Rattle.std.specs.Prelude.{◌≡◌, length};
ghost use Rattle.wire.specs.Numbers.{decode, encode};
ghost use Rattle.wire.specs.Outputs.{Puts};

use model::Refusal;

/// A number takes at most this many bytes.
pub const MAX_GROUPS: usize = 5;

/// The number at the front of `bytes`, with the count of its bytes.
pub fn decoded(bytes: &[u8]) -> Result<(u32, usize), Refusal>
    ensures { result ≡ decode bytes.now }
{
    let mut value: u64 = 0;
    let mut scale: u64 = 1;
    let front = &bytes[..bytes.len().min(MAX_GROUPS)];
    for (i, group) in front.iter().enumerate() {
        let group = *group;
        if group < 128 {
            value += group as u64 * scale;
            if (i > 0 && group == 0) || value > u32::MAX as u64 {
                return Err(Refusal::BadNumber);
            }
            return Ok((value as u32, i + 1));
        }
        value += (group - 128) as u64 * scale;
        scale *= 128;
    }
    if bytes.len() < MAX_GROUPS {
        Err(Refusal::FileEndsEarly)
    } else {
        Err(Refusal::BadNumber)
    }
}

/// How many bytes a number takes.
pub fn encoded_len(n: u32) -> usize
    ensures { result ≡ length (encode n) }
{
    if n < 1 << 7 {
        1
    } else if n < 1 << 14 {
        2
    } else if n < 1 << 21 {
        3
    } else if n < 1 << 28 {
        4
    } else {
        5
    }
}

/// Writes a number into `groups`, a byte for each group.
fn write(n: u32, groups: &mut [u8])
    requires room { length groups.old ≡ length (encode n) }
    ensures { groups.new ≡ encode n }
{
    let mut rest = n;
    for group in groups.iter_mut() {
        *group = if rest < 128 {
            rest as u8
        } else {
            (rest % 128) as u8 + 128
        };
        rest /= 128;
    }
}

/// Writes a number at a place of `out`, and answers the place after it. Where there is no room for all of it nothing is written,
/// and there is no answer.
pub fn put(n: u32, out: &mut [u8], at: usize) -> Option<usize>
    ensures { Puts (encode n) at out.old out.new result }
{
    let len = encoded_len(n);
    if at > out.len() || out.len() - at < len {
        return None;
    }
    let to = at + len;
    write(n, &mut out[at..to]);
    Some(to)
}
