// Reading the head of a file. Every step is total: any bytes and any limits have their answer.
ghost use Rattle.std.specs.Prelude.{◌≡◌, ◌+◌, ◌*◌, length};
ghost use Rattle.files.specs.Heads.{head_read, HeadExactly, request_named, count_within, long_as};

use crate::head::Head;
use denials::denial::{Denial, Reason};

const VERSION: u16 = 1;

// The number of two bytes, the higher one first.
pub fn number(high: u8, low: u8) -> u16
    ensures { result ≡ high * 256 + low }
{
    u16::from_be_bytes([high, low])
}

// The head of a file of one of these kinds.
pub fn read_head(bytes: &[u8], kinds: &[u8]) -> Result<Head, Denial>
    ensures answer { result ≡ head_read kinds.now bytes.now }
    ensures exactly { HeadExactly }
{
    let [
        b'P',
        b'M',
        b'T',
        version_high,
        version_low,
        kind,
        request_high,
        request_low,
        count_high,
        count_low,
        ..
    ] = *bytes
    else {
        return Err(Reason::NoMark.at(0));
    };
    if number(version_high, version_low) != VERSION {
        return Err(Reason::WrongVersion.at(3));
    }
    if !kinds.contains(&kind) {
        return Err(Reason::WrongKind.at(5));
    }
    Ok(Head {
        kind,
        request: number(request_high, request_low),
        count: number(count_high, count_low),
    })
}

impl Head {
    // The row of the request, where `named` rows are named.
    pub fn request_named(self, named: usize) -> Result<u16, Denial>
        ensures answer { result ≡ request_named named self }
    {
        if (self.request as usize) < named {
            Ok(self.request)
        } else {
            Err(Reason::RequestNotNamed.at(6))
        }
    }

    // The count, which is 1 to `limit`.
    pub fn count_within(self, limit: u16) -> Result<u16, Denial>
        ensures answer { result ≡ count_within limit self }
    {
        if (1..=limit).contains(&self.count) {
            Ok(self.count)
        } else {
            Err(Reason::CountOutOfRange.at(8))
        }
    }
}

// Whether the file has just `length` bytes.
pub fn long_as(bytes: &[u8], length: usize) -> Result<(), Denial>
    ensures answer { result ≡ long_as length bytes.now }
{
    if bytes.len() == length {
        Ok(())
    } else {
        Err(Reason::WrongLength.at(10))
    }
}
