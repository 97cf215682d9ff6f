// What the case programs share: how a case is read from standard input. Its numbers are big-endian.
#![tactic(auto)]

ghost use Rattle.std.specs.Prelude.{◌≡◌, ◌<◌, ◌≤◌, ◌^◌, IfErr, IfOk, length};

use std::io;
use std::io::{ErrorKind, Read};

// Room for a case's job: twice the longest that is accepted, so that there is one for what is longer too.
pub const JOB_ROOM: usize = 2 * rules::LONGEST_FILE;

// The input ended, a read failed, or there was no room for all: so many bytes had come.
#[derive(Clone, Copy)]
pub struct Short {
    pub end: usize,
}

impl From<Short> for io::Error {
    fn from(_short: Short) -> io::Error {
        io::Error::from(ErrorKind::UnexpectedEof)
    }
}

// The next bytes, as many as the array takes.
fn read_bytes<const N: usize>(rt: &HostRuntime) -> io::Result<[u8; N]> {
    let mut bytes = [0u8; N];
    rt.stdin().read_exact(&mut bytes)?;
    Ok(bytes)
}

// The next number, of two bytes.
fn read_short(rt: &HostRuntime) -> io::Result<u16> {
    Ok(u16::from_be_bytes(read_bytes(rt)?))
}

// The next number, of four bytes.
pub fn read_long(rt: &HostRuntime) -> io::Result<u32>
    ensures { IfOk result (λ n. n < 2 ^ 32) }
{
    Ok(u32::from_be_bytes(read_bytes(rt)?))
}

// Fills the part from its front, until the input ends or a read fails, and answers how many bytes there were. A read that a signal interrupts is tried
// again. A proved loop has to end, so it counts, to a number that no run comes to.
fn read_up_to(rt: &HostRuntime, part: &mut [u8]) -> usize
    ensures { result ≤ length part.new }
{
    let mut end = 0;
    for _ in 0..u64::MAX {
        if end == part.len() {
            break;
        }
        match rt.stdin().read(&mut part[end..]) {
            Ok(0) => break,
            Ok(more) => end += more,
            Err(error) if error.kind() == ErrorKind::Interrupted => {}
            Err(_) => break,
        }
    }
    end
}

// Reads so many bytes to the front of the room, and answers how many there were. Where there is no room for all, none is read.
pub fn read_front(rt: &HostRuntime, room: &mut [u8], count: usize) -> Result<usize, Short>
    ensures whole { IfOk result (λ end. end ≡ count) }
    ensures in_room { IfOk result (λ end. end ≤ length room.new) }
    ensures short { IfErr result (λ s. s.end < count) }
    ensures end_in_bounds { IfErr result (λ s. s.end ≤ length room.new) }
{
    if count > room.len() {
        return Err(Short { end: 0 });
    }
    let end = read_up_to(rt, &mut room[..count]);
    if end < count {
        return Err(Short { end });
    }
    Ok(end)
}

// Reads a job, which stands behind the count of its bytes, to the front of the room, and answers that count.
pub fn read_job(rt: &HostRuntime, room: &mut [u8]) -> Result<usize, Short>
    ensures whole { IfOk result (λ count. count ≤ length room.new) }
    ensures end_in_bounds { IfErr result (λ s. s.end ≤ length room.new) }
{
    let Ok(count) = read_short(rt) else {
        return Err(Short { end: 0 });
    };
    let count = usize::from(count);
    read_front(rt, room, count)?;
    Ok(count)
}
