// Replays the recorded list: each of its corpora goes through the call, with buffers of the recorded lengths. Prints the list's
// CityHash64, which list.sum has too, then each case that differs, and how many do.

#![tactic(auto)]

ghost use Rattle.std.specs.Prelude.{◌≤◌, length, IfOk};

use std::fs::File;
use std::io;
use std::io::Read;

mod room; // on the stack
mod list; // the list taken apart
mod cases; // replayed

fn tell(rt: &HostRuntime, list: &[u8]) -> io::Result<()> {
    let sum = city::city::city_hash64(list);
    println!(rt; "list {sum:016x}")?;
    let mut work = room::filled::<{ room::WORK }>(0);
    let t = cases::replay(rt, list, &mut work)?;
    let replayed = t.replayed;
    let differ = t.differ;
    println!(rt; "{replayed} replayed, {differ} differ")
}

// Reads a file until it ends or the room is full, and says how many bytes there were.
// Kept: a loop over `read`: the library's `read_to_end` needs a Vec, and there is no heap.
fn read_full(file: &mut File, room: &mut [u8]) -> io::Result<usize>
    ensures { IfOk result (λ n. n ≤ length room.old) }
{
    let mut n: usize = 0;
    while n < room.len() {
        let k = file.read(&mut room[n..])?;
        if k == 0 {
            return Ok(n);
        }
        n += k;
    }
    Ok(n)
}

fn main(rt: HostRuntime) -> io::Result<()> {
    let mut list = room::filled::<{ room::LIST }>(0);
    let mut file = File::open(&rt, "list.bin")?;
    let n = read_full(&mut file, &mut list)?;
    tell(&rt, &list[..n])
}
