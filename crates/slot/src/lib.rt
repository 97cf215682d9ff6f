// A state as the bytes of a slot: laid out in a room of their own, and read from a table that the caller lends.
#![tactic(auto)]

mod buffers;
mod layout;

ghost use Rattle.std.specs.Prelude.{◌≡◌};
ghost use Rattle.slot.specs.Bytes.{state_bytes};
ghost use Rattle.slot.specs.Table.{Room, ReadFrom};

use state::State;

// The state's bytes.
pub fn bytes_of(x: State) -> [u8; rules::SLOT_SIZE]
    ensures { result ≡ state_bytes x }
{
    let mut bytes = [0u8; rules::SLOT_SIZE];
    span::put_bytes(&mut bytes, 0, &x.places);
    span::put_bytes(&mut bytes, layout::REGISTERS_AT, &x.regs);
    span::put_bytes(&mut bytes, layout::MEMORY_AT, &x.mem);
    buffers::put_buffers(&mut bytes, layout::BUFFERS_AT, x);
    bytes
}

// The state whose bytes stand in slot i.
pub fn read_slot(table: &[u8], i: usize) -> State
    requires { Room table.now i }
    ensures { ReadFrom table.now i result }
{
    let at = rules::SLOT_SIZE * i;
    let mut places = [0u8; rules::THREADS];
    span::read_bytes(&mut places, table, at);
    let mut regs = [0u8; rules::REGISTERS_SIZE];
    span::read_bytes(&mut regs, table, at + layout::REGISTERS_AT);
    let mut mem = [0u8; rules::MEMORY_SIZE];
    span::read_bytes(&mut mem, table, at + layout::MEMORY_AT);
    let bufs = buffers::read_buffers(table, at + layout::BUFFERS_AT);
    State {
        places,
        regs,
        mem,
        bufs,
    }
}
