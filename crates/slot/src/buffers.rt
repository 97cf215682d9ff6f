// The four buffers of a state, 25 bytes each: the count and then the entries.
ghost use Rattle.std.specs.Prelude.{◌+◌, ◌*◌, ◌≤◌, length};
ghost use Rattle.rules.specs.Limits.{most_threads, buffer_size};
ghost use Rattle.span.specs.Span.{Laid};
ghost use Rattle.slot.specs.Bytes.{buffer_bytes, buffers_bytes};
ghost use Rattle.slot.specs.Table.{ReadBuffer, ReadBuffers};

use buffer::Buf;
use state::State;

// Lays the count and then the entries over the table from `at` on.
fn put_buffer(table: &mut [u8], at: usize, b: Buf)
    requires { at + buffer_size ≤ length table.old }
    ensures { Laid table.old table.new at (buffer_bytes b) }
{
    table[at] = b.count;
    span::put_bytes(table, at + 1, &b.slots);
}

// Lays the buffers of the state over the table from `at` on, thread by thread.
pub fn put_buffers(table: &mut [u8], at: usize, x: State)
    requires { at + most_threads * buffer_size ≤ length table.old }
    ensures { Laid table.old table.new at (buffers_bytes x.bufs) }
{
    for (t, b) in x.bufs.iter().enumerate() {
        put_buffer(table, at + rules::BUFFER_SIZE * t, *b);
    }
}

// The buffer whose count and entries stand from `at` on.
fn read_buffer(table: &[u8], at: usize) -> Buf
    requires { at + buffer_size ≤ length table.now }
    ensures { ReadBuffer table.now at result }
{
    let mut slots = [0u8; rules::ENTRIES_SIZE];
    span::read_bytes(&mut slots, table, at + 1);
    Buf {
        count: table[at],
        slots,
    }
}

// The buffers that stand from `at` on, thread by thread.
pub fn read_buffers(table: &[u8], at: usize) -> [Buf; rules::THREADS]
    requires { at + most_threads * buffer_size ≤ length table.now }
    ensures { ReadBuffers table.now at most_threads result }
{
    let empty = Buf {
        count: 0,
        slots: [0; rules::ENTRIES_SIZE],
    };
    let mut bufs = [empty; rules::THREADS];
    for (t, b) in bufs.iter_mut().enumerate() {
        *b = read_buffer(table, at + rules::BUFFER_SIZE * t);
    }
    bufs
}
