// A thread's store buffer: pending stores that go in by value and come back.
#![tactic(auto)]

ghost use Rattle.std.specs.Prelude.{◌≡◌, ◌/◌, ◌%◌, ◌<◌, length};
ghost use Rattle.rules.specs.Limits.{most_pending, group_unit};
ghost use Rattle.rules.specs.Slot.{high, low};
ghost use Rattle.rules.specs.State.{empty_buffer};
ghost use Rattle.rules.specs.Step as rules;
ghost use Rattle.buffer.specs.Held.{number, held_pending, held_buffer, BufferOk};
ghost use Rattle.buffer.specs.Places.{set_entry};
ghost use Rattle.buffer.specs.Posts.{read_entry, IsPosition, Holds};

use rules::{ENTRIES_SIZE, ENTRY_SIZE, GROUP_UNIT, MARK_UNIT};

mod flush; // a store leaves, if it may
mod join; // a store joins

// The count byte: how many stores are pending, and 128 more while a WFENCE stands after the newest. Then an entry of three bytes for each
// store: 16 times its group plus its variable, and its value, the higher byte first; unused entries are 0.
#[derive(Clone, Copy)]
pub struct Buf {
    pub count: u8,
    pub slots: [u8; ENTRIES_SIZE],
}

// What a flush takes: the value of a store, and the buffer without it.
#[derive(Clone, Copy)]
pub struct Taken {
    pub value: u16,
    pub rest: Buf,
}

// What the three bytes of an entry say: 16 times its group plus its variable, and its value.
#[derive(Clone, Copy)]
struct Entry {
    byte: u8,
    value: u16,
}

const UNUSED: Entry = Entry { byte: 0, value: 0 };

impl Entry {
    fn group(self) -> u8
        ensures is { result ≡ self.byte / group_unit }
        ensures fits { result < group_unit }
    {
        self.byte / GROUP_UNIT
    }

    fn variable(self) -> u8
        ensures { result ≡ self.byte % group_unit }
    {
        self.byte % GROUP_UNIT
    }
}

impl Buf {
    // How many stores are pending: an index behind the newest.
    fn number(self) -> usize
        ensures { result ≡ number self }
    {
        usize::from(self.count % MARK_UNIT)
    }

    fn entry(self, i: usize) -> Entry
        requires { i < most_pending }
        ensures { result ≡ read_entry self.slots i }
    {
        let at = ENTRY_SIZE * i;
        Entry {
            byte: self.slots[at],
            value: words::word(self.slots[at + 1], self.slots[at + 2]),
        }
    }

    fn set_entry(&mut self, i: usize, e: Entry)
        requires { i < most_pending }
        ensures { self.new ≡ record { count = self.old.count; slots = set_entry self.old.slots i e.byte (high e.value) (low e.value) } }
    {
        let at = ENTRY_SIZE * i;
        self.slots[at] = e.byte;
        self.slots[at + 1] = words::high(e.value);
        self.slots[at + 2] = words::low(e.value);
    }

    // The index of the oldest pending store that passes the test, if there is one.
    fn position<F: Fn(Entry) -> bool>(self, test: F) -> Option<usize>
        requires ok { BufferOk self }
        requires callable { F.IsAlwaysCallable test }
        ensures { IsPosition (F.post test) self result }
    {
        for i in 0..self.number() {
            if test(self.entry(i)) {
                return Some(i);
            }
        }
        None
    }

    pub fn empty() -> Buf
        ensures { Holds result empty_buffer }
    {
        Buf {
            count: 0,
            slots: [0; ENTRIES_SIZE],
        }
    }

    // How many stores are pending, in all groups.
    pub fn pending(self) -> u8
        requires { BufferOk self }
        ensures { result ≡ length (held_pending self) }
    {
        self.count % MARK_UNIT
    }

    pub fn is_empty(self) -> bool
        requires { BufferOk self }
        ensures { result ≡ rules.is_empty (held_pending self) }
    {
        self.count % MARK_UNIT == 0
    }

    // A WFENCE under PSO stands after the newest store, if there is one.
    pub fn marked(self) -> Buf
        requires { BufferOk self }
        ensures { Holds result (rules.marked_buffer (held_buffer self)) }
    {
        let n = self.count % MARK_UNIT;
        if n == 0 {
            return Buf::empty();
        }
        let count = MARK_UNIT + n;
        Buf { count, ..self }
    }

    // What a load of v sees: the newest pending store to v, in whichever group, else memory.
    pub fn newest(self, v: u8, memory: u16) -> u16
        requires { BufferOk self }
        ensures { result ≡ rules.newest v memory (held_pending self) }
    {
        let n = self.number();
        for i in (0..n).rev() {
            let store = self.entry(i);
            if store.variable() == v {
                return store.value;
            }
        }
        memory
    }
}
