// A machine state that goes in by value and comes back: each part is read, and each is changed in a state that comes back.
#![tactic(auto)]

ghost use Rattle.std.specs.Prelude.{◌≡◌, ◌+◌, ◌*◌, ◌<◌, length};
ghost use Rattle.rules.specs.Limits.{most_threads, most_variables, registers_each, all_registers, word_size};
ghost use Rattle.rules.specs.State.{place, register, variable, buffer, with_place, with_register, with_variable, with_buffer};
ghost use Rattle.rules.specs.Slot.{high, low};
ghost use Rattle.words.specs.Words.{word_at, set_word};
ghost use Rattle.buffer.specs.Held.{held_buffer, BufferOk};
ghost use Rattle.buffer.specs.Posts.{Holds as HoldsBuffer};
ghost use Rattle.state.specs.Held.{held, StateOk};
ghost use Rattle.state.specs.Parts.{At, Holds};

use buffer::Buf;
use rules::{MEMORY_SIZE, REGISTERS_EACH, REGISTERS_SIZE, THREADS, WORD_SIZE};

// Four places, sixteen registers thread by thread, eight variables and four buffers travel together as one value: byte for byte as in a slot.
#[derive(Clone, Copy)]
pub struct State {
    pub places: [u8; THREADS],
    pub regs: [u8; REGISTERS_SIZE],
    pub mem: [u8; MEMORY_SIZE],
    pub bufs: [Buf; THREADS],
}

// Where register r of thread t stands: thread by thread.
fn register_index(t: u8, r: u8) -> usize
    requires { (t < most_threads) × (r < registers_each) }
    ensures { (result ≡ registers_each * t + r) × (result < all_registers) }
{
    usize::from(REGISTERS_EACH * t + r)
}

// The value at an index of bytes that are values of two each.
fn word_at(bytes: &[u8], i: usize) -> u16
    requires { word_size * i + 1 < length bytes.now }
    ensures { result ≡ word_at bytes.now i }
{
    let at = WORD_SIZE * i;
    words::word(bytes[at], bytes[at + 1])
}

fn set_word(bytes: &mut [u8], i: usize, k: u16)
    requires { word_size * i + 1 < length bytes.old }
    ensures { bytes.new ≡ set_word bytes.old i (high k) (low k) }
{
    let at = WORD_SIZE * i;
    bytes[at] = words::high(k);
    bytes[at + 1] = words::low(k);
}

impl State {
    // The place that thread t is at.
    #[tactic(auto, unfolding(rules::specs::State::place, crate::specs::Held::held))]
    pub fn place(self, t: u8) -> u8
        requires { At self t }
        ensures { result ≡ place t (held self) }
    {
        self.places[usize::from(t)]
    }

    // Register r of thread t.
    pub fn register(self, t: u8, r: u8) -> u16
        requires at { At self t }
        requires is_register { r < registers_each }
        ensures { result ≡ register t r (held self) }
    {
        word_at(&self.regs, register_index(t, r))
    }

    // What memory has at variable v.
    pub fn variable(self, v: u8) -> u16
        requires state_ok { StateOk self }
        requires is_variable { v < most_variables }
        ensures { result ≡ variable v (held self) }
    {
        word_at(&self.mem, usize::from(v))
    }

    // The buffer of thread t.
    pub fn buffer(self, t: u8) -> Buf
        requires { At self t }
        ensures { HoldsBuffer result (buffer t (held self)) }
    {
        self.bufs[usize::from(t)]
    }

    pub fn with_place(self, t: u8, p: u8) -> State
        requires { At self t }
        ensures { Holds result (with_place t p (held self)) }
    {
        let mut y = self;
        y.places[usize::from(t)] = p;
        y
    }

    pub fn with_register(self, t: u8, r: u8, k: u16) -> State
        requires at { At self t }
        requires is_register { r < registers_each }
        ensures { Holds result (with_register t r k (held self)) }
    {
        let mut y = self;
        set_word(&mut y.regs, register_index(t, r), k);
        y
    }

    pub fn with_variable(self, v: u8, k: u16) -> State
        requires state_ok { StateOk self }
        requires is_variable { v < most_variables }
        ensures { Holds result (with_variable v k (held self)) }
    {
        let mut y = self;
        set_word(&mut y.mem, usize::from(v), k);
        y
    }

    pub fn with_buffer(self, t: u8, b: Buf) -> State
        requires at { At self t }
        requires buffer_ok { BufferOk b }
        ensures { Holds result (with_buffer t (held_buffer b) (held self)) }
    {
        let mut y = self;
        y.bufs[usize::from(t)] = b;
        y
    }
}
