// A flush: whether it may be taken, and the store that it takes from a buffer.
ghost use Rattle.std.specs.Prelude.{◌≡◌, ◌-◌, ◌/◌, ◌%◌, ◌<◌, position, IfSome, Err, true};
ghost use Rattle.rules.specs.Limits.{group_unit};
ghost use Rattle.rules.specs.Step as rules;
ghost use Rattle.rules.specs.Step.{needs, ◌then◌};
ghost use Rattle.rules.specs.declared.Reason.TheVariants.{NothingToFlush, NotTheOldest};
ghost use Rattle.buffer.specs.Held.{number, held_pending, held_buffer, BufferOk};
ghost use Rattle.buffer.specs.Places.{is_to, is_next_to};
ghost use Rattle.buffer.specs.Posts.{why_not, Holds, TakesOut, counted_buffer, Takes};

use crate::{Buf, Entry, Taken, UNUSED};
use rules::{ENTRY_SIZE, GROUP_UNIT, Model, Reason};

// A variable byte of a group that counts so many groups less.
fn lower(byte: u8, groups: u8) -> u8
    ensures { (result / group_unit ≡ byte / group_unit - groups) × (result % group_unit ≡ byte % group_unit) }
{
    GROUP_UNIT * (byte / GROUP_UNIT).saturating_sub(groups) + byte % GROUP_UNIT
}

impl Buf {
    // Whether the oldest pending store is one to v.
    fn is_oldest_to(self, v: u8) -> bool
        requires { BufferOk self }
        ensures { result ≡ rules.is_oldest_to v (held_pending self) }
    {
        let n = self.number();
        n != 0 && self.entry(0).variable() == v
    }

    // The index of the oldest pending store to v, if there is one.
    fn oldest_to(self, v: u8) -> Option<usize>
        requires { BufferOk self }
        ensures is { result ≡ position (is_to v) (held_pending self) }
        ensures within { IfSome result (λ i. i < number self) }
    {
        self.position(|store| store.variable() == v)
    }

    // Whether a store to v is pending.
    fn is_pending_to(self, v: u8) -> bool
        requires { BufferOk self }
        ensures { result ≡ rules.is_pending_to v (held_pending self) }
    {
        self.oldest_to(v).is_some()
    }

    // The index of the oldest pending store to v in the oldest group, if there is one.
    fn oldest_next_to(self, v: u8) -> Option<usize>
        requires { BufferOk self }
        ensures { result ≡ position (is_next_to v) (held_pending self) }
    {
        self.position(|store| store.group() == 0 && store.variable() == v)
    }

    // Whether a store to v is pending in the oldest group.
    fn is_in_oldest_group(self, v: u8) -> bool
        requires { BufferOk self }
        ensures { result ≡ rules.is_in_oldest_group v (held_pending self) }
    {
        self.oldest_next_to(v).is_some()
    }

    // Why a store to v may not be flushed: where there is one, it is not the oldest.
    fn why_not(self, v: u8) -> Reason
        requires { BufferOk self }
        ensures { Err result ≡ why_not v (held_pending self) }
    {
        if self.is_pending_to(v) {
            return Reason::NotTheOldest;
        }
        Reason::NothingToFlush
    }

    // A store to v may be flushed if it is the first of those that the model lets go.
    fn may_flush_first(self, first: bool, v: u8) -> Result<(), Reason>
        requires buffer_ok { BufferOk self }
        requires pending { first ≡ true → rules.is_pending_to v (held_pending self) ≡ true }
        ensures { result ≡ (needs (rules.is_pending_to v (held_pending self)) NothingToFlush then needs first NotTheOldest) }
    {
        if first {
            return Ok(());
        }
        Err(self.why_not(v))
    }

    // Whether a store to v may be flushed, and why not: under TSO the oldest alone, under PSO those of the oldest group; SC has no flush.
    pub fn may_flush(self, m: Model, v: u8) -> Result<(), Reason>
        requires { BufferOk self }
        ensures { result ≡ rules.may_flush m v (held_pending self) }
    {
        match m {
            Model::Sc => Err(Reason::NothingToFlush),
            Model::Tso => self.may_flush_first(self.is_oldest_to(v), v),
            Model::Pso => self.may_flush_first(self.is_in_oldest_group(v), v),
        }
    }

    // The oldest store to v, if there is one, goes out: those behind it move down by one, and leave an unused entry.
    fn take_out(self, v: u8) -> Taken
        requires { BufferOk self }
        ensures { TakesOut result v (held_buffer self) }
    {
        let Some(at) = self.oldest_to(v) else {
            return Taken {
                value: 0,
                rest: self,
            };
        };
        let n = self.number();
        let value = self.entry(at).value;
        let count = self.count - 1;
        let mut rest = Buf { count, ..self };
        rest.slots
            .copy_within(ENTRY_SIZE * (at + 1)..ENTRY_SIZE * n, ENTRY_SIZE * at);
        rest.set_entry(n - 1, UNUSED);
        Taken { value, rest }
    }

    // Groups are counted from the oldest that is left, and a mark stands only behind a store.
    fn counted(self) -> Buf
        requires { BufferOk self }
        ensures { Holds result (counted_buffer (held_buffer self)) }
    {
        let n = self.number();
        if n == 0 {
            return Buf::empty();
        }
        let oldest = self.entry(0).group();
        if oldest == 0 {
            return self;
        }
        let mut counted = self;
        for i in 0..n {
            let store = self.entry(i);
            let byte = lower(store.byte, oldest);
            counted.set_entry(i, Entry { byte, ..store });
        }
        counted
    }

    // A flush to v: the oldest store to v goes out, and the groups that are left are counted anew.
    pub fn take(self, v: u8) -> Taken
        requires { BufferOk self }
        ensures { Takes result v (held_buffer self) }
    {
        let taken = self.take_out(v);
        let rest = taken.rest.counted();
        Taken { rest, ..taken }
    }
}
