// A store joins a buffer.
ghost use Rattle.std.specs.Prelude.{◌≡◌, [], ◌∷◌, ◌++◌, ◌<◌, position};
ghost use Rattle.rules.specs.Limits.{group_unit};
ghost use Rattle.rules.specs.Step as rules;
ghost use Rattle.buffer.specs.Held.{entry, held_pending, held_buffer, BufferOk};
ghost use Rattle.buffer.specs.Places.{is_after, with_at};
ghost use Rattle.buffer.specs.Posts.{HasRoom, RoomAt, GroupHasRoom, Joined};

use crate::{Buf, Entry};
use rules::{ENTRY_SIZE, GROUP_UNIT, MARK_UNIT};

impl Buf {
    // A store goes in at an index: those from there on move up by one, over an unused entry. The mark, if there is one, ends.
    fn put_in(self, at: usize, store: Entry) -> Buf
        requires { RoomAt self at }
        ensures { Joined result (with_at at (entry store.byte store.value) (held_pending self)) }
    {
        let n = self.number();
        let count = self.count % MARK_UNIT + 1;
        let mut joined = Buf { count, ..self };
        joined
            .slots
            .copy_within(ENTRY_SIZE * at..ENTRY_SIZE * n, ENTRY_SIZE * (at + 1));
        joined.set_entry(at, store);
        joined
    }

    // TSO: a store joins the end; there is one group.
    pub fn with_last(self, v: u8, k: u16) -> Buf
        requires has_room { HasRoom self }
        requires is_variable { v < group_unit }
        ensures { Joined result (held_pending self ++ (record { group = 0; variable = v; value = k } ∷ [])) }
    {
        let n = self.number();
        self.put_in(n, Entry { byte: v, value: k })
    }

    // The index of the first pending store that stands behind where this one goes in, if there is one.
    fn first_after(self, store: Entry) -> Option<usize>
        requires { BufferOk self }
        ensures { result ≡ position (is_after (entry store.byte store.value)) (held_pending self) }
    {
        self.position(|other| store.byte < other.byte)
    }

    // The newest group, that of the last store.
    fn newest_group(self) -> u8
        requires { BufferOk self }
        ensures { (result ≡ rules.newest_group 0 (held_pending self)) × (result < group_unit) }
    {
        let n = self.number();
        if n == 0 {
            return 0;
        }
        self.entry(n - 1).group()
    }

    // The group that a store joins: the newest, or a new one behind a WFENCE.
    fn joined_group(self) -> u8
        requires { BufferOk self }
        ensures { result ≡ rules.joined_group (held_buffer self) }
    {
        let newest = self.newest_group();
        if MARK_UNIT <= self.count {
            return newest + 1;
        }
        newest
    }

    // PSO: stores are kept by group and then by variable number, oldest first within a variable.
    pub fn with_sorted(self, v: u8, k: u16) -> Buf
        requires { GroupHasRoom self v }
        ensures { Joined result (rules.in_its_place (record { group = rules.joined_group (held_buffer self); variable = v; value = k }) (held_pending self)) }
    {
        let byte = GROUP_UNIT * self.joined_group() + v;
        let store = Entry { byte, value: k };
        let at = self.first_after(store).unwrap_or(self.number());
        self.put_in(at, store)
    }
}
