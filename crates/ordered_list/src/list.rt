ghost use Rattle.std.specs.Prelude.{◌≡◌, true, length, IfOk};
ghost use Rattle.ordered_list.specs.Order.{in_order, RightPosition};
ghost use Rattle.ordered_list.specs.Lists.{length_of, has_room, has_position, insert_answer, insert_list, insert_memory, insert_len, remove_answer, remove_list, remove_memory, remove_len};

use crate::edit::{first, insert_into, remove_from};
use crate::{ListFault, Ranked};

/// An ordered list: the first `len` lines of memory that the caller lends, or all of it where `len` passes its end.
/// A list that is in order stays in order. It is not `Drop`: `done` takes its length back, so that none is forgotten.
///
/// A slice and a length, and no `Vec`: the engine has no heap. Contracts name both fields: of a struct with a `Model` that is
/// given up, as in `done`, no clause can say what is left in the memory that it borrowed.
pub struct OrderedList<'a, T> {
    lines: &'a mut [T],
    len: usize,
}

impl<'a, T: Ranked + Copy> OrderedList<'a, T> {
    ghost use Rattle.ordered_list.specs.Lent.{lines_in};

    /// The list that the first `len` lines of the memory are.
    pub fn over(lines: &'a mut [T], len: usize) -> OrderedList<'a, T>
        ensures lines { result.lines ≡ lines.entry }
        ensures count { result.len ≡ len }
        ensures long { length result.lines.now ≡ length lines.old }
    {
        OrderedList { lines, len }
    }

    /// Lets the memory go, and answers how many of its lines are the list: what `over` takes to go on with it.
    pub fn done(self) -> usize
        ensures count { result ≡ self.entry.len }
        ensures memory { self.exit.0.now ≡ self.entry.lines.now }
        ensures long { length self.exit.0.now ≡ length self.entry.lines.now }
    {
        let OrderedList { lines: _, len } = self;
        len
    }

    /// How many lines the list has.
    pub fn len(&self) -> usize
        ensures { result ≡ length_of self.now.len self.now.lines.now }
    {
        self.len.min(self.lines.len())
    }

    /// The list's lines, in their order.
    pub fn lines(&self) -> &[T]
        ensures { result.now ≡ lines_in self.now }
    {
        first(self.lines, self.len)
    }

    /// Puts a line behind all that do not rank after it, and answers its position.
    pub fn insert(&mut self, line: T) -> Result<usize, ListFault>
        ensures same { self.new.lines.ghost_name ≡ self.old.lines.ghost_name }
        ensures long { length self.new.lines.now ≡ length self.old.lines.now }
        ensures answer { result ≡ insert_answer T.Ranked.after self.old.len self.old.lines.now line }
        ensures position { IfOk result (RightPosition T.Ranked.after line (lines_in self.old)) }
        ensures list { lines_in self.new ≡ insert_list T.Ranked.after self.old.len self.old.lines.now line }
        ensures memory { self.new.lines.now ≡ insert_memory T.Ranked.after self.old.len self.old.lines.now line }
        ensures count { self.new.len ≡ insert_len self.old.len self.old.lines.now }
        ensures order { in_order T.Ranked.after (lines_in self.old) ≡ true → in_order T.Ranked.after (lines_in self.new) ≡ true }
    {
        if !self.has_room() {
            return Err(ListFault::Full);
        }
        let len = self.len;
        let at = insert_into(self.lines, len, line);
        self.len = len + 1;
        Ok(at)
    }

    /// Takes the line at a position out of the list and closes the gap.
    pub fn remove(&mut self, at: usize) -> Result<T, ListFault>
        ensures same { self.new.lines.ghost_name ≡ self.old.lines.ghost_name }
        ensures long { length self.new.lines.now ≡ length self.old.lines.now }
        ensures answer { result ≡ remove_answer self.old.len self.old.lines.now at }
        ensures list { lines_in self.new ≡ remove_list self.old.len self.old.lines.now at }
        ensures memory { self.new.lines.now ≡ remove_memory self.old.len self.old.lines.now at }
        ensures count { self.new.len ≡ remove_len self.old.len self.old.lines.now at }
        ensures order { in_order T.Ranked.after (lines_in self.old) ≡ true → in_order T.Ranked.after (lines_in self.new) ≡ true }
    {
        if !self.has_line(at) {
            return Err(ListFault::NoSuchPosition);
        }
        let len = self.len();
        let line = remove_from(self.lines, len, at);
        self.len = len - 1;
        Ok(line)
    }

    /// Whether the memory has room behind the list.
    fn has_room(&self) -> bool
        ensures { result ≡ has_room self.now.len self.now.lines.now }
    {
        self.len < self.lines.len()
    }

    /// Whether the list has a line at this position.
    fn has_line(&self, at: usize) -> bool
        ensures { result ≡ has_position self.now.len self.now.lines.now at }
    {
        at < self.len()
    }
}
