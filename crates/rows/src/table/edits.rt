// What changes a table.
ghost use Rattle.std.specs.Prelude.{◌≡◌, ◌+◌, ◌-◌, ◌≤◌, false, ◌||◌, ◌++◌, length, take, drop, Some, slice_range, nat_lt, if◌then◌else◌};
ghost use Rattle.paths.specs.Paths.{names};
ghost use Rattle.rows.specs.Maps.{has, replaced, without};
ghost use Rattle.rows.specs.Builds.{set_at};
ghost use Rattle.rows.specs.Rows.{rows_of};
ghost use Rattle.rows.specs.Tables.{listed, spliced, splices};

use crate::row::Row;
use crate::table::Table;
use paths::Path;
use std::ops::Range;

// Puts elements in front of the one at a place: as many of the last make room for them, and those between move back, once.
// Apart from `insert`, since the check gives the part of a slice no name there.
fn put_before<T: Copy>(items: &mut [T], at: usize, new: &[T])
    requires { at + length new.now ≤ length items.old }
    ensures { items.new ≡ take at items.old ++ (new.now ++ slice_range items.old at (length items.old - length new.now)) }
{
    let end = at + new.len();
    items.copy_within(at..items.len() - new.len(), end);
    items[at..end].copy_from_slice(new);
}

// Moves what stands from `end` on to `start`, once.
fn close<T: Copy>(items: &mut [T], start: usize, end: usize)
    requires order { start ≤ end }
    requires within { end ≤ length items.old }
    ensures long { length items.new ≡ length items.old }
    ensures front { take (length items.old - (end - start)) items.new ≡ take start items.old ++ drop end items.old }
{
    items.copy_within(end..items.len(), start);
}

impl<V: Copy, const N: usize> Table<V, N> {
    // Overwrites the value at a path; false, where there is no row, as a set answers.
    pub fn replace(&mut self, path: &Path, value: V) -> bool
        ensures answer { result ≡ has (listed self.old) (names path.now) }
        ensures rows { listed self.new ≡ replaced (listed self.old) (names path.now) value }
        ensures same { result ≡ false → self.new ≡ self.old }
    {
        let Some(i) = self.sorted().locate(path) else {
            return false;
        };
        self.rows.as_mut_slice()[i] = Row { path: *path, value };
        true
    }

    // Puts rows in front of the first row that does not come before them; false, where there is no
    // room for them or the rows would not rise: no caller tells the two apart.
    pub fn insert(&mut self, new: &[Row<V>]) -> bool
        ensures answer { result ≡ splices N (rows_of new.now) (listed self.old) }
        ensures rows { listed self.new ≡ (if result then spliced (rows_of new.now) (listed self.old) else listed self.old) }
        ensures same { result ≡ false → self.new ≡ self.old }
    {
        if self.rows.remaining_capacity() < new.len() {
            return false;
        }
        let Some(at) = self.sorted().splice_place(new) else {
            return false;
        };
        let _ = self.rows.try_extend_from_slice(new);
        put_before(self.rows.as_mut_slice(), at, new);
        true
    }

    // Sets the value at a path, over one that is there; false, where the path has no row and there is no room for one.
    pub fn set(&mut self, path: &Path, value: V) -> bool
        ensures answer { result ≡ (has (listed self.old) (names path.now) || nat_lt (length (listed self.old)) N) }
        ensures rows { listed self.new ≡ (if result then set_at (listed self.old) (names path.now) (Some value) else listed self.old) }
        ensures same { result ≡ false → self.new ≡ self.old }
    {
        self.replace(path, value) || self.insert(&[Row { path: *path, value }])
    }

    // Takes out the row at a path and those below it, which stand next to each other: those behind move up, once.
    pub fn remove_under(&mut self, path: &Path)
        ensures { listed self.new ≡ without (names path.now) (listed self.old) }
    {
        let Range { start, end } = self.sorted().under(path);
        if start == end {
            return;
        }
        let left = self.rows.len() - (end - start);
        close(self.rows.as_mut_slice(), start, end);
        self.rows.truncate(left);
    }
}
