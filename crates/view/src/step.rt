// Updates and rows, one after another.
ghost use Rattle.std.specs.Prelude.{◌≡◌, ◌+◌, List, [], length, drop, slice_index_or, MatchOption};
ghost use Rattle.std.specs.Iterator.{at_most};
ghost use Rattle.std.specs.List.{flat_map};
ghost use Rattle.system.specs.System.{Update as Assignment, Row};
ghost use Rattle.system.specs.Encode.{update_bytes, row_bytes};
ghost use Rattle.view.specs.Walk.{UpdateAt, UpdateStanding, to_zero, RowAt, RowStanding, idle_row};
ghost use Rattle.view.specs.Shown.{UpdatesOf, UpdateShows, NextUpdate, RowsOf, TransitionShows, NextRow, FirstAndRest};

use crate::parts::{Transition, Update};
use crate::rows::Rows;
use crate::updates::Updates;
use expr::{Guard, Term};

// Where the update ends that stands at `at`.
fn update_end(file: &[u8], at: usize) -> usize
    requires { UpdateStanding file.now at }
    ensures { (u : Assignment) → UpdateAt file.now at u → result ≡ at + length (update_bytes u) }
{
    at + 2 + file[at + 1] as usize
}

// The update that stands at `at`.
fn update_at(file: &[u8], at: usize) -> Update<'_>
    requires { UpdateStanding file.now at }
    ensures { (u : Assignment) → UpdateAt file.now at u → UpdateShows result u }
{
    let end = at + 2 + file[at + 1] as usize;
    Update {
        variable: file[at],
        value: Term {
            code: &file[at + 2..end],
        },
    }
}

impl<'a> Updates<'a> {
    // The first that is left and those after it.
    pub fn split_first(&self) -> Option<(Update<'a>, Updates<'a>)>
        ensures first { (us : List Assignment) → UpdatesOf self.now us → MatchOption result (us ≡ []) (λ p. FirstAndRest UpdateShows UpdatesOf us p.0 p.1) }
        ensures left { MatchOption result (self.now.left ≡ 0) (λ p. p.1.left + 1 ≡ self.now.left) }
    {
        if self.left == 0 {
            return None;
        }
        let rest = Updates {
            file: self.file,
            at: update_end(self.file, self.at),
            left: self.left - 1,
        };
        Some((update_at(self.file, self.at), rest))
    }

    // The first that is left; where none is, variable 0 to 0.
    pub fn first(&self) -> Update<'a>
        ensures { (us : List Assignment) → UpdatesOf self.now us → UpdateShows result (slice_index_or us 0 to_zero) }
    {
        match self.split_first() {
            Some((update, _)) => update,
            None => Update {
                variable: 0,
                value: Term {
                    code: &[0x10, 0, 0],
                },
            },
        }
    }

    // Those after the first.
    pub fn rest(&self) -> Updates<'a>
        ensures { (us : List Assignment) → UpdatesOf self.now us → UpdatesOf result (drop 1 us) }
    {
        match self.split_first() {
            Some((_, rest)) => rest,
            None => *self,
        }
    }

    // Where the last ends.
    fn end(&self) -> usize
        ensures { (us : List Assignment) → UpdatesOf self.now us → result ≡ self.now.at + length (flat_map update_bytes us) }
    {
        let mut at = self.at;
        for _ in 0..self.left {
            at = update_end(self.file, at);
        }
        at
    }
}

impl<'a> Iterator for Updates<'a> {
    type Item = Update<'a>;

    ghost next_gives = { NextUpdate };

    ghost remaining = { λ s. at_most s.left };

    fn next(&mut self) -> Option<Update<'a>> {
        let (update, rest) = self.split_first()?;
        *self = rest;
        Some(update)
    }
}

// The updates of the row that stands at `at`.
fn updates_at(file: &[u8], at: usize) -> Updates<'_>
    requires { RowStanding file.now at }
    ensures are { (t : Row) → RowAt file.now at t → UpdatesOf result t.transition.updates }
    ensures last { (t : Row) → RowAt file.now at t → result.at + length (flat_map update_bytes t.transition.updates) ≡ at + length (row_bytes t) }
{
    let count_at = at + 5 + file[at + 4] as usize;
    Updates {
        file,
        at: count_at + 1,
        left: file[count_at],
    }
}

// The row that stands at `at`.
fn row_at(file: &[u8], at: usize) -> Transition<'_>
    requires { RowStanding file.now at }
    ensures shows { (t : Row) → RowAt file.now at t → TransitionShows result t }
    ensures last { (t : Row) → RowAt file.now at t → result.updates.at + length (flat_map update_bytes t.transition.updates) ≡ at + length (row_bytes t) }
{
    let end = at + 5 + file[at + 4] as usize;
    Transition {
        owner: file[at],
        from: file[at + 1],
        event: file[at + 2],
        to: file[at + 3],
        guard: Guard {
            code: &file[at + 5..end],
        },
        updates: updates_at(file, at),
    }
}

impl<'a> Rows<'a> {
    // The first that is left and those after it.
    pub fn split_first(&self) -> Option<(Transition<'a>, Rows<'a>)>
        ensures first { (rs : List Row) → RowsOf self.now rs → MatchOption result (rs ≡ []) (λ p. FirstAndRest TransitionShows RowsOf rs p.0 p.1) }
        ensures left { MatchOption result (self.now.left ≡ 0) (λ p. p.1.left + 1 ≡ self.now.left) }
    {
        if self.left == 0 {
            return None;
        }
        let row = row_at(self.file, self.at);
        let rest = Rows {
            file: self.file,
            at: row.updates.end(),
            left: self.left - 1,
        };
        Some((row, rest))
    }

    // The first that is left; where none is, one with every number 0, the guard `TRUE` and no updates.
    pub fn first(&self) -> Transition<'a>
        ensures { (rs : List Row) → RowsOf self.now rs → TransitionShows result (slice_index_or rs 0 idle_row) }
    {
        match self.split_first() {
            Some((row, _)) => row,
            None => Transition {
                owner: 0,
                from: 0,
                event: 0,
                to: 0,
                guard: Guard { code: &[0x01] },
                updates: Updates {
                    file: &[],
                    at: 0,
                    left: 0,
                },
            },
        }
    }

    // Those after the first.
    pub fn rest(&self) -> Rows<'a>
        ensures { (rs : List Row) → RowsOf self.now rs → RowsOf result (drop 1 rs) }
    {
        match self.split_first() {
            Some((_, others)) => others,
            None => *self,
        }
    }
}

impl<'a> Iterator for Rows<'a> {
    type Item = Transition<'a>;

    ghost next_gives = { NextRow };

    ghost remaining = { λ s. at_most s.left };

    fn next(&mut self) -> Option<Transition<'a>> {
        let (row, rest) = self.split_first()?;
        *self = rest;
        Some(row)
    }
}
