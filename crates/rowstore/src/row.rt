// A row: entries in order of their ends.
ghost use Rattle.std.specs.Prelude.{◌≡◌, ◌<◌, ◌≤◌, [], length, nat_lt};
ghost use Rattle.rowstore.specs.Entries.{before, number_at, clear, last_end, placed, earlier};

use crate::entry::Entry;
use bounded::{Bounded, Choice};
use lines::End;
use lines::span::Span;
use std::marker::Model;

// Entries that arrived before a number.
#[derive(Clone, Copy)]
struct Earlier {
    number: usize,
}

impl Choice<Entry> for Earlier {
    ghost chooses = { λ s e. nat_lt e.number s.number };

    fn chooses(self, entry: Entry) -> bool {
        usize::from(entry.number) < self.number
    }
}

#[derive(Drop)]
pub struct Row {
    entries: Bounded<Entry, 64>,
}

// Clauses see the entries, and each row has them in order.
impl Model for Row {
    ghost use Rattle.std.specs.Prelude.{List};
    ghost use Rattle.rowstore.specs.declared.entry.Entry.{Entry};
    ghost use Rattle.rowstore.specs.Entries.{WellFormed};

    ghost Value = { List Entry };

    ghost view = { λ r. r.entries };

    ghost invariant = { λ r. WellFormed r.entries };
}

impl Row {
    pub(crate) fn new() -> Row
        ensures { result ≡ [] }
    {
        let filler = Entry {
            location: 0,
            span: Span { from: 0, to: 0 },
            number: 0,
        };
        Row {
            entries: Bounded::new(filler),
        }
    }

    // how many entries end before the limit
    // The last two are asked first, since most questions are about a row's end; then by halving.
    #[inline(always)]
    pub(crate) fn before(&self, limit: u32) -> usize
        ensures value { result ≡ before limit self.now }
        ensures within { result ≤ length self.now }
    {
        let entries = self.entries.as_slice();
        match entries {
            [.., e] if u32::from(e.span.to) < limit => entries.len(),
            [.., e, _] if u32::from(e.span.to) < limit => entries.len() - 1,
            _ => entries.partition_point(|e| u32::from(e.span.to) < limit),
        }
    }

    // the arrival number of the first entry of the location with that end
    #[inline(always)]
    pub(crate) fn find(&self, location: u8, end: End) -> Option<usize>
        ensures { result ≡ number_at location end self.now }
    {
        let start = self.before(u32::from(end));
        self.entries.as_slice()[start..]
            .iter()
            .take_while(|e| e.span.to == end)
            .find(|e| e.location == location)
            .map(|e| usize::from(e.number))
    }

    // whether the span overlaps no entry of the location
    #[inline(always)]
    pub(crate) fn is_free(&self, location: u8, span: Span) -> bool
        ensures { result ≡ clear location span self.now }
    {
        let start = self.before(u32::from(span.from) + 1);
        !self.entries.as_slice()[start..]
            .iter()
            .any(|e| e.location == location && e.span.from < span.to)
    }

    // the end of the last entry of the location, else 0
    pub(crate) fn greatest_end(&self, location: u8) -> End
        ensures { result ≡ last_end location self.now }
    {
        self.entries
            .as_slice()
            .iter()
            .rev()
            .find(|e| e.location == location)
            .map_or(0, |e| e.span.to)
    }

    // puts the entry after those that end no later
    #[inline(always)]
    pub(crate) fn insert(&mut self, entry: Entry)
        requires { length self.old < 64 }
        ensures { self.new ≡ placed entry self.old }
    {
        let place = self.before(u32::from(entry.span.to) + 1);
        // never refused, as there is room
        let _ = self.entries.insert(place, entry);
    }

    // drops the entries whose arrival number is n or more
    pub(crate) fn keep(&mut self, n: usize)
        ensures { self.new ≡ earlier n self.old }
    {
        self.entries.retain(Earlier { number: n });
    }
}
