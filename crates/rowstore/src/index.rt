// The rows of all messages, with no invariant of their own: one of them can be lent from here.
ghost use Rattle.std.specs.Prelude.{◌≡◌, ◌<◌, length};
ghost use Rattle.rowstore.specs.Tables.{row_of, row_at, with_message, empty, only_earlier_in, only_earlier};

use crate::entry::Entry;
use crate::row::Row;
use crate::table::Table;
use lines::MOST_LOCATIONS;
use std::array;
use stores::message::Message;

const ROWS: usize = 9;

#[derive(Drop)]
pub struct Index {
    pub table: Table<Row, ROWS>,
}

// each of the eight locations has a row of its own, and all others share the ninth
#[inline(always)]
fn row_of(location: u8) -> usize
    ensures { result ≡ row_of location }
{
    usize::from(location.min(MOST_LOCATIONS))
}

impl Index {
    pub(crate) fn new() -> Index
        ensures { result ≡ empty }
    {
        Index {
            table: Table {
                rows: array::from_fn(|_| Row::new()),
            },
        }
    }

    // the row of the location
    #[inline(always)]
    pub(crate) fn row(&self, location: u8) -> &Row
        ensures { result.now ≡ row_at self.now (row_of location) }
    {
        self.table.row(row_of(location))
    }

    // the message that arrived as that number goes into the row of its location
    #[inline(always)]
    pub(crate) fn add(&mut self, message: Message, number: u8)
        requires { length (row_at self.old (row_of message.location)) < 64 }
        ensures after { self.new ≡ with_message self.old message number }
        ensures rows { length self.old.table.rows ≡ 9 }
    {
        let row = self.table.row_mut(row_of(message.location));
        row.insert(Entry {
            location: message.location,
            span: message.span,
            number,
        });
    }

    // drops the entries whose arrival number is n or more, in the rows of these messages, in one pass over each
    pub(crate) fn keep(&mut self, n: usize, dropped: &[Message])
        ensures { self.new ≡ only_earlier n dropped.now self.old }
    {
        let mut done = [false; ROWS];
        for message in dropped {
            let y = row_of(message.location);
            if !done[y] {
                self.keep_at(message.location, n);
                done[y] = true;
            }
        }
    }

    // drops the entries in the location's row whose arrival number is n or more
    fn keep_at(&mut self, location: u8, n: usize)
        ensures { self.new ≡ only_earlier_in (row_of location) n self.old }
    {
        self.table.row_mut(row_of(location)).keep(n);
    }
}
