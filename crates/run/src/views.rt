// How the views of a thread change.
ghost use Rattle.std.specs.Prelude.{◌≡◌, slice_set};
ghost use Rattle.stores.specs.Views.{at};
ghost use Rattle.rules.specs.Models.{fresh_views};
ghost use Rattle.rules.specs.Threads.{rel_at, read_cur, read_views, write_rel, write_views, acquire_views, release_views, all_views};
ghost use Rattle.run.specs.Models.{views_of};
ghost use Rattle.run.specs.Orders.{acquired};

use crate::parts::ThreadViews;
use languages::action::{ReadMode, WriteMode};
use lines::{End, MOST_LOCATIONS};
use stores::view::View;

// Acquire and release are modes of two types: one function for both would first make a flag of each.
// an acquire takes in the view of the message read
fn read_into(mode: ReadMode, cur: View, view: View) -> View
    ensures { result ≡ acquired mode cur view }
{
    match mode {
        ReadMode::Relaxed => cur,
        ReadMode::Acquire => cur.join(view),
    }
}

// a release takes in cur
fn released_into(mode: WriteMode, rel: View, cur: View) -> View
    ensures { result ≡ write_rel mode rel cur }
{
    match mode {
        WriteMode::Relaxed => rel,
        WriteMode::Release => rel.join(cur),
    }
}

// nothing past the last location
fn put(rel: &mut [View; 8], location: u8, view: View)
    ensures { rel.new ≡ slice_set rel.old location view }
{
    if location < MOST_LOCATIONS {
        rel[location as usize] = view;
    }
}

impl ThreadViews {
    pub(crate) fn new() -> ThreadViews
        ensures { views_of result ≡ fresh_views }
    {
        let zero = View::zero();
        ThreadViews {
            cur: zero,
            acq: zero,
            rel: [zero; 8],
        }
    }

    // becomes a copy of the other, one kind of view after another: all at once would be a call of memmove, which
    // whoever links the judge would have to bring
    pub(crate) fn become_copy(&mut self, other: &ThreadViews)
        ensures { views_of self.new ≡ views_of other.now }
    {
        self.cur = other.cur;
        self.acq = other.acq;
        self.rel = other.rel;
    }

    // the end of cur at a location
    pub(crate) fn seen(&self, location: u8) -> End
        ensures { result ≡ at self.now.cur location }
    {
        self.cur.at(location)
    }

    // rel of a location, the zero view past the last
    pub(crate) fn released(&self, location: u8) -> View
        ensures { result ≡ rel_at (views_of self.now) location }
    {
        let rel = self.rel.get(location as usize);
        rel.copied().unwrap_or(View::zero())
    }

    // what cur is after a read of the message of the location that ends at `end`, with its view
    #[inline(always)]
    pub(crate) fn cur_read(&self, mode: ReadMode, location: u8, end: End, view: View) -> View
        ensures { result ≡ read_cur mode location end view self.now.cur }
    {
        let one = View::single(location, end);
        read_into(mode, self.cur.join(one), view)
    }

    // what rel of the location is after a write of a message that ends at `end`, where cur was this view before it:
    // an update reads first
    #[inline(always)]
    pub(crate) fn rel_written(&self, cur: View, mode: WriteMode, location: u8, end: End) -> View
        ensures { result ≡ rel_at (write_views mode location end (record { cur = cur; acq = self.now.acq; rel = self.now.rel })) location }
    {
        if location >= MOST_LOCATIONS {
            return View::zero();
        }
        let one = View::single(location, end);
        released_into(mode, self.released(location).join(one), cur.join(one))
    }

    // after a read of the message of the location that ends at `end`, with its view
    #[inline(always)]
    pub(crate) fn read(&mut self, mode: ReadMode, location: u8, end: End, view: View)
        ensures { views_of self.new ≡ read_views mode location end view (views_of self.old) }
    {
        let one = View::single(location, end);
        let cur = self.cur_read(mode, location, end, view);
        let acq = self.acq.join(one).join(view);
        self.cur = cur;
        self.acq = acq;
    }

    // after a write of a message of the location that ends at `end`
    #[inline(always)]
    pub(crate) fn write(&mut self, mode: WriteMode, location: u8, end: End)
        ensures { views_of self.new ≡ write_views mode location end (views_of self.old) }
    {
        let one = View::single(location, end);
        let cur = self.cur.join(one);
        let acq = self.acq.join(one);
        let released = released_into(mode, self.released(location).join(one), cur);
        self.cur = cur;
        self.acq = acq;
        put(&mut self.rel, location, released);
    }

    // cur becomes acq
    pub(crate) fn acquire(&mut self)
        ensures { views_of self.new ≡ acquire_views (views_of self.old) }
    {
        let acq = self.acq;
        self.cur = acq;
    }

    // every rel becomes cur
    pub(crate) fn release(&mut self)
        ensures { views_of self.new ≡ release_views (views_of self.old) }
    {
        let cur = self.cur;
        self.rel = [cur; 8];
    }

    // all become one view
    pub(crate) fn become_all(&mut self, view: View)
        ensures { views_of self.new ≡ all_views view }
    {
        self.cur = view;
        self.acq = view;
        self.rel = [view; 8];
    }
}
