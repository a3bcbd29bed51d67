// A page over a lent buffer: the pen may stand anywhere; a text that has no room behind it is written after the buffer was written out. So the page is as
// long as it likes, and the memory stays. Where a write fails the pen keeps it: nothing more goes out, and the text goes on into the buffer alone.
ghost use Rattle.std.specs.Prelude.{◌≡◌, ◌≤◌, length, IsOk};

use output::STDOUT_FILENO;
use std::fmt;
use writing::put_bytes;

// Where a page stands between two buffers: how much of the buffer is written, and whether all that was written out could be.
#[derive(Clone, Copy)]
pub struct Pen {
    pub at: usize,
    pub ok: bool,
}

// A page that is being written: the lent buffer, and the pen over it.
#[derive(Drop)]
pub struct Writer<'a> {
    pub out: &'a mut [u8],
    pub pen: Pen,
}

// How much of the buffer is written.
fn filled(at: usize, size: usize) -> usize
    ensures { result ≤ size }
{
    at.min(size)
}

// Writes out what stands in the buffer, unless a write has failed before.
pub fn written_out(out: &[u8], p: Pen) -> Pen
    ensures { result.at ≤ 0 }
{
    let n = filled(p.at, out.len());
    let ok = p.ok && io::write_all(STDOUT_FILENO, &out[..n]);
    Pen { at: 0, ok }
}

impl<'a> Writer<'a> {
    pub fn over(out: &'a mut [u8], pen: Pen) -> Writer<'a>
        ensures same_buffer { result.out.ghost_name ≡ out.entry.ghost_name }
        ensures same_bytes { result.out.now ≡ out.old }
        ensures same_pen { result.pen ≡ pen }
    {
        Writer { out, pen }
    }

    // Sees to it that so many bytes more have room, as they do in an empty buffer.
    fn make_room(&mut self, n: usize)
        ensures same_buffer { self.new.out.ghost_name ≡ self.old.out.ghost_name }
        ensures same_size { length self.new.out.now ≡ length self.old.out.now }
        ensures within { self.new.pen.at ≤ length self.old.out.now }
    {
        let at = filled(self.pen.at, self.out.len());
        let pen = Pen {
            at,
            ok: self.pen.ok,
        };
        self.pen = if self.out.len() - at < n {
            written_out(self.out, pen)
        } else {
            pen
        };
    }

    // A text. One that is longer than the whole buffer would be left out; none is.
    pub fn put(&mut self, bytes: &[u8])
        ensures same_buffer { self.new.out.ghost_name ≡ self.old.out.ghost_name }
        ensures same_size { length self.new.out.now ≡ length self.old.out.now }
        ensures within { self.new.pen.at ≤ length self.old.out.now }
    {
        self.make_room(bytes.len());
        let at = self.pen.at;
        if bytes.len() <= self.out.len() - at {
            self.pen.at = at + put_bytes(&mut self.out[at..], bytes);
        }
    }
}

impl fmt::Write for Writer<'_> {
    // The buffer is the same one and keeps its length, and the pen stands in it.
    ghost write_str_gives = { λ v _ w. (w.out.ghost_name ≡ v.out.ghost_name) × (length w.out.now ≡ length v.out.now) × (w.pen.at ≤ length v.out.now) };

    // A text. Whether a write has failed is kept by the pen, and no error here, so that what comes after is written as well.
    fn write_str(&mut self, s: &str) -> fmt::Result
        ensures ok { IsOk result → (self.new.out.ghost_name ≡ self.old.out.ghost_name) × (length self.new.out.now ≡ length self.old.out.now) × (self.new.pen.at ≤ length self.old.out.now) }
        ensures same_buffer { self.new.out.ghost_name ≡ self.old.out.ghost_name }
        ensures same_size { length self.new.out.now ≡ length self.old.out.now }
        ensures within { self.new.pen.at ≤ length self.old.out.now }
        ensures never_fails { IsOk result }
    {
        self.put(s.as_bytes());
        Ok(())
    }
}
