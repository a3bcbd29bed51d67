// The supervisor's page: a log on standard input, one HTML page on standard output, in constant memory.
#![tactic(auto)]

ghost use Rattle.std.specs.Prelude.{◌≤◌, ◌<◌, ⊤, length};
ghost use Rattle.lines.specs.Kept.{kept_most, Room};
ghost use Rattle.table.specs.Take.{Sound};

use desk::log::read_lone_sheet;
use lines::{Fill, gather, lines_of};
use notes::{Notes, no_notes};
use output::{Failed, Listener, read_all};
use page::pen::{Pen, written_out};
use page::words::put_head;
use paper::STAND_IN;
use reporter::tell;
use std::ops::ControlFlow;
use table::table::Table;
use table::take::new_table;

// Between two blocks: whether the sheet was read, whether it was bad, the table, and what is noted.
#[derive(Clone, Copy)]
struct Page {
    opened: bool,
    shut: bool,
    table: Table,
    notes: Notes,
    pen: Pen,
}

// The sheet: it opens the table, or is bad.
fn take_sheet(g: Page, block: &[u8], out: &mut [u8]) -> Page
    requires { Sound g.table }
    ensures { Sound result.table }
{
    let p = g.pen;
    let notes = g.notes;
    let t = g.table;
    match read_lone_sheet(block) {
        Err(_) => Page {
            opened: false,
            shut: true,
            table: t,
            notes,
            pen: closing::put_bad_sheet(out, p),
        },
        Ok(s) => Page {
            opened: true,
            shut: false,
            table: new_table(s),
            notes,
            pen: closing::put_start(out, p, s),
        },
    }
}

// A block.
fn take_block(g: Page, block: &[u8], out: &mut [u8]) -> Page
    requires { Sound g.table }
    ensures { Sound result.table }
{
    let p = g.pen;
    let m = g.notes;
    let t = g.table;
    let d = tell(out, p, m, t, block);
    let table = d.table;
    let notes = d.notes;
    let pen = d.pen;
    Page {
        opened: true,
        shut: false,
        table,
        notes,
        pen,
    }
}

// Whole lines: the sheet or a block; behind a bad sheet nothing is read.
fn take_lines(g: Page, block: &[u8], out: &mut [u8]) -> Page
    requires { Sound g.table }
    ensures { Sound result.table }
{
    if g.shut {
        return g;
    }
    if g.opened {
        return take_block(g, block, out);
    }
    take_sheet(g, block, out)
}

// What is kept of unfinished lines: always fewer than are read together.
fn unfinished(m: Fill, want: usize) -> Fill
    requires { Room m × (0 < want) }
    ensures { Room result × (result.lines < want) }
{
    if m.lines < want {
        return m;
    }
    lines::empty()
}

// The page, what is kept of unfinished lines, and the buffer in which the page is written.
#[derive(Drop)]
struct Telling {
    page: Page,
    fill: Fill,
    buf: [u8; text::sheet::ROOM],
    out: [u8; 65536],
}

impl Listener for Telling {
    ghost Held = { λ t. Sound t.page.table × Room t.fill × (kept_most ≤ length t.buf) };

    ghost Heard = { λ _ _ _ _. ⊤ };

    ghost none = { λ _ _. tt };

    ghost on = { λ _ _ _ _ _ _ _ _. tt };

    // The bytes of a part up to the end of the sheet or of a block, which is told, or all of it, which is kept.
    fn hear(&mut self, part: &[u8]) -> Result<usize, Failed> {
        let want = lines_of(self.page.opened);
        let k = gather(&mut self.buf, unfinished(self.fill, want), part, want);
        if k.fill.lines < want {
            self.fill = k.fill;
            return Ok(k.used);
        }
        self.page = take_lines(self.page, &self.buf[..k.fill.count], &mut self.out);
        self.fill = lines::empty();
        Ok(k.used)
    }

    // What is written goes out at the end of a part, and before where the buffer is full.
    fn pause(&mut self) -> Result<ControlFlow<()>, Failed> {
        let pen = written_out(&self.out, self.page.pen);
        self.page.pen = pen;
        if !pen.ok {
            return Err(Failed::Writing);
        }
        Ok(if self.page.shut {
            ControlFlow::Break(())
        } else {
            ControlFlow::Continue(())
        })
    }
}

// The page's head, written out.
fn start() -> Page
    ensures { Sound result.table }
{
    let mut out = io::buffer();
    let p = Pen { at: 0, ok: true };
    let a = put_head(&mut out, p);
    let pen = written_out(&out, a);
    let table = new_table(STAND_IN);
    let notes = no_notes();
    Page {
        opened: false,
        shut: false,
        table,
        notes,
        pen,
    }
}

// A block that is not whole is malformed, and a sheet that is not whole is bad.
fn take_rest(g: Page, m: Fill, buf: &[u8], out: &mut [u8]) -> Page
    requires { Sound g.table × Room m × (kept_most ≤ length buf.now) }
    ensures { Sound result.table }
{
    let e = m.count;
    if laws::both(g.opened, e == 0) {
        return g;
    }
    take_lines(g, &buf[0..e], out)
}

// The input has ended: how an open hand stands, and the evening. The buffer is the one in which the page was written: nothing is left in it.
fn end(g: Page, m: Fill, buf: &[u8], out: &mut [u8])
    requires { Sound g.table × Room m × (kept_most ≤ length buf.now) }
{
    let h = take_rest(g, m, buf, out);
    let p = h.pen;
    let notes = h.notes;
    let t = h.table;
    if h.shut {
        written_out(out, p);
        return;
    }
    let a = story::put_folded(out, p, notes.refusing);
    let b = dealings::put_unsettled(out, a, notes, t);
    let c = closing::put_evening(out, b, notes, t);
    written_out(out, c);
}

// A read that fails is taken for the end of the input.
fn main(rt: HostRuntime) {
    let mut t = Telling {
        page: start(),
        fill: lines::empty(),
        buf: [0; text::sheet::ROOM],
        out: io::large_buffer(),
    };
    let _ = read_all(&rt, &mut t, &mut io::large_buffer());
    end(t.page, t.fill, &t.buf, &mut t.out);
}
