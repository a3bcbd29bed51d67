// A log copied fair: a log on standard input, its sheet and its good blocks on standard output, a line about each block left out on standard error. A sheet
// from before the later requests gets the lines that it lacks, and a line about each of them.
#![tactic(auto)]

ghost use Rattle.std.specs.Prelude.{◌≡◌, ◌≤◌, length};
ghost use Rattle.lines.specs.Kept.{kept_most};
ghost use Rattle.logs.specs.FairCopy.{note_most};
ghost use Rattle.copier.specs.Feeding.{Held, HeardTo};
ghost use Rattle.renewal.specs.Renewing.{InSheet, given_most};
ghost use Rattle.fair_copy.specs.Hearing.{hears_none, hears_on, Behind, behind_none, behind_on};

use copier::{Copier, close, copy_on};
use laws::both;
use logs::copy::NOTE;
use output::{Failed, Listener, STDERR_FILENO, STDOUT_FILENO, hear_part, read_all, write_out};
use renewal::{ADDED_ROOM, MOST, Renewal, renew_on, write_added};
use std::ops::ControlFlow;
use text::sheet::ROOM;

// Writes out some of the copy and some of the notes: the notes also where the copy could not be written.
fn write_both(copy: &[u8], notes: &[u8]) -> Result<(), Failed> {
    let a = write_out(STDOUT_FILENO, copy);
    let b = write_out(STDERR_FILENO, notes);
    a.and(b)
}

// The copier, the unfinished block and sheets for the copy and the notes.
#[derive(Drop)]
struct Copying {
    copier: Copier,
    buf: [u8; ROOM],
    copy: [u8; 65536],
    notes: [u8; 65536],
}

impl Listener for Copying {
    ghost Held = { λ c. Held c.copier × (kept_most ≤ length c.buf) × (kept_most ≤ length c.copy) × (note_most ≤ length c.notes) };

    ghost Heard = { λ c part n d. HeardTo c.copier c.buf part 0 d.copier d.buf n };

    ghost none = { λ c part. hears_none c.copier c.buf part };

    ghost on = { λ c d e part n k. hears_on c.copier c.buf part n d.copier d.buf e.copier e.buf k };

    // Bytes at the front of a part, as far as their copies and their notes have room: they are written out.
    fn hear(&mut self, part: &[u8]) -> Result<usize, Failed> {
        let f = copy_on(
            self.copier,
            &mut self.buf,
            part,
            &mut self.copy,
            &mut self.notes,
        );
        self.copier = f.copier;
        write_both(&self.copy[..f.written], &self.notes[..f.noted])?;
        Ok(f.used)
    }

    fn pause(&mut self) -> Result<ControlFlow<()>, Failed> {
        Ok(if self.copier.shut {
            ControlFlow::Break(())
        } else {
            ControlFlow::Continue(())
        })
    }
}

// Once the copier has read the sheet as good: a line about each line that was added to one of k lines.
fn note_added(ended: bool, opened: bool, k: usize) -> Result<(), Failed> {
    if both(ended, opened) {
        let mut notes = [0u8; ADDED_ROOM];
        let n = write_added(k, &mut notes);
        return write_out(STDERR_FILENO, &notes[..n]);
    }
    Ok(())
}

// The renewal, the copier behind it, and a sheet for what the renewal gives.
#[derive(Drop)]
struct Renewing {
    renewal: Renewal,
    copying: Copying,
    fresh: [u8; 65536],
}

impl Renewing {
    // The copier hears what the renewal has given; and the lines that were added are noted, where the sheet has just ended: also where the copy could not be written.
    fn pass_on(&mut self, given: usize, ended: bool) -> Result<(), Failed>
        requires { Held self.old.copying.copier × (kept_most ≤ length self.old.copying.buf) × (kept_most ≤ length self.old.copying.copy) × (note_most ≤ length self.old.copying.notes) × (given ≤ length self.old.fresh) }
        ensures same { self.new ≡ record self.old { copying = self.new.copying } }
        ensures held { Held self.new.copying.copier × (kept_most ≤ length self.new.copying.buf) × (kept_most ≤ length self.new.copying.copy) × (note_most ≤ length self.new.copying.notes) }
    {
        let heard = hear_part(&mut self.copying, &self.fresh[..given]);
        let noted = note_added(ended, self.copying.copier.opened, self.renewal.lines);
        heard.and(noted)
    }

    // The input has ended: so has an old sheet that may end there, and the copier hears the lines that it lacks.
    fn end_sheet(&mut self) -> Result<(), Failed>
        requires { InSheet self.old.renewal × Held self.old.copying.copier × (kept_most ≤ length self.old.copying.buf) × (kept_most ≤ length self.old.copying.copy) × (note_most ≤ length self.old.copying.notes) × (given_most ≤ length self.old.fresh) }
        ensures { Held self.new.copying.copier × (kept_most ≤ length self.new.copying.buf) }
    {
        let whole = self.renewal.done;
        let e = renewal::close(self.renewal, &mut self.fresh);
        self.renewal = e.renewal;
        self.pass_on(e.written, both(!whole, e.renewal.done))
    }
}

impl Listener for Renewing {
    ghost Held = { λ r. InSheet r.renewal × Held r.copying.copier × (kept_most ≤ length r.copying.buf) × (kept_most ≤ length r.copying.copy) × (note_most ≤ length r.copying.notes) × (given_most ≤ length r.fresh) };

    ghost Heard = { λ r part n s. Behind r.renewal r.copying.copier r.copying.buf part n s.renewal s.copying.copier s.copying.buf };

    ghost none = { λ r part. behind_none r.renewal r.copying.copier r.copying.buf part };

    ghost on = { λ r s t part n k. behind_on r.renewal r.copying.copier r.copying.buf part n s.renewal s.copying.copier s.copying.buf t.renewal t.copying.copier t.copying.buf k };

    // Up to the end of the sheet what the renewal makes of the bytes, behind it the bytes as they are.
    fn hear(&mut self, part: &[u8]) -> Result<usize, Failed> {
        if self.renewal.done {
            return self.copying.hear(part);
        }
        let g = renew_on(self.renewal, part, &mut self.fresh);
        self.renewal = g.renewal;
        self.pass_on(g.written, g.renewal.done)?;
        Ok(g.used)
    }

    fn pause(&mut self) -> Result<ControlFlow<()>, Failed> {
        self.copying.pause()
    }
}

// The input has ended: a block that is not whole is left out, and a sheet that is not whole is bad.
fn end(c: Copier, buf: &[u8])
    requires { Held c × (kept_most ≤ length buf.now) }
{
    let mut copy = [0u8; ROOM];
    let mut notes = [0u8; NOTE];
    let e = close(c, buf, &mut copy, &mut notes);
    let _ = write_both(&copy[..e.written], &notes[..e.noted]);
}

// Reads to the end of the input.
fn run(rt: &HostRuntime, r: &mut Renewing) -> Result<(), Failed>
    requires { InSheet r.old.renewal × Held r.old.copying.copier × (kept_most ≤ length r.old.copying.buf) × (kept_most ≤ length r.old.copying.copy) × (note_most ≤ length r.old.copying.notes) × (given_most ≤ length r.old.fresh) }
{
    read_all(rt, r, &mut io::large_buffer())?;
    r.end_sheet()?;
    end(r.copying.copier, &r.copying.buf);
    Ok(())
}

fn main(rt: HostRuntime) {
    let copying = Copying {
        copier: copier::start(),
        buf: [0; ROOM],
        copy: io::large_buffer(),
        notes: io::large_buffer(),
    };
    let mut r = Renewing {
        renewal: renewal::start(),
        copying,
        fresh: io::large_buffer(),
    };
    let _ = run(&rt, &mut r);
}
