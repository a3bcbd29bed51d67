// The dealer's table: a log on standard input, and the table as it stands after each entry on standard output, as it comes. With --standing one picture that is
// drawn again in its place, its lamp amber and a refusal red; with --plain before it, without colours.
#![tactic(auto)]

ghost use Rattle.std.specs.Prelude.{◌≡◌, ◌≤◌, ⊤, length};
ghost use Rattle.lines.specs.Kept.{kept_most};
ghost use Rattle.seen.specs.Seen.{Held};

use argument::is_argument;
use drawn::{MOST, draw};
use output::{Failed, Listener, STDOUT_FILENO, read_all, write_out};
use seen::feed::{Seen, close, ends_open, feed, start};
use std::ops::ControlFlow;
use text::sheet::ROOM;

// How the pictures are drawn.
#[derive(Clone, Copy)]
struct Form {
    standing: bool,
    colour: bool,
}

// How it is drawn, what is seen, the unfinished block and a sheet for the picture.
#[derive(Drop)]
struct View {
    form: Form,
    seen: Seen,
    buf: [u8; ROOM],
    out: [u8; MOST],
}

impl View {
    // The picture, written out.
    fn show(&mut self, ended: bool) -> Result<(), Failed>
        requires { Held self.old.seen × (2300 ≤ length self.old.out) }
        ensures { (self.new ≡ record self.old { out = self.new.out }) × (length self.new.out ≡ length self.old.out) }
    {
        let n = draw(
            &mut self.out,
            self.seen,
            ended,
            self.form.standing,
            self.form.colour,
        );
        write_out(STDOUT_FILENO, &self.out[..n])
    }

    // The input has ended: where that is inside a hand, a block or the sheet, the picture says so.
    fn end(&mut self)
        requires { Held self.old.seen × (kept_most ≤ length self.old.buf) × (2300 ≤ length self.old.out) }
    {
        if ends_open(self.seen) {
            self.seen = close(self.seen, &self.buf);
            let _ = self.show(true);
        }
    }
}

impl Listener for View {
    ghost Held = { λ v. Held v.seen × (kept_most ≤ length v.buf) × (2300 ≤ length v.out) };

    ghost Heard = { λ _ _ _ _. ⊤ };

    ghost none = { λ _ _. tt };

    ghost on = { λ _ _ _ _ _ _ _ _. tt };

    // Bytes of a part up to the end of a block: a picture of what is new.
    fn hear(&mut self, part: &[u8]) -> Result<usize, Failed> {
        let f = feed(self.seen, &mut self.buf, part);
        self.seen = f.seen;
        if f.fresh {
            self.show(false)?;
        }
        Ok(f.used)
    }

    fn pause(&mut self) -> Result<ControlFlow<()>, Failed> {
        Ok(ControlFlow::Continue(()))
    }
}

// Whether one of the first two arguments is this word.
fn has_word(rt: &HostRuntime, want: &[u8]) -> bool {
    laws::either(is_argument(rt, 1, want), is_argument(rt, 2, want))
}

fn main(rt: HostRuntime) {
    let form = Form {
        standing: has_word(&rt, b"--standing"),
        colour: !has_word(&rt, b"--plain"),
    };
    let mut view = View {
        form,
        seen: start(),
        buf: [0; ROOM],
        out: [0; MOST],
    };
    if read_all(&rt, &mut view, &mut io::large_buffer()).is_ok() {
        view.end();
    }
}
