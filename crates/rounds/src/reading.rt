// A block of sixteen lines: its numbers, and the round that they make.
ghost use Rattle.std.specs.Prelude.{◌≡◌, [], true, false, ◌≤◌, ◌<◌, min, length, get_or, drop, option_map, IfSome, MatchOption};
ghost use Rattle.text.specs.Line.{after_line, after_lines, line_number};
ghost use Rattle.rounds.specs.RoundText.{keys, good_form, numbers_of, is_choice, choice_of, card_in, deal_of, round_of};

use banked::{Choice, Deal, Round};
use laws::{both, either};
use text::line::{line_end, number_of};

// The key of the k-th line. By a `match`, since a constant array that is read at a place known only later is laid out on the stack at each reading.
fn key_at(k: usize) -> &'static [u8]
    requires { k < 16 }
    ensures { result.now ≡ get_or keys k [] }
{
    match k {
        0 => b"ante",
        1 => b"jackpot",
        2 => b"extra",
        3 => b"dealer",
        4 => b"fold",
        5 => b"turn",
        6 => b"river",
        7 => b"p1",
        8 => b"p2",
        9 => b"d1",
        10 => b"d2",
        11 => b"b1",
        12 => b"b2",
        13 => b"b3",
        14 => b"b4",
        _ => b"b5",
    }
}

// A line's number, and where the next line starts.
#[derive(Clone, Copy)]
struct Line {
    value: u32,
    next: usize,
}

// The k-th line, which starts at `at`; none where its form is bad.
fn read_line(block: &[u8], at: usize, k: usize) -> Option<Line>
    requires { (at ≤ length block.now) × (k < 16) }
    ensures is { option_map (λ l. l.value) result ≡ line_number (get_or keys k []) (drop at block.now) }
    ensures next { IfSome result (λ l. (drop l.next block.now ≡ after_line (drop at block.now)) × (l.next ≤ length block.now)) }
{
    let line = &block[at..];
    let e = line_end(line);
    let value = number_of(line, key_at(k), e)?;
    let next = (at + e + 1).min(block.len());
    Some(Line { value, next })
}

// The numbers of a block, and how many bytes its lines use up.
#[derive(Clone, Copy)]
pub struct Sixteen {
    pub numbers: [u32; 16],
    pub used: usize,
}

// The numbers of a block; none where the form of a line is bad.
pub fn read_numbers(block: &[u8]) -> Option<Sixteen>
    ensures { MatchOption result (good_form block.now ≡ false) (λ s. (good_form block.now ≡ true) × (s.numbers ≡ numbers_of block.now) × (drop s.used block.now ≡ after_lines 16 block.now) × (s.used ≤ length block.now)) }
{
    let mut numbers = [0; 16];
    let mut used = 0;
    for k in 0..16 {
        let line = read_line(block, used, k)?;
        numbers[k] = line.value;
        used = line.next;
    }
    Some(Sixteen { numbers, used })
}

// Whether the three numbers are a choice: each 0 or 1, and no turn or river wager behind a fold.
pub fn is_choice(fold: u32, turn: u32, river: u32) -> bool
    ensures { result ≡ is_choice fold turn river }
{
    let bits = both(fold <= 1, both(turn <= 1, river <= 1));
    both(bits, either(fold == 0, both(turn == 0, river == 0)))
}

fn choice_of(fold: u32, turn: u32, river: u32) -> Choice
    ensures { result ≡ choice_of fold turn river }
{
    if fold == 1 {
        return Choice::Fold;
    }
    Choice::Stay {
        turn: turn == 1,
        river: river == 1,
    }
}

// A card's number in a byte: what no byte holds is no card, and 255 is none either.
fn card_in(n: u32) -> u8
    ensures { result ≡ card_in n }
{
    u8::try_from(n).unwrap_or(255)
}

fn deal_of(n: [u32; 16]) -> Deal
    ensures { result ≡ deal_of n }
{
    Deal {
        p1: card_in(n[7]),
        p2: card_in(n[8]),
        d1: card_in(n[9]),
        d2: card_in(n[10]),
        b1: card_in(n[11]),
        b2: card_in(n[12]),
        b3: card_in(n[13]),
        b4: card_in(n[14]),
        b5: card_in(n[15]),
    }
}

// The round that sixteen numbers make.
pub fn round_of(n: [u32; 16]) -> Round
    ensures { result ≡ round_of n }
{
    let choice = choice_of(n[4], n[5], n[6]);
    let deal = deal_of(n);
    Round {
        ante: n[0],
        jackpot: n[1],
        extra: n[2],
        dealer: n[3],
        choice,
        deal,
    }
}
