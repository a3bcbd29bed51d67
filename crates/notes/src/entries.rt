// What a block does to the notes: an entry that is taken, or a refusal.
ghost use Rattle.std.specs.Prelude.{◌≡◌};
ghost use Rattle.notes.specs.Notes.{place_of, with_end, sat_notes, left_notes, opened_notes, settled_notes, noted_by, taken_notes, refused_notes, code_noted};

use crate::{Ending, Notes, Rounds, place_of, round_totals, settle_all, stacks_of};
use accounts::{Account, added};
use chairs::seats::chair_at;
use paper::{Entry, TAKEN};
use table::table::{Payout, Table};

impl Notes {
    // A sitting sits down: it has brought its chips.
    fn sat(self, s: u32, a: u32) -> Notes
        ensures { result ≡ sat_notes self s a }
    {
        self.with_account(place_of(s), Account::seated(a))
    }

    // A sitting leaves with its stack: the sums over those that left.
    #[tactic(auto, unfolding(crate::specs::Notes::left_notes))]
    fn left(self, t: &Table, s: u32) -> Notes
        ensures { result ≡ left_notes self t.now s }
    {
        let c = chair_at(t.chairs, s);
        let a = self.account_now(c, place_of(s));
        let gone = self.gone.with_account(a, c.stack);
        Notes { gone, ..self }
    }

    // A hand opens: the stacks before it, and nothing put in.
    #[tactic(auto, unfolding(crate::specs::Notes::opened_notes))]
    fn opened(self, t: &Table) -> Notes
        ensures { result ≡ opened_notes self t.now }
    {
        Notes {
            hands: added(self.hands, 1),
            before: stacks_of(t.chairs),
            rounds: Rounds::none(),
            ended: [None; 10],
            ..self
        }
    }

    // A hand is settled: the last round, what the hand was charged, and the accounts of those who are still there.
    #[tactic(auto, unfolding(crate::specs::Notes::settled_notes))]
    fn settled(self, t: &Table, p: &Payout) -> Notes
        ensures { result ≡ settled_notes self t.now p.now }
    {
        Notes {
            charges: self.charges.with_hand(p.fee, p.drop, p.unclaimed),
            accounts: settle_all(self.accounts, t.chairs, p.paid),
            ..self.rounds_noted(t)
        }
    }

    // A hand ends before the settle.
    fn ended(self, s: u32, how: Ending) -> Notes
        ensures { result ≡ with_end self (place_of s) how }
    {
        self.with_end(place_of(s), how)
    }

    // What an entry that is taken does: t is the table before it, p what it pays.
    fn noted(self, t: &Table, e: Entry, p: &Payout) -> Notes
        ensures { result ≡ noted_by self t.now e p.now }
    {
        match e {
            Entry::Sit(s, a) => self.sat(s, a),
            Entry::Leave(s) => self.left(t, s),
            Entry::Hand(_) => self.opened(t),
            Entry::Fold(s) => self.ended(s, Ending::Folded),
            Entry::Board(_) => self.rounds_noted(t),
            Entry::Dead(s) => self.ended(s, Ending::Dead),
            Entry::Settle => self.settled(t, p),
            Entry::Hole(_, _, _) => self,
            Entry::Check(_) => self,
            Entry::Call(_) => self,
            Entry::Wager(_, _) => self,
            Entry::Void => self,
        }
    }

    // One block more with a code, and whether it is one of several refused.
    fn with_code(self, code: u8, refusing: bool) -> Notes
        ensures { result ≡ code_noted self code refusing }
    {
        let codes = accounts::with_code(self.codes, code);
        Notes {
            codes,
            refusing,
            ..self
        }
    }

    // The notes after an entry that is taken at a table.
    #[tactic(auto, unfolding(crate::specs::Notes::taken_notes))]
    pub fn taken(self, t: &Table, e: Entry, p: &Payout) -> Notes
        ensures { result ≡ taken_notes self t.now e p.now }
    {
        self.with_code(TAKEN, false).noted(t, e, p)
    }

    // The notes after a block that is refused.
    #[tactic(auto, unfolding(crate::specs::Notes::refused_notes))]
    pub fn refused(self, code: u8) -> Notes
        ensures { result ≡ refused_notes self code }
    {
        self.with_code(code, true)
    }
}
