// The evening's sums: how many hands and blocks, the refusals by code, fees, drops and what nobody claimed; and for each seat what its sitting has brought, put in and been
// paid, which is written when it leaves. An evening has at most 1,000,000 entries and a hand at most 100,000,000 chips, so no sum comes near its bound.
#![tactic(auto)]

ghost use Rattle.std.specs.Prelude.{◌≡◌};
ghost use Rattle.accounts.specs.Sums.{added_to, brings, putting, pays, without, nobody, totalled, uncharged, charged, counted};

// What a sitting has brought, put into pots, and been paid.
#[derive(Clone, Copy)]
pub struct Account {
    pub brought: u64,
    pub put: u64,
    pub paid: u64,
}

// Sums over sittings: how many, and what they have brought, put in, been paid, and taken home or have in front of them.
#[derive(Clone, Copy)]
pub struct Sums {
    pub sittings: u64,
    pub brought: u64,
    pub put: u64,
    pub paid: u64,
    pub home: u64,
}

// What hands were charged: commission, drops, and chips that nobody claimed.
#[derive(Clone, Copy)]
pub struct Charges {
    pub hands: u64,
    pub fees: u64,
    pub drops: u64,
    pub unclaimed: u64,
}

// No sum of an evening comes near it.
const BOUND: u64 = 4000000000000000000;

// A sum that stays below twice the bound.
#[tactic(auto, unfolding(crate::specs::Sums::added_to))]
pub fn added(x: u64, by: u64) -> u64
    ensures { result ≡ added_to x by }
{
    if BOUND < x || BOUND < by {
        return x;
    }
    x + by
}

impl Account {
    pub fn nobody() -> Account
        ensures { result ≡ nobody }
    {
        Account {
            brought: 0,
            put: 0,
            paid: 0,
        }
    }

    // A sitting that sits down with so many chips.
    pub fn seated(chips: u32) -> Account
        ensures { result ≡ brings chips }
    {
        Account {
            brought: u64::from(chips),
            ..Account::nobody()
        }
    }

    // A sitting that has put so many chips into a hand.
    pub fn with_put(self, chips: u32) -> Account
        ensures { result ≡ putting self chips }
    {
        Account {
            put: added(self.put, u64::from(chips)),
            ..self
        }
    }

    // A sitting that is paid so many chips.
    pub fn with_paid(self, chips: u32) -> Account
        ensures { result ≡ pays self chips }
    {
        Account {
            paid: added(self.paid, u64::from(chips)),
            ..self
        }
    }
}

impl Sums {
    pub fn none() -> Sums
        ensures { result ≡ without }
    {
        Sums {
            sittings: 0,
            brought: 0,
            put: 0,
            paid: 0,
            home: 0,
        }
    }

    // One sitting more, with the chips that it takes home or has in front of it.
    pub fn with_account(self, a: Account, home: u32) -> Sums
        ensures { result ≡ totalled self a home }
    {
        Sums {
            sittings: added(self.sittings, 1),
            brought: added(self.brought, a.brought),
            put: added(self.put, a.put),
            paid: added(self.paid, a.paid),
            home: added(self.home, u64::from(home)),
        }
    }
}

impl Charges {
    pub fn none() -> Charges
        ensures { result ≡ uncharged }
    {
        Charges {
            hands: 0,
            fees: 0,
            drops: 0,
            unclaimed: 0,
        }
    }

    // One settled hand more.
    pub fn with_hand(self, fee: u32, drop: u32, unclaimed: u32) -> Charges
        ensures { result ≡ charged self fee drop unclaimed }
    {
        Charges {
            hands: added(self.hands, 1),
            fees: added(self.fees, u64::from(fee)),
            drops: added(self.drops, u64::from(drop)),
            unclaimed: added(self.unclaimed, u64::from(unclaimed)),
        }
    }
}

// One block more with a code; a code that is none counts as the last.
#[tactic(auto, unfolding(crate::specs::Sums::counted))]
pub fn with_code(codes: [u64; 13], code: u8) -> [u64; 13]
    ensures { result ≡ counted codes code }
{
    let mut next = codes;
    let k = code.min(12) as usize;
    next[k] = added(next[k], 1);
    next
}
