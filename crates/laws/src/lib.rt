// Small total functions over tests and numbers. Straight-line code made of them leaves one fact to prove, and no join of branches.
#![tactic(auto)]

ghost use Rattle.std.specs.Prelude.{◌≡◌, ◌+◌, ◌-◌, min, max};
ghost use Rattle.laws.specs.Tests.{both, either, pick, one};

pub fn both(a: bool, b: bool) -> bool
    ensures { result ≡ both a b }
{
    a && b
}

pub fn either(a: bool, b: bool) -> bool
    ensures { result ≡ either a b }
{
    a || b
}

// One of two numbers, by a test.
pub fn chosen(b: bool, x: u32, y: u32) -> u32
    ensures { result ≡ pick b x y }
{
    if b { x } else { y }
}

// 1 where a test passes, else 0.
pub fn one(b: bool) -> u32
    ensures { result ≡ one b }
{
    u32::from(b)
}

pub fn least(a: u32, b: u32) -> u32
    ensures { result ≡ min a b }
{
    a.min(b)
}

pub fn most(a: u32, b: u32) -> u32
    ensures { result ≡ max a b }
{
    a.max(b)
}

// How much b is short of a; 0 where it is not.
pub fn short_of(a: u32, b: u32) -> u32
    ensures { result ≡ a - b }
{
    a.saturating_sub(b)
}

pub fn sum(a: u32, b: u32) -> u64
    ensures { result ≡ a + b }
{
    u64::from(a) + u64::from(b)
}
