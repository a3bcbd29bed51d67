// A number for a person: eleven columns, thousands grouped, right-aligned.
ghost use Rattle.std.specs.Prelude.{◌≡◌, ◌<◌};
ghost use Rattle.figures.specs.Grouped.{placed_at, comma_at, units_of, grouped_of, column_of};

// The digit of n that counts p's, blank where n is less.
fn placed(n: u32, p: u32) -> u8
    requires { 0 < p }
    ensures { result ≡ placed_at n p }
{
    if n < p {
        return 32;
    }
    (48 + n / p % 10) as u8
}

// The comma behind the digit that counts p's, blank where n is less.
fn comma(n: u32, p: u32) -> u8
    ensures { result ≡ comma_at n p }
{
    if n < p { 32 } else { 44 }
}

fn units(n: u32) -> u8
    ensures { result ≡ units_of n }
{
    (48 + n % 10) as u8
}

// A number of at most nine digits.
pub fn grouped(n: u32) -> [u8; 11]
    ensures { result ≡ grouped_of n }
{
    [
        placed(n, 100000000),
        placed(n, 10000000),
        placed(n, 1000000),
        comma(n, 1000000),
        placed(n, 100000),
        placed(n, 10000),
        placed(n, 1000),
        comma(n, 1000),
        placed(n, 100),
        placed(n, 10),
        units(n),
    ]
}

// The column of a row's number: blank where the row has none.
pub(crate) fn column(shown: bool, n: u32) -> [u8; 11]
    ensures { result ≡ column_of shown n }
{
    if shown {
        return grouped(n);
    }
    [32; 11]
}
