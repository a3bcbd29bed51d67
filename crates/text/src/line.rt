// Lines: each ended by one LF and at most 32 bytes without it; the value behind `key=`, and what follows the line.
ghost use Rattle.std.specs.Prelude.{◌≡◌, ◌≤◌, length};
ghost use Rattle.text.specs.Line.{line_len, after_line, after_lines, starts_with, value_start, value_of, line_number};

use crate::decimal::number_in;

// Where the log's first line ends: its LF's place, or the log's length.
pub fn line_end(log: &[u8]) -> usize
    ensures { result ≡ line_len log.now }
{
    for (i, b) in log.iter().enumerate() {
        if *b == 10 {
            return i;
        }
    }
    log.len()
}

// What follows the first line, which ends at e, and its LF.
pub fn behind(log: &[u8], e: usize) -> &[u8]
    requires { e ≡ line_len log.now }
    ensures { result.now ≡ after_line log.now }
{
    if e < log.len() {
        let at = e + 1;
        return &log[at..];
    }
    &log[log.len()..]
}

// What follows the first line and its LF.
pub fn after_line(log: &[u8]) -> &[u8]
    ensures { result.now ≡ after_line log.now }
{
    behind(log, line_end(log))
}

// What is left of a log once k lines are used up.
pub fn after_lines(log: &[u8], k: usize) -> &[u8]
    ensures { result.now ≡ after_lines k log.now }
{
    if k == 0 {
        return log;
    }
    after_lines(after_line(log), k - 1)
}

// Whether the line begins with the bytes of `key`.
pub fn starts_with(line: &[u8], key: &[u8]) -> bool
    ensures { result ≡ starts_with key.now line.now }
{
    line.starts_with(key)
}

// Where the value starts in the log's first line, which ends at e: behind `key=`, or at e where there is none.
fn value_start(log: &[u8], key: &[u8], e: usize) -> usize
    requires { (e ≡ line_len log.now) × (e ≤ length log.now) }
    ensures { (result ≡ value_start key.now log.now) × (result ≤ e) }
{
    if log.len() <= e {
        return e;
    }
    if 32 < e {
        return e;
    }
    if starts_with(&log[0..e], key) {
        let k = key.len();
        if e <= k {
            return e;
        }
        if log[k] == 61 {
            return k + 1;
        }
        return e;
    }
    e
}

// The value of the log's first line, which ends at e, where that has this key; else no bytes.
pub fn value_of<'a>(log: &'a [u8], key: &[u8], e: usize) -> &'a [u8]
    requires { e ≡ line_len log.now }
    ensures { result.now ≡ value_of key.now log.now }
{
    let v = value_start(log, key, e);
    &log[v..e]
}

// The number of the log's first line, which ends at e, where that has this key.
pub fn number_of(log: &[u8], key: &[u8], e: usize) -> Option<u32>
    requires { e ≡ line_len log.now }
    ensures { result ≡ line_number key.now log.now }
{
    number_in(value_of(log, key, e))
}

// The number of the log's first line, where that has this key.
pub fn read_key_number(log: &[u8], key: &[u8]) -> Option<u32>
    ensures { result ≡ line_number key.now log.now }
{
    number_of(log, key, line_end(log))
}
