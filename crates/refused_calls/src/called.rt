//! How calls are made and said.

use std::io;
use std::io::Write;

/// Makes a call and says so. Where the answer is that memory was refused, which a pattern or a function tells, it is said, and
/// the call is made once more.
macro_rules! called {
    ($rt:expr, $name:expr, if $is_refused:path, $call:expr) => {{
        crate::called::say_call($rt, $name);
        let answer = $call;
        if $is_refused(&answer) {
            crate::called::say($rt, "-- refused");
            $call
        } else {
            answer
        }
    }};
    ($rt:expr, $name:expr, $refused:pat, $call:expr) => {{
        crate::called::say_call($rt, $name);
        match $call {
            $refused => {
                crate::called::say($rt, "-- refused");
                $call
            }
            answer => answer,
        }
    }};
}

pub(crate) use called;

/// Says which call is made.
pub fn say_call(rt: &impl Print, name: &str) {
    let _ = println!(rt; "== {name}");
}

/// Prints a line at once.
pub fn say(rt: &impl Print, line: &str) {
    let _ = println!(rt; "{line}");
}

/// Prints a text at once.
pub fn say_text(rt: &impl Print, text: &[u8]) {
    let _ = io::writer(rt).write_all(text);
}
