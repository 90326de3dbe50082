//! Which words the program takes for which command.

use eevdf_bench::{Form, Kind, WordFault, command_of};
use std::alloc::Global;
use std::convert::AsStr;
use std::process::Abort;

/// What the words ask for.
type Asked = Result<(Kind, Form), WordFault>;

const TIMES: Form = Form {
    history: false,
    times: true,
};

const BOTH: Form = Form {
    history: true,
    times: true,
};

const ROWS: [(&[&str], Asked); 27] = [
    (&["eevdf", "solo"], Ok((Kind::Solo, Form::PLAIN))),
    (
        &["eevdf", "solo", "--history"],
        Ok((Kind::Solo, Form::WITH_HISTORY)),
    ),
    (&["eevdf", "solo", "--times"], Ok((Kind::Solo, TIMES))),
    (
        &["eevdf", "solo", "--times", "--history"],
        Ok((Kind::Solo, BOTH)),
    ),
    (&["eevdf", "replay"], Ok((Kind::Replay, Form::PLAIN))),
    (
        &["eevdf", "replay", "--history"],
        Ok((Kind::Replay, Form::WITH_HISTORY)),
    ),
    (
        &["eevdf", "replay", "--history", "--times"],
        Ok((Kind::Replay, BOTH)),
    ),
    (&["eevdf", "run"], Ok((Kind::Run, Form::PLAIN))),
    (
        &["eevdf", "run", "--history"],
        Ok((Kind::Run, Form::WITH_HISTORY)),
    ),
    (&["eevdf", "run", "--times"], Ok((Kind::Run, TIMES))),
    (&[], Err(WordFault::Words)),
    (&["eevdf"], Err(WordFault::Words)),
    (&["eevdf", "stop"], Err(WordFault::Words)),
    (&["eevdf", "--history", "solo"], Err(WordFault::Words)),
    (
        &["eevdf", "solo", "--history", "--history"],
        Err(WordFault::Words),
    ),
    (
        &["eevdf", "solo", "--times", "--times"],
        Err(WordFault::Words),
    ),
    (
        &["eevdf", "replay", "--history=true"],
        Err(WordFault::Words),
    ),
    (&["eevdf", "solo", "x"], Err(WordFault::Words)),
    (&["eevdf", "solo", "replay"], Err(WordFault::Words)),
    (&["eevdf", "run", "run"], Err(WordFault::Words)),
    (&["eevdf", "run", "-h"], Err(WordFault::Words)),
    (&["eevdf", "replay", "--help"], Err(WordFault::Words)),
    (&["eevdf", "--help"], Err(WordFault::Words)),
    (&["eevdf", "-h"], Err(WordFault::Words)),
    (&["eevdf", "help"], Err(WordFault::Words)),
    (&["eevdf", "--version"], Err(WordFault::Words)),
    (&["eevdf", "-V"], Err(WordFault::Words)),
];

#[test]
fn words_are_taken_for_a_command_or_refused(rt: HostRuntime) {
    for (place, (words, wanted)) in ROWS.iter().enumerate() {
        assert!(rt; asked(rt.alloc(), *words) == *wanted, "row {place}");
    }
}

fn asked<S: AsStr>(alloc: Global, words: &[S]) -> Asked {
    let command = command_of(alloc, words)?;
    Ok((command.kind, command.form))
}

/// These words as strings.
fn strings(rt: &impl Abort, alloc: Global, words: &[&str]) -> Vec<String> {
    let mut strings = Vec::new(alloc);
    for word in words {
        let string = String::from_str(alloc, word).expect(rt, "memory");
        strings.push(string).expect(rt, "memory");
    }
    strings
}

#[test]
fn words_may_be_strings(rt: HostRuntime) {
    let words = strings(&rt, rt.alloc(), &["eevdf", "solo"]);
    assert!(rt; asked(rt.alloc(), words.as_slice()) == Ok((Kind::Solo, Form::PLAIN)));
}
