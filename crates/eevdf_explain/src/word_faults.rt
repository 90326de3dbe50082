//! What is wrong with the text of an operation or a deed, from its first word to its last.

use crate::known_words::KnownWords;
use crate::machine::Machine;
use crate::signatures::Signature;
use crate::tokens::Place;
use crate::word_reason::{Argument, NotAmong, Part, WordReason};
use crate::word_texts::{is_of_digits, word_at};
use eevdf_weight::{Ns, Slice};
use eevdf_workload::{level, number};

/// What is wrong, and the bytes of the word that is meant.
#[derive(Clone, Copy)]
pub(crate) struct WordFault<'a> {
    pub(crate) place: Place,
    pub(crate) reason: WordReason<'a>,
}

/// The text of an operation of a CPU's program, or of a deed, of a machine.
#[derive(Clone, Copy)]
pub(crate) struct Work<'a> {
    pub(crate) machine: Machine<'a>,
    pub(crate) text: &'a str,
    /// The CPU whose program the operation is of, and none of a deed, which begins with its own.
    pub(crate) cpu: Option<usize>,
}

/// A word, with the place of its first byte.
#[derive(Clone, Copy)]
struct Word<'a> {
    start: usize,
    text: &'a str,
}

impl<'a> Word<'a> {
    fn number(self) -> Option<u64> {
        number(self.text.as_bytes())
    }

    fn fault(self, reason: WordReason<'a>) -> Option<WordFault<'a>> {
        let place = Place {
            start: self.start,
            end: self.start.saturating_add(self.text.len()),
        };
        Some(WordFault { place, reason })
    }

    /// The fault of a word that isn't what is expected.
    fn other(self, expected: Argument) -> Option<WordFault<'a>> {
        let word = self.text;
        self.fault(WordReason::Other { word, expected })
    }

    fn zero_in_front(self) -> Option<WordFault<'a>> {
        let word = self.text;
        self.fault(WordReason::ZeroInFront { word })
    }
}

impl<'a> Work<'a> {
    fn word(self, index: usize) -> Word<'a> {
        let (start, text) = word_at(self.text, index);
        Word { start, text }
    }

    /// The words that an operation may begin with here.
    fn known(self) -> KnownWords {
        KnownWords {
            version: self.machine.version,
            in_program: self.cpu.is_some(),
        }
    }
}

/// The first word that can't be read or that the machine doesn't allow, if there is one.
pub(crate) fn word_fault(work: Work) -> Option<WordFault> {
    if let Some(fault) = space_fault(work.text) {
        return Some(fault);
    }
    match work.cpu {
        Some(cpu) => operation_fault(work, cpu, 0),
        None => deed_fault(work),
    }
}

fn space_fault(text: &str) -> Option<WordFault> {
    let mut is_after = true;
    let bytes = text.as_bytes();
    for at in 0..bytes.len() {
        let is_space = bytes[at] == b' ';
        if is_space && (is_after || at + 1 == bytes.len()) {
            let space = Word {
                start: at,
                text: " ",
            };
            return space.fault(WordReason::Says(
                "one space stands between two words, and none before or after",
            ));
        }
        is_after = is_space;
    }
    None
}

fn deed_fault(work: Work) -> Option<WordFault> {
    let word = work.word(0);
    let Some(cpu) = word.number() else {
        return word.fault(WordReason::Says(
            "a deed begins with the number of its CPU, as \"0 pick\"",
        ));
    };
    let cpu = usize::try_from(cpu).unwrap_or(0);
    match argument_fault(work, cpu, Argument::Cpu, 0) {
        Some(fault) => Some(fault),
        None => operation_fault(work, cpu, 1),
    }
}

/// The fault of the operation of a CPU whose first word has this index.
fn operation_fault(work: Work, cpu: usize, first: usize) -> Option<WordFault> {
    let word = work.word(first);
    let Some(signature) = Signature::of(word.text) else {
        return word.fault(unknown(work, word.text));
    };
    match misplaced(work.known(), signature) {
        Some(reason) => word.fault(reason),
        None => arguments_fault(work, cpu, signature, first.saturating_add(1)),
    }
}

/// What is wrong with a word that no operation begins with.
fn unknown<'a>(work: Work<'a>, word: &'a str) -> WordReason<'a> {
    let known = work.known();
    if known.in_program && is_of_digits(word) {
        WordReason::Says(
            "the number of a CPU stands in scripts alone; an operation of a program begins with its word, as \"pick\"",
        )
    } else {
        WordReason::Unknown { word, known }
    }
}

/// What is wrong with a word that stands elsewhere: in a program, in a script, or in a later version.
fn misplaced(known: KnownWords, signature: Signature) -> Option<WordReason<'static>> {
    let word = signature.word();
    if !signature.stands(known.in_program) {
        return Some(if known.in_program {
            WordReason::Says(
                "\"wake\" stands in scripts alone; in programs \"post\" asks for a wake, and \"drain\" does it",
            )
        } else {
            WordReason::OfPrograms { word, known }
        });
    }
    if signature.is_known(known.version) {
        return None;
    }
    Some(WordReason::Later {
        word,
        version: signature.since(),
    })
}

/// The fault of the words from an index on, which are to be what an operation of a CPU takes, and no more.
fn arguments_fault<'a>(
    work: Work<'a>,
    cpu: usize,
    signature: Signature,
    first: usize,
) -> Option<WordFault<'a>> {
    let mut index = first;
    for argument in signature.takes().iter() {
        if let Some(fault) = argument_fault(work, cpu, *argument, index) {
            return Some(fault);
        }
        index = index.saturating_add(1);
    }
    let word = work.word(index);
    if !word.text.is_empty() {
        return word.fault(WordReason::More { word: word.text });
    }
    match signature.takes().first() {
        Some(Argument::TaskAtHome(does)) => home_fault(work, cpu, *does, first),
        _ => None,
    }
}

/// The fault of a task that isn't at home on a CPU: the CPU of a deed is meant, and the task of an operation.
fn home_fault<'a>(
    work: Work<'a>,
    cpu: usize,
    does: &'static str,
    index: usize,
) -> Option<WordFault<'a>> {
    let task = work.word(index);
    let home = work.machine.home(task.number().unwrap_or(0));
    if home == cpu as u64 {
        return None;
    }
    let word = match work.cpu {
        Some(_) => task,
        None => work.word(0),
    };
    word.fault(WordReason::NotAtHome {
        task: task.text,
        does,
        home,
    })
}

/// The fault of a word that is to be an argument of an operation of this CPU.
fn argument_fault(work: Work, cpu: usize, argument: Argument, index: usize) -> Option<WordFault> {
    let word = work.word(index);
    match argument {
        Argument::Time => time_fault(word),
        Argument::Task | Argument::TaskAtHome(_) => {
            numbered_fault(word, argument, Part::Task, work.machine.tasks)
        }
        Argument::From if word.text == "from" => None,
        Argument::From => word.fault(WordReason::Says(
            "a wake names the CPU that asks for it, as \"0 wake 3 from 1\"",
        )),
        Argument::Cpu => numbered_fault(word, argument, Part::Cpu, work.machine.cpus),
        Argument::OtherCpu => match numbered_fault(word, argument, Part::Cpu, work.machine.cpus) {
            None if word.number() == Some(cpu as u64) => { word.fault(WordReason::OwnPull { cpu }) }
            fault => fault,
        },
        Argument::Level => match level(word.text.as_bytes()) {
            Some(_) => None,
            None => word.other(argument),
        },
        Argument::Slice => slice_fault(word),
    }
}

fn time_fault(word: Word) -> Option<WordFault> {
    if !is_of_digits(word.text) {
        return word.other(Argument::Time);
    }
    match word.number() {
        Some(0) => word.fault(WordReason::Says("tick of 0 ns; at least 1")),
        Some(time) if Ns::new(time).is_some() => None,
        None if word.text.starts_with("0") => word.zero_in_front(),
        _ => word.fault(WordReason::LongTime { word: word.text }),
    }
}

/// A number of a task or a CPU that the machine hasn't.
fn numbered_fault<'a>(
    word: Word<'a>,
    expected: Argument,
    part: Part,
    count: usize,
) -> Option<WordFault<'a>> {
    if !is_of_digits(word.text) {
        return word.other(expected);
    }
    match word.number() {
        Some(number) if number < count as u64 => None,
        None if word.text.starts_with("0") => word.zero_in_front(),
        _ => word.fault(WordReason::NotThere {
            word: word.text,
            among: NotAmong { part, count },
        }),
    }
}

fn slice_fault(word: Word) -> Option<WordFault> {
    match word.number() {
        Some(slice) if Slice::new(slice).is_some() => None,
        None if word.text.starts_with("0") && is_of_digits(word.text) => word.zero_in_front(),
        _ => word.other(Argument::Slice),
    }
}
