//! The front of a document: the members `version`, `order`, `program` and `script` that stand before all else in it. Each is read
//! by itself, so that no tree is made of them.

ghost use Rattle.std.specs.Prelude.{◌≡◌, ◌<◌, ◌==◌, ℕ, List, Option, true, false, [], None, Some, length, slice_index, string_bytes, IfErr, IfOk, IfSome};
ghost use Rattle.eevdf_workload.specs.Fronts.{limits_in, is_mark, member_key, version_value, BeginsWith, HasTaken, Holds, IsMember};
ghost use Rattle.eevdf_workload.specs.declared.load_fault.LoadFault.TheVariants.{Memory};
ghost use Rattle.toml.specs.Data.{Data};
ghost use Rattle.toml.specs.Parse as parse;
ghost use Rattle.toml.specs.Tables.{key_value};

use crate::load_fault::LoadFault;
use crate::reading::plain_lists::{order_at, programs_at, script_at};
use crate::reading::plain_values::{number_at, plain};
use crate::version::Version;
use eevdf_ops::{Deed, Op};
use std::alloc::Global;
use toml_parser::text::{first, skip, skip_blank, skip_ws};
use toml_parser::{Key, dotted_key};

/// What the front of a document has, and what stands behind it.
#[derive(Drop)]
pub(crate) struct Front<'a> {
    pub(crate) version: Option<Version>,
    pub(crate) order: Option<Vec<usize>>,
    pub(crate) programs: Option<Vec<Vec<Op>>>,
    pub(crate) script: Option<Vec<Deed>>,
    pub(crate) left: &'a str,
}

/// A member of the front.
#[derive(Drop)]
pub(crate) enum Member {
    Version(Version),
    Order(Vec<usize>),
    Programs(Vec<Vec<Op>>),
    Script(Vec<Deed>),
}

impl<'a> Front<'a> {
    /// Takes a member, and says whether it had none of its kind. A version has to come before what is read within its limits.
    fn takes(&mut self, member: Member) -> bool
        ensures { result ≡ true → HasTaken member self.old self.new }
    {
        match member {
            Member::Version(found) => {
                let is_first = self.programs.is_none() && self.script.is_none();
                is_first && put(&mut self.version, found)
            }
            Member::Order(found) => put(&mut self.order, found),
            Member::Programs(found) => put(&mut self.programs, found),
            Member::Script(found) => put(&mut self.script, found),
        }
    }
}

/// Puts a value where none is, and says whether there was none.
fn put<T: Drop>(place: &mut Option<T>, value: T) -> bool
    ensures { result ≡ true → (place.old ≡ None) × (place.new ≡ Some value) }
{
    if place.is_some() {
        return false;
    }
    *place = Some(value);
    true
}

/// The front of a document, which ends where no member of it stands; the programs and the script have to stand behind the version. `None`
/// where a member isn't plain, or stands there again, so that such a document is read once more at the most, and where a byte order mark may
/// stand before the front or behind it.
pub(crate) fn front_of(alloc: Global, text: &str) -> Result<Option<Front>, LoadFault>
    ensures value { IfOk result (λ found. IfSome found (λ f.
        (values : List ℕ → Option Data) × Holds values f.version f.order f.programs f.script × BeginsWith values f.left.now text.now)) }
    ensures memory { IfErr result (λ e. e ≡ Memory) }
{
    let mut front = Front {
        version: None,
        order: None,
        programs: None,
        script: None,
        left: text,
    };
    'members: loop {
        let start = skip_blank(front.left, true);
        let Some((member, after)) = member_at(alloc, front.version, start)? else {
            if names_member(start) {
                return Ok(None);
            }
            return Ok(unmarked(text, front));
        };
        if !front.takes(member) {
            return Ok(None);
        }
        front.left = after;
    }
}

/// Whether the name of a member stands at the front of a text.
fn names_member(text: &str) -> bool {
    text.starts_with("version")
        || text.starts_with("order")
        || text.starts_with("program")
        || text.starts_with("script")
}

/// The front of a text. `None` where a byte order mark may stand before it or behind it.
fn unmarked<'a>(text: &str, front: Front<'a>) -> Option<Front<'a>>
    ensures same { IfSome result (λ f. f ≡ front.entry) }
    ensures text { IfSome result (λ _. is_mark (slice_index text.now 0) ≡ false) }
    ensures left { IfSome result (λ _. is_mark (slice_index front.entry.left.now 0) ≡ false) }
{
    if is_mark(first(text)) || is_mark(first(front.left)) {
        return None;
    }
    Some(front)
}

/// Whether a byte order mark may begin with a byte.
fn is_mark(byte: u8) -> bool
    ensures { result ≡ is_mark byte }
{
    byte == 0xEF
}

/// The member at the front of a text, on a line of its own, and what stands behind it.
fn member_at(
    alloc: Global,
    version: Option<Version>,
    text: &str,
) -> Result<Option<(Member, &str)>, LoadFault>
    ensures value { IfOk result (λ found. IfSome found (λ p. (d : Data)
        × (parse.line text.now ≡ Some ((([], member_key p.0), key_value d), p.1.now))
        × IsMember (limits_in version) p.0 d)) }
    ensures shorter { IfOk result (λ found. IfSome found (λ p. length p.1.now < length text.now)) }
    ensures memory { IfErr result (λ e. e ≡ Memory) }
{
    let Some((key, value)) = key_at(alloc, text)? else {
        return Ok(None);
    };
    let Some((member, after)) = member_of(alloc, version, key.as_str(), value)? else {
        return Ok(None);
    };
    if ends_line(skip_ws(after)) {
        Ok(Some((member, after)))
    } else {
        Ok(None)
    }
}

/// Whether a line may end at the front of a text.
fn ends_line(text: &str) -> bool
    ensures { result ≡ parse.ends_line text.now }
{
    text.is_empty() || matches!(first(text), b'#' | b'\n' | b'\r')
}

/// A key without dots at the front of a text, which is no header, and where its value stands.
fn key_at(alloc: Global, text: &str) -> Result<Option<(String, &str)>, LoadFault>
    ensures value { IfOk result (λ found. IfSome found (λ p.
        parse.key_equals text.now ≡ Some (([], string_bytes p.0), p.1.now))) }
    ensures pair { IfOk result (λ found. IfSome found (λ _. (slice_index text.now 0 == 91) ≡ false)) }
    ensures shorter { IfOk result (λ found. IfSome found (λ p. length p.1.now < length text.now)) }
    ensures memory { IfErr result (λ e. e ≡ Memory) }
{
    if first(text) == b'[' {
        return Ok(None);
    }
    let Some((key, after)) = plain(dotted_key(alloc, text))? else {
        return Ok(None);
    };
    let Key { path, last } = key;
    if !path.is_empty() || first(after) != b'=' {
        return Ok(None);
    }
    Ok(Some((last, skip_ws(skip(after, 1)))))
}

/// The member of this key, of which the value stands at the front of a text, and what stands behind it.
fn member_of<'a>(
    alloc: Global,
    version: Option<Version>,
    key: &str,
    text: &'a str,
) -> Result<Option<(Member, &'a str)>, LoadFault>
    ensures key { IfOk result (λ found. IfSome found (λ p. key.now ≡ member_key p.0)) }
    ensures value { IfOk result (λ found. IfSome found (λ p. (d : Data)
        × (parse.val 80 text.now ≡ Some (d, p.1.now)) × IsMember (limits_in version) p.0 d)) }
    ensures shorter { IfOk result (λ found. IfSome found (λ p. length p.1.now < length text.now)) }
    ensures memory { IfErr result (λ e. e ≡ Memory) }
{
    match key {
        "version" => {
            let Some((version, after)) = version_at(alloc, text)? else {
                return Ok(None);
            };
            Ok(Some((Member::Version(version), after)))
        }
        "order" => {
            let Some((order, after)) = order_at(alloc, text)? else {
                return Ok(None);
            };
            Ok(Some((Member::Order(order), after)))
        }
        "program" => {
            let Some(version) = version else {
                return Ok(None);
            };
            let Some((programs, after)) = programs_at(alloc, version.limits(), text)? else {
                return Ok(None);
            };
            Ok(Some((Member::Programs(programs), after)))
        }
        "script" => {
            let Some(version) = version else {
                return Ok(None);
            };
            let Some((script, after)) = script_at(alloc, version.limits(), text)? else {
                return Ok(None);
            };
            Ok(Some((Member::Script(script), after)))
        }
        _ => Ok(None),
    }
}

/// The version at the front of a text, and what stands behind it.
fn version_at(alloc: Global, text: &str) -> Result<Option<(Version, &str)>, LoadFault>
    ensures value { IfOk result (λ found. IfSome found (λ p.
        parse.val 80 text.now ≡ Some (version_value p.0, p.1.now))) }
    ensures shorter { IfOk result (λ found. IfSome found (λ p. length p.1.now < length text.now)) }
    ensures memory { IfErr result (λ e. e ≡ Memory) }
{
    match number_at(alloc, text)? {
        Some((1, after)) => Ok(Some((Version::One, after))),
        Some((2, after)) => Ok(Some((Version::Two, after))),
        Some((3, after)) => Ok(Some((Version::Three, after))),
        Some((4, after)) => Ok(Some((Version::Four, after))),
        _ => Ok(None),
    }
}
