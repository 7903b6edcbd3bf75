//! The names of commands.

ghost use Rattle.std.specs.Prelude.{◌≡◌, ◌≤◌, ◌+◌, false, All, bytes_eq, drop, find, is_some, length, map, IfSome};
ghost use Rattle.std.specs.List.{starts_with};
ghost use Rattle.pesp_shell_commands.specs.Forms.{AreAfter, IsNamed, begins_with, form_found};
ghost use Rattle.pesp_shell_commands.specs.Parsed.{form_for, form_of};
ghost use Rattle.pesp_shell_commands.specs.Words.{texts};

use crate::numbers::Numbers;

/// The commands.
#[derive(Clone, Copy)]
pub(crate) enum Name {
    AddEvent,
    DropEvent,
    Fix,
    Window,
    Unfix,
    AddActivity,
    DropActivity,
    Span,
    Weight,
    Ends,
    Time,
    Untime,
    Adopt,
    Domain,
    Domains,
    Tensions,
    Violations,
    Cost,
    Optimum,
    Try,
    Dump,
}

/// The words of each command, in the order in which they are compared.
const NAMES: [(&[&[u8]], Name); 21] = [
    (&[b"add", b"event"], Name::AddEvent),
    (&[b"drop", b"event"], Name::DropEvent),
    (&[b"fix"], Name::Fix),
    (&[b"window"], Name::Window),
    (&[b"unfix"], Name::Unfix),
    (&[b"add", b"activity"], Name::AddActivity),
    (&[b"drop", b"activity"], Name::DropActivity),
    (&[b"span"], Name::Span),
    (&[b"weight"], Name::Weight),
    (&[b"ends"], Name::Ends),
    (&[b"time"], Name::Time),
    (&[b"untime"], Name::Untime),
    (&[b"adopt"], Name::Adopt),
    (&[b"domain"], Name::Domain),
    (&[b"domains"], Name::Domains),
    (&[b"tensions"], Name::Tensions),
    (&[b"violations"], Name::Violations),
    (&[b"cost"], Name::Cost),
    (&[b"optimum"], Name::Optimum),
    (&[b"try"], Name::Try),
    (&[b"dump"], Name::Dump),
];

/// Whether two words may be equal, judged by their first bytes.
fn may_equal(own: &[u8], word: &[u8]) -> bool
    ensures { result ≡ false → bytes_eq own.now word.now ≡ false }
{
    match (own, word) {
        ([first, ..], [other, ..]) => first == other,
        _ => true,
    }
}

/// Whether words begin with those of a command. The first letter excludes most names, so it is
/// compared first. A column of first letters was not built: docs/HISTORY.md has its gain under
/// "Bytes of files freed once read".
fn begin_with(own: &'static [&'static [u8]], words: &[&[u8]]) -> bool
    ensures { result ≡ starts_with bytes_eq (texts words.now) (texts own.now) }
{
    if let ([name, ..], [word, ..]) = (own, words)
        && !may_equal(name, word)
    {
        return false;
    }
    words.starts_with(&*own)
}

/// The words after those of a command, if the words begin with them.
fn numbers_after<'a>(own: &'static [&'static [u8]], words: &'a [&'a [u8]]) -> Option<Numbers<'a>>
    requires { length own.now ≤ 2 }
    ensures begins { is_some result ≡ starts_with bytes_eq (texts words.now) (texts own.now) }
    ensures within { IfSome result (λ _. length own.now ≤ length words.now) }
    ensures words { IfSome result (λ a. a.words ≡ drop (length own.now) (texts words.now)) }
    ensures place { IfSome result (λ a. a.place ≡ length own.now + 1) }
{
    if begin_with(own, words) {
        Some(Numbers::from_words(words, own.len()))
    } else {
        None
    }
}

/// The first of the commands that the words begin with, and the words after its name.
fn first_named<'a>(
    names: &[(&'static [&'static [u8]], Name)],
    words: &'a [&'a [u8]],
) -> Option<(Name, Numbers<'a>)>
    requires { All IsNamed names.now }
    ensures form { form_found result
        ≡ find (begins_with (texts words.now)) (map (λ row. form_for row.1) names.now) }
    ensures numbers { IfSome result (λ p. AreAfter (texts words.now) (form_for p.0) p.1) }
{
    for (own, name) in names {
        if let Some(numbers) = numbers_after(own, words) {
            return Some((*name, numbers));
        }
    }
    None
}

/// The command that the words name, and the words after its name.
pub(crate) fn find_name<'a>(words: &'a [&'a [u8]]) -> Option<(Name, Numbers<'a>)>
    ensures form { form_found result ≡ form_of (texts words.now) }
    ensures numbers { IfSome result (λ p. AreAfter (texts words.now) (form_for p.0) p.1) }
{
    first_named(&NAMES, words)
}
