//! Tags of XML, as far as a packager has them.

/// The most attributes of a tag that are looked at.
const MOST_ATTRIBUTES: usize = 64;

/// What stands next.
#[derive(Clone, Copy)]
pub(crate) enum Markup<'a> {
    /// A tag, without its brackets, and what follows.
    Tag(&'a str, &'a str),
    /// A remark, an instruction or the name of a DTD, and what follows.
    Passed(&'a str),
    /// No tag follows.
    End,
    /// It ends too soon, or declares something.
    Broken,
}

/// What follows a mark, if it is there.
fn passed<'a>(text: &'a str, mark: &str) -> Markup<'a> {
    match text.split_once(mark) {
        Some((_, after)) => Markup::Passed(after),
        None => Markup::Broken,
    }
}

/// A declaration is passed over where it only names a DTD.
fn declared(text: &str) -> Markup<'_> {
    match text.split_once(">") {
        Some((inner, after)) if !inner.contains("[") => Markup::Passed(after),
        _ => Markup::Broken,
    }
}

/// What stands next in a text.
pub(crate) fn next_markup(text: &str) -> Markup<'_> {
    let Some((_, inside)) = text.split_once("<") else {
        return Markup::End;
    };
    if let Some(remark) = inside.strip_prefix("!--") {
        return passed(remark, "-->");
    }
    if inside.starts_with("?") {
        return passed(inside, "?>");
    }
    if inside.starts_with("!") {
        return declared(inside);
    }
    match inside.split_once(">") {
        Some((tag, after)) => Markup::Tag(tag, after),
        None => Markup::Broken,
    }
}

/// The name of a tag, and its attributes.
fn parts_of(tag: &str) -> (&str, &str) {
    let tag = tag.trim();
    match tag.find(|c: char| c.is_whitespace() || c == '/') {
        Some(at) => (tag.get(..at).unwrap_or(""), tag.get(at..).unwrap_or("")),
        None => (tag, ""),
    }
}

/// The name of a tag.
pub(crate) fn name_of(tag: &str) -> &str {
    parts_of(tag).0
}

/// Whether a tag has nothing inside.
pub(crate) fn is_empty(tag: &str) -> bool {
    tag.trim_end().ends_with("/")
}

/// A value between quotes, and what follows.
fn quoted(text: &str) -> Option<(&str, &str)> {
    let text = text.trim_start();
    if let Some(inner) = text.strip_prefix("\"") {
        return inner.split_once("\"");
    }
    text.strip_prefix("'")?.split_once("'")
}

/// The value of an attribute, if the tag has it.
pub(crate) fn attribute<'a>(tag: &'a str, name: &str) -> Option<&'a str> {
    let mut rest = parts_of(tag).1;
    for _ in 0..MOST_ATTRIBUTES {
        let (key, after) = rest.split_once("=")?;
        let (value, next) = quoted(after)?;
        if key.trim() == name {
            return Some(value.trim());
        }
        rest = next;
    }
    None
}
