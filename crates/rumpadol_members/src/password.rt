//! The user of a cluster.
use iso_etcd::User;
use rumpadol_tables::{Source, Stop, document_at, refused};
use std::alloc::{AllocError, Global};
use std::str;

/// What is said of a password that can't be read.
const NO_PASSWORD: &str =
    "the password can't be read; name a file that is there and may be read, with the password alone in it";

/// A text without the end of its line, where it has one.
fn line_in(text: &str) -> &str {
    match text.strip_suffix("\n") {
        Some(line) => line,
        None => text,
    }
}

/// The password in a file's bytes.
fn password_in(alloc: Global, path: &str, bytes: &[u8]) -> Result<String, Stop> {
    match str::from_utf8(bytes) {
        Ok(text) if !line_in(text).is_empty() => Ok(String::from_str(alloc, line_in(text))?),
        _ => Err(refused(format!(in alloc;
            "rumpadol: {path}: there is no password; write it into the file as a line of UTF-8 text\n"
        ))),
    }
}

/// The user of that name, with the password of the file.
pub fn user_at<S: Source>(
    alloc: Global,
    source: &S,
    user: Option<&str>,
    password: Option<&str>,
) -> Result<Option<User>, Stop> {
    let (Some(name), Some(path)) = (user, password) else {
        return Ok(None);
    };
    let bytes = document_at(alloc, source, path, NO_PASSWORD)?;
    Ok(Some(User {
        name: String::from_str(alloc, name)?,
        password: password_in(alloc, path, &bytes)?,
    }))
}

/// The same user once more.
pub fn copied(alloc: Global, user: &Option<User>) -> Result<Option<User>, AllocError> {
    match user {
        Some(user) => Ok(Some(User {
            name: String::from_str(alloc, user.name.as_str())?,
            password: String::from_str(alloc, user.password.as_str())?,
        })),
        None => Ok(None),
    }
}
