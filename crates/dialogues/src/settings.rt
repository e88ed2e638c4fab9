// Texts of settings, an empty line behind each. The first line of each is a comment, which names it. What is told of a
// text is its name, and what it gives, or the key that is refused, what is wrong there, and what is allowed. A text whose
// name begins with `member` has the settings of a member, of the name behind `, as ` where that stands there, one that
// begins with `watch` those of what watches it, and each other the settings of a served group.
mod member;
mod served;
mod watch;

use std::alloc::{AllocError, Global};

/// A line for each text.
pub(crate) fn told_each(alloc: Global, texts: &str) -> Result<String, AllocError> {
    let mut told = String::new(alloc);
    let mut text = String::new(alloc);
    'lines: for line in texts.lines() {
        if line.is_empty() {
            told.push_str(&told_of(alloc, &text)?)?;
            text.clear();
        } else {
            text.push_str(line)?;
            text.push('\n')?;
        }
    }
    Ok(told)
}

fn told_of(alloc: Global, text: &str) -> Result<String, AllocError> {
    let name = name_of(text);
    let given = given_by(alloc, text, name)?;
    format!(in alloc; "{name}: {given}\n")
}

// The first line of a text, without what makes it a comment.
fn name_of(text: &str) -> &str {
    let line = text.lines().next().unwrap_or("");
    line.strip_prefix("# ").unwrap_or(line)
}

fn given_by(alloc: Global, text: &str, name: &str) -> Result<String, AllocError> {
    if name.starts_with("member") {
        let word = name.split_once(", as ").map(|(_, word)| word);
        member::told(alloc, text.as_bytes(), word)
    } else if name.starts_with("watch") {
        watch::told(alloc, text.as_bytes())
    } else {
        served::told(alloc, text.as_bytes())
    }
}
